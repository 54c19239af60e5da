//! The program `siit`: it hands its words and the files of the system to the top call, and reports how that ended.
#![tactic(auto)]

mod appender;
mod disk;
mod failure;
mod file_id;
mod file_words;
mod own_words;
mod reader;

ghost use Rattle.siit_top.specs.Texts.{status_code};
ghost use Rattle.std.specs.Prelude.{◌≡◌, ◌≢◌, ◌⊎◌, ◌≤◌, [], All, IfErr, None, OnErr, OnOk};

use crate::disk::DiskFiles;
use crate::failure::{Action, Cause, Failure};
use crate::file_words::file_words;
use crate::own_words::{USAGE, own_word};
use siit_top::{Status, siit_main, status_line};
use siit_word::{Counter, Failed, NoMemory};
use std::alloc::Global;
use std::io::ErrorKind;
use std::process::ExitCode;
use std::rt::{Env, Runtime};
use std::{env, io, rt};

fn main(rt: HostRuntime) -> ExitCode {
    ExitCode::from(run(&rt))
}

/// Does what the words after the program's name say, and answers the exit status.
fn run<R: Runtime + AllocGlobal>(rt: &R) -> u8
    ensures bound { result ≤ 10 }
    ensures no_one { result ≢ 1 }
{
    let words = match words_of(rt) {
        Ok(words) => words,
        Err(status) => {
            explain(rt, &status, None);
            return report(rt, status);
        }
    };
    match own_word(&words) {
        Some(word) => finish(rt, Status::Ok, write_texts(rt, word.texts())),
        None => run_command(rt, &words),
    }
}

/// The words after the program's name. One that is no text is no word of a command.
fn words_of<R: Env + AllocGlobal>(rt: &R) -> Result<Vec<String>, Status>
    ensures { IfErr result (λ status. (status ≡ Status.BadWords) ⊎ (status ≡ Status.NoMemory)) }
{
    let mut words = Vec::new(rt.alloc());
    match env::args(rt) {
        Ok(all) => {
            for word in all.skip(1) {
                if words.push(word).is_err() {
                    return Err(Status::NoMemory);
                }
            }
            Ok(words)
        }
        Err(error) if error.kind() == ErrorKind::InvalidData => Err(Status::BadWords),
        Err(_) => Err(Status::NoMemory),
    }
}

/// Does what the words ask of the top call, and answers the exit status.
fn run_command<R: Runtime + AllocGlobal>(rt: &R, words: &[String]) -> u8
    ensures bound { result ≤ 10 }
    ensures no_one { result ≢ 1 }
{
    let alloc = rt.alloc();
    let Ok(own) = rt.clone() else {
        return report(rt, Status::NoMemory);
    };
    let mut files = DiskFiles::new(own, alloc, file_words(words));
    let mut out = Vec::new(alloc);
    let status = run_over(alloc, words, &mut files, &mut out);
    explain(rt, &status, files.failure());
    match status {
        Status::Ok => finish(rt, Status::Ok, rt.write_all(&out)),
        status => report(rt, status),
    }
}

/// Does what the words ask over these files. Afterwards no byte that was appended waits to be written, and after `Ok`
/// none was lost.
fn run_over<R: rt::Files>(
    alloc: Global,
    words: &[String],
    files: &mut DiskFiles<'_, R>,
    out: &mut Vec<u8>,
) -> Status
    ensures written { All (λ a. a.gathered.items ≡ []) files.new.appenders.items }
    ensures whole { result ≡ Status.Ok → All (λ a. a.lost ≡ None) files.new.appenders.items }
{
    let status = siit_main(alloc, words, files, &mut Counter::new(), out);
    ended(status, files.flush())
}

/// How a run ended, once the bytes that were gathered are written, or lost.
fn ended(status: Status, flushed: Result<(), Failed>) -> Status
    ensures flushed { OnOk flushed (result ≡ status) }
    ensures lost { OnErr flushed (status ≡ Status.Ok → result ≡ Status.WriteFault) }
    ensures other { status ≢ Status.Ok → result ≡ status }
{
    match (status, flushed) {
        (Status::Ok, Err(Failed)) => Status::WriteFault,
        (status, _) => status,
    }
}

/// Says on standard error what a status leaves open: which file failed in what and why, or how the program is called.
fn explain<R: Eprint>(rt: &R, status: &Status, failure: Option<&Failure>) {
    match status {
        Status::Ok => {}
        Status::BadWords => {
            let _ = rt.eprint(USAGE);
        }
        _ => say(rt, failure),
    }
}

fn say<R: Eprint>(rt: &R, failure: Option<&Failure>) {
    if let Some(failure) = failure {
        let _ = eprintln!(rt; "siit: {failure}");
    }
}

/// Prints texts, one behind the other.
fn write_texts<R: Print>(rt: &R, texts: [&str; 2]) -> io::Result<()> {
    for text in texts {
        rt.write_all(text.as_bytes())?;
    }
    Ok(())
}

/// Prints the line of a status, and answers its code.
fn report<R: Runtime + AllocGlobal>(rt: &R, status: Status) -> u8
    ensures { (result ≡ status_code status) ⊎ (result ≡ status_code Status.WriteFault) }
{
    match status_line(rt.alloc(), &status) {
        Ok(line) => finish(rt, status, rt.write_all(&line)),
        Err(NoMemory) => status.code(),
    }
}

/// Answers the exit status, once the text of a status was printed, or not.
fn finish<R: Eprint + AllocGlobal>(rt: &R, status: Status, printed: io::Result<()>) -> u8
    ensures printed { OnOk printed (result ≡ status_code status) }
    ensures lost { OnErr printed (result ≡ status_code Status.WriteFault) }
{
    match printed {
        Ok(()) => status.code(),
        Err(error) => {
            let cause = Cause::Error(error);
            let failure = Failure::new(rt.alloc(), Action::Writing, "standard output", cause);
            say(rt, failure.as_ref());
            Status::WriteFault.code()
        }
    }
}
