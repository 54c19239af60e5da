//! The command `dns64`: the answer to a query for AAAA records from the responses to it (RFC 6147).
ghost use Rattle.std.specs.Prelude.{◌≡◌, ◌≤◌, ℕ, [], ◌∷◌, ◌++◌, length, map, option_map, IfErr, IfOk, OnErr, OnOk};
ghost use Rattle.std.specs.Option.{ForSome};
ghost use Rattle.std.specs.String.{string_bytes};
ghost use Rattle.siit_word.specs.Files.{Touches, WriteFailed, Written, WrittenPart};
ghost use Rattle.siit_dns64.specs.Dns64.{dns64, Gives};
ghost use Rattle.siit_top.specs.Dns64Run.{answer_line, files_of, message_word, AreShort, IsUnreadAt, WereRead};
ghost use Rattle.siit_top.specs.Dns64Seen.{bytes_seen};
ghost use Rattle.siit_top.specs.Ends.{dns64_status};
ghost use Rattle.siit_top.specs.Promises.{Promise};
ghost use Rattle.siit_top.specs.Read.{command_read};
ghost use Rattle.siit_top.specs.Runs.{run_between, IsStopped};
ghost use Rattle.siit_top.specs.Words.{dns64_of, given_name, messages_of, synthesis};

use crate::commands::Command;
use crate::commands::ends::{Stopped, unread_status};
use crate::status::Status;
use siit_command::{Unread, is_output_name, read_whole};
use siit_config::embedding_of;
use siit_dns::DnsFault;
use siit_dns64::{Answered, Dns64Fault, synthesize};
use siit_rfc6052::Embed;
use siit_word::{Failed, Files, append_all};
use std::alloc::{AllocError, Global};

/// The words that name QUERY, AAAA and A, counted from 0.
const QUERY_WORD: u8 = 2;

const AAAA_WORD: u8 = 3;

const A_WORD: u8 = 4;

/// The most bytes that a DNS message may have.
const MOST_MESSAGE: usize = 65_535;

/// How the command ended.
#[derive(Clone, Copy)]
pub(crate) enum Dns64End {
    /// The answer was written, and its line was printed.
    Answered,
    /// The file of this word wasn't read to its end.
    Unread { word: u8, unread: Unread },
    /// A message has this fault, which is never `NoMemory`.
    BadMessage(Dns64Fault),
    /// Memory was refused before OUT was made.
    NoMemory,
    /// OUT wasn't written to its end.
    Stopped(Stopped),
}

/// The messages that were read.
#[derive(Drop)]
pub(crate) struct MessageBytes {
    query: Vec<u8>,
    aaaa: Vec<u8>,
    a: Option<Vec<u8>>,
}

impl From<Dns64End> for Status {
    ghost use Rattle.siit_top.specs.Ends.{dns64_status};

    ghost from_gives = { λ end status. status ≡ dns64_status end };

    fn from(end: Dns64End) -> Status {
        match end {
            Dns64End::Answered => Status::Ok,
            Dns64End::Unread { word, unread } => unread_status(word, unread),
            Dns64End::BadMessage(fault) => Status::BadMessage {
                word: message_word(fault.which),
                fault: fault.fault,
            },
            Dns64End::NoMemory => Status::NoMemory,
            Dns64End::Stopped(stopped) => Status::from(stopped),
        }
    }
}

// The word of the query, the AAAA response or the A response.
fn message_word(which: u8) -> u8
    ensures { result ≡ message_word which }
{
    match which {
        0 => QUERY_WORD,
        1 => AAAA_WORD,
        _ => A_WORD,
    }
}

/// The command of the words `PREFIX QUERY AAAA A OUT`. OUT isn't `-`, and is no other of these files.
pub(crate) fn read_dns64(words: &[String]) -> Option<Command<'_>>
    ensures { option_map command_read result ≡ dns64_of (map string_bytes words.now) }
{
    let [prefix, query, aaaa, a, output] = words else {
        return None;
    };
    if !is_output_name(
        output.as_str(),
        &[query.as_str(), aaaa.as_str(), a.as_str()],
    ) {
        return None;
    }
    let prefix = embedding_of(prefix.as_str())?;
    Some(Command::Dns64 {
        prefix,
        query: query.as_str(),
        aaaa: aaaa.as_str(),
        a: a.as_str(),
        output: output.as_str(),
    })
}

/// The name of a file, which isn't given where it is `-`.
pub(crate) fn given_name(word: &str) -> Option<&str>
    ensures { option_map (λ name. name.now) result ≡ given_name word.now }
{
    if word == "-" { None } else { Some(word) }
}

/// Answers the query in one file from the responses in the others, writes the answer to `output`, and appends its line
/// to `out`.
#[tactic(auto, using(crate::proofs::Dns64Reads::were_short, crate::proofs::Dns64Runs::dns64_unread, crate::proofs::Dns64Runs::dns64_refused, crate::proofs::Dns64Runs::dns64_no_room, crate::proofs::Dns64Runs::dns64_answered, crate::proofs::Dns64Runs::dns64_stopped))]
pub(crate) fn dns64<F: Files>(
    alloc: Global,
    files: &mut F,
    prefix: Embed,
    query: &str,
    aaaa: &str,
    a: Option<&str>,
    output: &str,
    out: &mut Vec<u8>,
) -> Dns64End
    ensures { (coming : ℕ → ℕ → ℕ) → Promise
        (synthesis prefix (messages_of query.now aaaa.now (option_map (λ name. name.now) a.entry)) output.now)
        (run_between (F.meaning files.old) (F.meaning files.new) coming coming
        out.old.items out.new.items (dns64_status result)) }
{
    let messages = match read_messages(alloc, files, query, aaaa, a) {
        Ok(messages) => messages,
        Err((word, unread)) => return Dns64End::Unread { word, unread },
    };
    let answered = match answer(alloc, &messages, prefix) {
        Ok(answered) => answered,
        Err(
            Dns64Fault {
                fault: DnsFault::NoMemory,
                ..
            },
        ) => return Dns64End::NoMemory,
        Err(fault) => return Dns64End::BadMessage(fault),
    };
    match write_answer(alloc, files, output, &answered, out) {
        Ok(()) => Dns64End::Answered,
        Err(stopped) => Dns64End::Stopped(stopped),
    }
}

// Reads the messages whole, in this order. A fault comes with the word of its file.
#[tactic(auto, using(crate::proofs::Dns64Reads::query_unread, crate::proofs::Dns64Reads::aaaa_unread, crate::proofs::Dns64Reads::a_unread, crate::proofs::Dns64Reads::query_only, crate::proofs::Dns64Reads::two_only, crate::proofs::Dns64Reads::three_only, crate::proofs::Dns64Reads::read_since))]
fn read_messages<F: Files>(
    alloc: Global,
    files: &mut F,
    query: &str,
    aaaa: &str,
    a: Option<&str>,
) -> Result<MessageBytes, (u8, Unread)>
    ensures read { let names = messages_of query.now aaaa.now (option_map (λ name. name.now) a.entry) in
        IfOk result (λ bytes. WereRead (F.meaning files.old) names (bytes_seen bytes)) }
    ensures unread { let names = messages_of query.now aaaa.now (option_map (λ name. name.now) a.entry) in
        IfErr result (λ e. IsUnreadAt (F.meaning files.old) (F.meaning files.new) names e.0 e.1) }
    ensures only { let names = messages_of query.now aaaa.now (option_map (λ name. name.now) a.entry) in
        Touches (F.meaning files.old) (F.meaning files.new) (files_of names) [] }
{
    let query = match read_whole(alloc, files, query, MOST_MESSAGE) {
        Ok(bytes) => bytes,
        Err(unread) => return Err((QUERY_WORD, unread)),
    };
    let aaaa = match read_whole(alloc, files, aaaa, MOST_MESSAGE) {
        Ok(bytes) => bytes,
        Err(unread) => return Err((AAAA_WORD, unread)),
    };
    match a {
        Some(name) => match read_whole(alloc, files, name, MOST_MESSAGE) {
            Ok(a) => Ok(MessageBytes {
                query,
                aaaa,
                a: Some(a),
            }),
            Err(unread) => Err((A_WORD, unread)),
        },
        None => Ok(MessageBytes {
            query,
            aaaa,
            a: None,
        }),
    }
}

// The answer by these messages.
fn answer(alloc: Global, messages: &MessageBytes, prefix: Embed) -> Result<Answered, Dns64Fault>
    requires { AreShort (bytes_seen messages.now) }
    ensures { let m = bytes_seen messages.now in Gives result (dns64 m.query m.aaaa m.a (prefix ∷ [])) }
{
    match &messages.a {
        Some(a) => synthesize(
            alloc,
            &messages.query,
            &messages.aaaa,
            Some(a.as_slice()),
            &[prefix],
        ),
        None => synthesize(alloc, &messages.query, &messages.aaaa, None, &[prefix]),
    }
}

// Writes an answer, and appends its line.
fn write_answer<F: Files>(
    alloc: Global,
    files: &mut F,
    output: &str,
    answered: &Answered,
    out: &mut Vec<u8>,
) -> Result<(), Stopped>
    ensures written { OnOk result (Written (F.meaning files.old) (F.meaning files.new) output.now answered.now.bytes) }
    ensures part { OnErr result (WrittenPart (F.meaning files.old) (F.meaning files.new) output.now answered.now.bytes) }
    ensures cause { IfErr result
        (λ stopped. IsStopped (F.meaning files.old) (F.meaning files.new) output.now stopped) }
    ensures line { OnOk result (out.new.items ≡ out.old.items ++ answer_line answered.now.made) }
    ensures out { OnErr result (out.new.items ≡ out.old.items) }
{
    let Ok(()) = write_whole(files, output, answered.bytes()) else {
        return Err(Stopped::Failed);
    };
    let Ok(()) = append_line(alloc, answered.made(), out) else {
        return Err(Stopped::NoMemory);
    };
    Ok(())
}

// Makes the output hold these bytes.
fn write_whole<F: Files>(files: &mut F, output: &str, bytes: &[u8]) -> Result<(), Failed>
    ensures ok { OnOk result (Written (F.meaning files.old) (F.meaning files.new) output.now bytes.now) }
    ensures err { OnErr result (WrittenPart (F.meaning files.old) (F.meaning files.new) output.now bytes.now) }
    ensures cause { OnErr result (WriteFailed (F.meaning files.old) (F.meaning files.new) output.now) }
{
    files.create(output)?;
    append_all(files, output, bytes)
}

// Appends the line of an answer of which so many records were made.
fn append_line(alloc: Global, made: u32, out: &mut Vec<u8>) -> Result<(), AllocError>
    ensures ok { OnOk result (out.new.items ≡ out.old.items ++ answer_line made) }
    ensures err { OnErr result (out.new.items ≡ out.old.items) }
{
    let line = line_of(alloc, made)?;
    out.extend_from_slice(line.as_bytes())
}

#[tactic(auto, using(std::proofs::Common::append_assoc))]
fn line_of(alloc: Global, made: u32) -> Result<String, AllocError>
    ensures { IfOk result (λ line. string_bytes line ≡ answer_line made) }
{
    if made == 0 {
        return String::from_str(alloc, "passed\n");
    }
    format!(in alloc; "made {made}\n")
}
