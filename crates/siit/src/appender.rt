//! A file that is appended to. It stays open, and bytes that come in small pieces are gathered.
ghost use Rattle.std.specs.Prelude.{◌≡◌, ◌⊎◌, ◌≤◌, [], All, IfOk, IsErr, IsSome, None, OnErr, OnOk, length, min, take, true};
ghost use Rattle.std.specs.Io.KnownBytes.{Appends, Keeps};
ghost use Rattle.siit.specs.Appending.{appended, AppendsPart};

use crate::failure::{Action, Cause, Failure};
use std::alloc::{AllocError, Global};
use std::io;
use std::io::{ErrorKind, Write};

/// How many bytes are gathered at most before they are written.
const ROOM: usize = 1 << 18;

/// How many bytes, given at once, are written without being gathered.
const LARGE: usize = 1 << 15;

#[derive(Drop)]
pub(crate) struct Appender<F> {
    pub name: String,
    pub file: F,
    // What is to be written before anything else.
    pub gathered: Vec<u8>,
    // Why gathered bytes were lost. Nothing may follow then what the file holds.
    pub lost: Option<io::Error>,
}

impl<F> Appender<F> {
    /// An open file of this name, behind whose end is appended.
    pub(crate) fn new(alloc: Global, name: &str, file: F) -> Result<Appender<F>, AllocError>
    where
        F: Drop,
        ensures gathered { IfOk result (λ appender. appender.gathered.items ≡ []) }
        ensures lost { IfOk result (λ appender. appender.lost ≡ None) }
    {
        Ok(Appender {
            name: String::from_str(alloc, name)?,
            file,
            gathered: Vec::with_capacity(alloc, ROOM)?,
            lost: None,
        })
    }
}

impl<F: Write> Appender<F> {
    /// Writes what was gathered. Where this fails, the file holds a part of it, and takes nothing any more.
    pub(crate) fn flush(&mut self) -> io::Result<()>
        ensures none { self.new.gathered.items ≡ [] }
        ensures ok { OnOk result (Appends (F.contents self.old.file) (F.contents self.new.file) self.old.gathered.items) }
        ensures err { OnErr result (AppendsPart (F.contents self.old.file) (F.contents self.new.file) self.old.gathered.items) }
        ensures lost { OnErr result (IsSome self.new.lost) }
        ensures whole { OnOk result (self.new.lost ≡ None) }
        ensures closed { IsSome self.old.lost → IsErr result }
        ensures frozen { IsSome self.old.lost → Keeps (F.contents self.old.file) (F.contents self.new.file) }
    {
        if let Some(error) = self.lost {
            self.gathered.clear();
            return Err(error);
        }
        let written = write_whole(&mut self.file, &self.gathered);
        self.gathered.clear();
        if let Err(error) = written {
            self.lost = Some(error);
        }
        written
    }

    /// Why gathered bytes were lost, if they were.
    pub(crate) fn loss(&self, alloc: Global) -> Option<Failure> {
        let error = self.lost?;
        Failure::new(
            alloc,
            Action::Writing,
            self.name.as_str(),
            Cause::Error(error),
        )
    }

    /// Appends a part of the bytes, at least one where there are some, and answers how many. They are written now, or
    /// gathered.
    pub(crate) fn append(&mut self, bytes: &[u8]) -> io::Result<usize>
        ensures bound { IfOk result (λ n. n ≤ length bytes.now) }
        ensures some { IfOk result (λ n. min 1 (length bytes.now) ≤ n) }
        ensures ok { IfOk result (λ n. Appends (appended (F.contents self.old.file) self.old.gathered.items)
            (appended (F.contents self.new.file) self.new.gathered.items) (take n bytes.now)) }
        ensures err { OnErr result (AppendsPart (F.contents self.old.file) (F.contents self.new.file) self.old.gathered.items) }
        ensures same { OnErr result (IsSome self.new.lost ⊎ Keeps (appended (F.contents self.old.file) self.old.gathered.items)
            (appended (F.contents self.new.file) self.new.gathered.items)) }
        ensures closed { IsSome self.old.lost → IsErr result }
        ensures frozen { IsSome self.old.lost → Keeps (F.contents self.old.file) (F.contents self.new.file) }
    {
        let is_full = self.gathered.len() + bytes.len() > ROOM;
        if self.lost.is_some() || is_full || bytes.len() >= LARGE {
            self.flush()?;
        }
        if bytes.len() >= LARGE {
            return write_some(&mut self.file, bytes);
        }
        self.gathered.extend_from_slice(bytes)?;
        Ok(bytes.len())
    }
}

/// Writes what was gathered for each file, and answers whether it was all written.
#[tactic(auto, using(std::proofs::lemmas::List::take_all))]
pub(crate) fn flush_all<F: Write>(appenders: &mut [Appender<F>]) -> bool
    ensures none { All (λ appender. appender.gathered.items ≡ []) appenders.new }
    ensures whole { result ≡ true → All (λ appender. appender.lost ≡ None) appenders.new }
{
    let mut is_written = true;
    for appender in appenders {
        if appender.flush().is_err() {
            is_written = false;
        }
    }
    is_written
}

/// Writes a part of the bytes, at least one where there are some, and answers how many.
fn write_some<F: Write>(file: &mut F, bytes: &[u8]) -> io::Result<usize>
    ensures bound { IfOk result (λ n. n ≤ length bytes.now) }
    ensures some { IfOk result (λ n. min 1 (length bytes.now) ≤ n) }
    ensures ok { IfOk result (λ n. Appends (F.contents file.old) (F.contents file.new) (take n bytes.now)) }
    ensures err { OnErr result (Keeps (F.contents file.old) (F.contents file.new)) }
{
    if bytes.is_empty() {
        return Ok(0);
    }
    let count = file.write(bytes)?;
    if count == 0 {
        return Err(io::Error::from(ErrorKind::WriteZero));
    }
    Ok(count)
}

/// Writes all of the bytes. Where this fails, the file holds a part of them, from their start.
fn write_whole<F: Write>(file: &mut F, bytes: &[u8]) -> io::Result<()>
    ensures ok { OnOk result (Appends (F.contents file.old) (F.contents file.new) bytes.now) }
    ensures err { OnErr result (AppendsPart (F.contents file.old) (F.contents file.new) bytes.now) }
{
    let mut rest = bytes;
    while !rest.is_empty() {
        let count = write_some(file, rest)?;
        rest = &rest[count..];
    }
    Ok(())
}
