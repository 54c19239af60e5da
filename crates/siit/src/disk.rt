//! The files of the system, of whose bytes nothing is told. They stay open from call to call.
ghost use Rattle.siit_word.specs.Causes.{next_count, Rose};
ghost use Rattle.std.specs.Prelude.{◌≡◌, ◌≤◌, [], All, IfOk, None, OnErr, OnOk, length, min};

use crate::appender::{Appender, flush_all};
use crate::failure::{Action, Cause, Failure};
use crate::file_id::{file_id, other_name};
use crate::reader::Reader;
use siit_word::{Failed, Files};
use std::alloc::Global;
use std::fs::{OpenFile, OpenOptions};
use std::{fs, io, rt};

/// The files of the system, by their paths. A fault of reading raises one count and a fault of writing another, and
/// both stand for every name.
#[derive(Drop)]
pub struct DiskFiles<'a, R: rt::Files> {
    rt: R,
    alloc: Global,
    // The names of a command's files, none of which may lose its bytes under another one.
    names: &'a [String],
    readers: Vec<Reader<R::File>>,
    appenders: Vec<Appender<R::File>>,
    read_faults: u64,
    write_faults: u64,
    failure: Option<Failure>,
}

impl<'a, R: rt::Files> DiskFiles<'a, R> {
    /// No file is open yet. Of these names, none is made anew that leads to the file of another one, or to the one that
    /// standard output goes to.
    pub fn new(rt: R, alloc: Global, names: &'a [String]) -> Self
        ensures readers { result.readers.items ≡ [] }
        ensures appenders { result.appenders.items ≡ [] }
        ensures faults { (result.read_faults ≡ 0) × (result.write_faults ≡ 0) }
        ensures failure { result.failure ≡ None }
    {
        DiskFiles {
            rt,
            alloc,
            names,
            readers: Vec::new(alloc),
            appenders: Vec::new(alloc),
            read_faults: 0,
            write_faults: 0,
            failure: None,
        }
    }

    /// The first call that failed. `None` also where memory for its name was refused.
    pub fn failure(&self) -> Option<&Failure> {
        self.failure.as_ref()
    }

    /// Writes the bytes that were gathered, and fails where bytes of any file were lost, now or before. A program calls
    /// it before it says that it succeeded.
    pub fn flush(&mut self) -> Result<(), Failed>
        ensures written { All (λ a. a.gathered.items ≡ []) self.new.appenders.items }
        ensures whole { OnOk result (All (λ a. a.lost ≡ None) self.new.appenders.items) }
        ensures cause { OnErr result (Rose self.old.write_faults self.new.write_faults) }
        ensures reads { self.new.read_faults ≡ self.old.read_faults }
        ensures writes { self.old.write_faults ≤ self.new.write_faults }
    {
        if flush_all(&mut self.appenders) {
            return Ok(());
        }
        self.write_faults = self.write_faults.saturating_add(1);
        let alloc = self.alloc;
        let failure = self
            .appenders
            .iter()
            .find_map(|appender| appender.loss(alloc));
        self.note(failure);
        Err(Failed)
    }

    fn read_at(&mut self, name: &str, at: u64, into: &mut [u8]) -> io::Result<usize>
        ensures bound { IfOk result (λ n. n ≤ length into.new) }
        ensures reads { self.new.read_faults ≡ self.old.read_faults }
        ensures writes { self.new.write_faults ≡ self.old.write_faults }
    {
        self.flush_one(name)?;
        let found = self
            .readers
            .iter_mut()
            .find(|reader| reader.name.as_str() == name);
        if let Some(reader) = found {
            return reader.read(at, into);
        }
        let mut reader = Reader {
            name: String::from_str(self.alloc, name)?,
            file: fs::open(&self.rt, name)?,
            place: Some(0),
        };
        let count = reader.read(at, into)?;
        self.readers.push(reader)?;
        Ok(count)
    }

    /// Makes a file hold no bytes, where no other of the names leads to it.
    fn make_empty(&mut self, name: &str) -> Result<(), Cause>
        ensures reads { self.new.read_faults ≡ self.old.read_faults }
        ensures writes { self.new.write_faults ≡ self.old.write_faults }
    {
        let file = self.open_to_append(name)?;
        let appender = Appender::new(self.alloc, name, file)?;
        if let Some(id) = file_id(&appender.file.metadata()?) {
            if let Some(other) = other_name(&self.rt, id, name, self.names) {
                return Err(Cause::IsAlso(String::from_str(self.alloc, other)?));
            }
            appender.file.set_len(0)?;
        }
        // What was appended before is gone, and bytes that were lost are not missing any more.
        self.appenders.retain(|old| old.name.as_str() != name);
        self.appenders.push(appender)?;
        Ok(())
    }

    fn append_to(&mut self, name: &str, bytes: &[u8]) -> io::Result<usize>
        ensures bound { IfOk result (λ n. n ≤ length bytes.now) }
        ensures some { IfOk result (λ n. min 1 (length bytes.now) ≤ n) }
        ensures reads { self.new.read_faults ≡ self.old.read_faults }
        ensures writes { self.new.write_faults ≡ self.old.write_faults }
    {
        let found = self
            .appenders
            .iter_mut()
            .find(|appender| appender.name.as_str() == name);
        if let Some(appender) = found {
            return appender.append(bytes);
        }
        let file = self.open_to_append(name)?;
        let mut appender = Appender::new(self.alloc, name, file)?;
        let count = appender.append(bytes)?;
        self.appenders.push(appender)?;
        Ok(count)
    }

    /// Opens a file for what is appended to it, as it is, or makes it where it is missing.
    fn open_to_append(&self, name: &str) -> io::Result<R::File> {
        OpenOptions::new()
            .append(true)
            .create(true)
            .open(&self.rt, name)
    }

    /// Writes what was gathered for this file, so that it is read.
    fn flush_one(&mut self, name: &str) -> io::Result<()>
        ensures reads { self.new.read_faults ≡ self.old.read_faults }
        ensures writes { self.new.write_faults ≡ self.old.write_faults }
    {
        let found = self
            .appenders
            .iter_mut()
            .find(|appender| appender.name.as_str() == name);
        match found {
            Some(appender) => appender.flush(),
            None => Ok(()),
        }
    }

    /// Counts a fault of reading.
    fn read_failed(&mut self, name: &str, cause: Cause) -> Failed
        ensures raised { self.new.read_faults ≡ next_count self.old.read_faults }
        ensures more { self.old.read_faults ≤ self.new.read_faults }
        ensures writes { self.new.write_faults ≡ self.old.write_faults }
    {
        self.read_faults = self.read_faults.saturating_add(1);
        self.note(Failure::new(self.alloc, Action::Reading, name, cause));
        Failed
    }

    /// Counts a fault of writing.
    fn write_failed(&mut self, action: Action, name: &str, cause: Cause) -> Failed
        ensures raised { self.new.write_faults ≡ next_count self.old.write_faults }
        ensures more { self.old.write_faults ≤ self.new.write_faults }
        ensures reads { self.new.read_faults ≡ self.old.read_faults }
    {
        self.write_faults = self.write_faults.saturating_add(1);
        self.note(Failure::new(self.alloc, action, name, cause));
        Failed
    }

    fn note(&mut self, failure: Option<Failure>)
        ensures { self.new ≡ record self.old { failure = self.new.failure } }
    {
        if self.failure.is_none() {
            self.failure = failure;
        }
    }
}

impl<'a, R: rt::Files> Files for DiskFiles<'a, R> {
    ghost use Rattle.siit.specs.Disk.{untold};

    ghost meaning = { λ m. untold m.read_faults m.write_faults };

    fn read(&mut self, name: &str, at: u64, into: &mut [u8]) -> Result<usize, Failed> {
        match self.read_at(name, at, into) {
            Ok(count) => Ok(count),
            Err(error) => Err(self.read_failed(name, Cause::Error(error))),
        }
    }

    fn create(&mut self, name: &str) -> Result<(), Failed> {
        match self.make_empty(name) {
            Ok(()) => Ok(()),
            Err(cause) => Err(self.write_failed(Action::Making, name, cause)),
        }
    }

    fn append(&mut self, name: &str, bytes: &[u8]) -> Result<usize, Failed> {
        match self.append_to(name, bytes) {
            Ok(count) => Ok(count),
            Err(error) => Err(self.write_failed(Action::Writing, name, Cause::Error(error))),
        }
    }
}

#[cfg(test)]
mod tests;
