//! Files in memory, with calls that fail as they are told to.
ghost use Rattle.siit_word.specs.Causes.{next_count, NeverFalls};
ghost use Rattle.siit_word.specs.Files.{held, raised, Stays, StaysBut};
ghost use Rattle.std.specs.Option.{option_copied};
ghost use Rattle.std.specs.Prelude.{◌≡◌, ◌≢◌, ◌↔◌, ◌⊎◌, ◌-◌, ◌≤◌, ℕ, List, min, take, drop, length, Some, None, IfOk, OnOk, OnErr, IsErr, IsSome, IsTrue, Contains, [], ◌∷◌};

use crate::{Failed, Files, NoMemory};
use std::alloc::Global;
use std::collections::BTreeMap;

#[derive(Drop)]
struct MemFile {
    bytes: Vec<u8>,
    given: u64,
    read_faults: u64,
    write_faults: u64,
}

/// Files in memory, by name. Calls of the trait [`Files`] are numbered from 0, and those named by `fail_at` fail. Every
/// name is told, also one without a file.
#[derive(Drop)]
pub struct MemFiles {
    alloc: Global,
    files: BTreeMap<String, MemFile>,
    fails: Vec<u64>,
    calls: u64,
    // The counts of every name without a file. A file that is made begins with them.
    read_faults: u64,
    write_faults: u64,
    starved: u64,
}

// Copies what is there from a place on and fits, and says how much.
fn copy_from(bytes: &[u8], at: u64, into: &mut [u8]) -> usize
    ensures count { result ≡ min (length into.old) (length bytes.now - at) }
    ensures copied { take result into.new ≡ take result (drop at bytes.now) }
    ensures kept { drop result into.new ≡ drop result into.old }
{
    if at >= bytes.len() as u64 {
        return 0;
    }
    let rest = &bytes[at as usize..];
    let count = rest.len().min(into.len());
    into[..count].copy_from_slice(&rest[..count]);
    count
}

impl MemFile {
    fn read(&mut self, at: u64, into: &mut [u8]) -> usize
        ensures count { result ≡ min (length into.old) (length self.old.bytes.items - at) }
        ensures copied { take result into.new ≡ take result (drop at self.old.bytes.items) }
        ensures kept { drop result into.new ≡ drop result into.old }
        ensures given { self.new.given ≡ raised at result self.old.given }
        ensures same { self.new ≡ record self.old { given = self.new.given } }
    {
        let count = copy_from(&self.bytes, at, into);
        if count > 0 {
            self.given = self.given.max(at + count as u64);
        }
        count
    }
}

#[tactic(auto, using(std::proofs::lemmas::Map::Text::text_keys))]
impl MemFiles {
    ghost use Rattle.siit_word.specs.Memory.{calls_of, contents_of, fails_of, file_at, given_of, read_faults_of, starved_of, write_faults_of, KeepsCalls, KeepsFiles};

    /// No files. The allocator is kept for `put`, `create` and `append`.
    pub fn new(alloc: Global) -> Self
        ensures contents { (q : List ℕ) → contents_of result q ≡ None }
        ensures given { (q : List ℕ) → given_of result q ≡ 0 }
        ensures reads { (q : List ℕ) → read_faults_of result q ≡ 0 }
        ensures writes { (q : List ℕ) → write_faults_of result q ≡ 0 }
        ensures calls { calls_of result ≡ 0 }
        ensures fails { fails_of result ≡ [] }
        ensures starved { starved_of result ≡ 0 }
    {
        MemFiles {
            alloc,
            files: BTreeMap::new(alloc),
            fails: Vec::new(alloc),
            calls: 0,
            read_faults: 0,
            write_faults: 0,
            starved: 0,
        }
    }

    /// Makes a file hold these bytes, of which none counts as read. Where memory is refused, all is as before.
    pub fn put(&mut self, name: &str, bytes: &[u8]) -> Result<(), NoMemory>
        ensures ok { OnOk result (contents_of self.new name.now ≡ Some bytes.now) }
        ensures begun { OnOk result (given_of self.new name.now ≡ 0) }
        ensures others { StaysBut name.now (contents_of self.old) (contents_of self.new) }
        ensures others_given { StaysBut name.now (given_of self.old) (given_of self.new) }
        ensures reads { Stays (read_faults_of self.old) (read_faults_of self.new) }
        ensures writes { Stays (write_faults_of self.old) (write_faults_of self.new) }
        ensures calls { KeepsCalls self.old self.new }
        ensures err { OnErr result (KeepsFiles self.old self.new) }
    {
        match self.files.get_mut(name) {
            Some(file) => {
                let Ok(bytes) = Vec::from_slice(self.alloc, bytes) else {
                    return Err(NoMemory);
                };
                file.bytes = bytes;
                file.given = 0;
                Ok(())
            }
            None => self.add(name, bytes),
        }
    }

    /// The bytes of a file, or `None` where there is no such file.
    pub fn bytes_of(&self, name: &str) -> Option<&[u8]>
        ensures { option_copied result ≡ contents_of self.now name.now }
    {
        match self.files.get(name) {
            Some(file) => Some(file.bytes.as_slice()),
            None => None,
        }
    }

    /// How far a file was read, in bytes from its start. It is 0 for a name without a file.
    pub fn given(&self, name: &str) -> u64
        ensures given { result ≡ given_of self.now name.now }
        ensures absent { contents_of self.now name.now ≡ None → result ≡ 0 }
    {
        match self.files.get(name) {
            Some(file) => file.given,
            None => 0,
        }
    }

    /// How often memory refused the growth that a call of [`Files`] asked for.
    pub fn starved(&self) -> u64
        ensures { result ≡ starved_of self.now }
    {
        self.starved
    }

    /// Names the calls of [`Files`] that are to fail, in place of those named before. The first call has the number 0.
    /// Where memory is refused, all is as before.
    pub fn fail_at(&mut self, calls: &[u64]) -> Result<(), NoMemory>
        ensures ok { OnOk result (fails_of self.new ≡ calls.now) }
        ensures err { OnErr result (fails_of self.new ≡ fails_of self.old) }
        ensures files { KeepsFiles self.old self.new }
        ensures calls { calls_of self.new ≡ calls_of self.old }
        ensures starved { starved_of self.new ≡ starved_of self.old }
    {
        let Ok(fails) = Vec::from_slice(self.alloc, calls) else {
            return Err(NoMemory);
        };
        self.fails = fails;
        Ok(())
    }

    // A file begins with the counts of the names without a file.
    fn add(&mut self, name: &str, bytes: &[u8]) -> Result<(), NoMemory>
        requires { file_at self.old name.now ≡ None }
        ensures ok { OnOk result (contents_of self.new name.now ≡ Some bytes.now) }
        ensures given { Stays (given_of self.old) (given_of self.new) }
        ensures reads { Stays (read_faults_of self.old) (read_faults_of self.new) }
        ensures writes { Stays (write_faults_of self.old) (write_faults_of self.new) }
        ensures others { StaysBut name.now (file_at self.old) (file_at self.new) }
        ensures err { OnErr result (Stays (file_at self.old) (file_at self.new)) }
        ensures same { self.new ≡ record self.old { files = self.new.files } }
    {
        let Ok(key) = String::from_str(self.alloc, name) else {
            return Err(NoMemory);
        };
        let Ok(bytes) = Vec::from_slice(self.alloc, bytes) else {
            return Err(NoMemory);
        };
        let file = MemFile {
            bytes,
            given: 0,
            read_faults: self.read_faults,
            write_faults: self.write_faults,
        };
        match self.files.insert(key, file) {
            Ok(_) => Ok(()),
            Err(_) => Err(NoMemory),
        }
    }

    // Makes a file for a call of the trait, unless that call is one that is to fail.
    fn make(&mut self, name: &str, bytes: &[u8], fails: bool) -> Result<(), Failed>
        requires { file_at self.old name.now ≡ None }
        ensures ok { OnOk result (contents_of self.new name.now ≡ Some bytes.now) }
        ensures given { Stays (given_of self.old) (given_of self.new) }
        ensures others { StaysBut name.now (file_at self.old) (file_at self.new) }
        ensures err { OnErr result (Stays (file_at self.old) (file_at self.new)) }
        ensures fails { IsTrue fails → IsErr result }
        ensures reads { Stays (read_faults_of self.old) (read_faults_of self.new) }
        ensures writes { NeverFalls (write_faults_of self.old) (write_faults_of self.new) }
        ensures writes_ok { OnOk result (Stays (write_faults_of self.old) (write_faults_of self.new)) }
        ensures writes_err { OnErr result (self.new.write_faults ≡ next_count self.old.write_faults) }
        ensures starved_ok { OnOk result (self.new.starved ≡ self.old.starved) }
        ensures starved_err { OnErr result (IsTrue fails ⊎ (self.new.starved ≡ next_count self.old.starved)) }
        ensures starved_refused { IsTrue fails → self.new.starved ≡ self.old.starved }
        ensures same { self.new ≡ record self.old { files = self.new.files; starved = self.new.starved; write_faults = self.new.write_faults } }
    {
        if !fails {
            match self.add(name, bytes) {
                Ok(()) => return Ok(()),
                Err(NoMemory) => self.starved = self.starved.saturating_add(1),
            }
        }
        self.write_faults = self.write_faults.saturating_add(1);
        Err(Failed)
    }

    // Counts a call, and says whether it is one that is to fail.
    fn next_call_fails(&mut self) -> bool
        ensures fails { IsTrue result ↔ Contains self.old.fails.items self.old.calls }
        ensures counted { self.new ≡ record self.old { calls = next_count self.old.calls } }
    {
        let call = self.calls;
        self.calls = call.saturating_add(1);
        self.fails.contains(&call)
    }
}

#[tactic(auto, using(std::proofs::lemmas::Map::Text::text_keys))]
impl Files for MemFiles {
    ghost use Rattle.siit_word.specs.Files.{Added, Copied, NotAdded, NotCopied, Touches, WriteFailed, Written, WrittenPart};
    ghost use Rattle.siit_word.specs.Memory.{calls_of, contents_of, fails_of, meaning_of, read_faults_of, starved_of, write_faults_of, IsToFail, RaisedBy};
    ghost use Rattle.siit_model.specs.Bytes.{AreBytes};

    ghost meaning = { meaning_of };

    fn read(&mut self, name: &str, at: u64, into: &mut [u8]) -> Result<usize, Failed>
        // As the trait says.
        ensures bound { IfOk result (λ n. n ≤ length into.new) }
        ensures ok { IfOk result (λ n. Copied (meaning_of self.old) (meaning_of self.new) name.now at into.new n) }
        ensures err { OnErr result (NotCopied (meaning_of self.old) (meaning_of self.new) name.now) }
        ensures only { Touches (meaning_of self.old) (meaning_of self.new) (name.now ∷ []) [] }
        ensures bytes { AreBytes into.new }

        // It moves all that is there and fits, and fails only where it must.
        ensures all { IfOk result (λ n. n ≡ min (length into.old) (length (held (contents_of self.old name.now)) - at)) }
        ensures kept { IfOk result (λ n. drop n into.new ≡ drop n into.old) }
        ensures kept_err { OnErr result (into.new ≡ into.old) }
        ensures failed { IsErr result ↔ (IsToFail self.old ⊎ (contents_of self.old name.now ≡ None)) }

        // The counts.
        ensures reads_ok { OnOk result (Stays (read_faults_of self.old) (read_faults_of self.new)) }
        ensures reads_err { OnErr result (RaisedBy self.old name.now (read_faults_of self.old) (read_faults_of self.new)) }
        ensures writes_stay { Stays (write_faults_of self.old) (write_faults_of self.new) }
        ensures counted { calls_of self.new ≡ next_count (calls_of self.old) }
        ensures fails { fails_of self.new ≡ fails_of self.old }
        ensures starved { starved_of self.new ≡ starved_of self.old }
    {
        let fails = self.next_call_fails();
        match self.files.get_mut(name) {
            Some(file) => {
                if fails {
                    file.read_faults = file.read_faults.saturating_add(1);
                    return Err(Failed);
                }
                Ok(file.read(at, into))
            }
            None => {
                self.read_faults = self.read_faults.saturating_add(1);
                Err(Failed)
            }
        }
    }

    fn create(&mut self, name: &str) -> Result<(), Failed>
        // As the trait says.
        ensures ok { OnOk result (Written (meaning_of self.old) (meaning_of self.new) name.now []) }
        ensures err { OnErr result (WrittenPart (meaning_of self.old) (meaning_of self.new) name.now []) }
        ensures cause { OnErr result (WriteFailed (meaning_of self.old) (meaning_of self.new) name.now) }

        // It fails where it must, and else only where memory was refused. Then all files are as before.
        ensures refused { IsToFail self.old → IsErr result }
        ensures same { OnErr result (Stays (contents_of self.old) (contents_of self.new)) }
        ensures starved_ok { OnOk result (starved_of self.new ≡ starved_of self.old) }
        ensures starved_err { OnErr result (IsToFail self.old ⊎ (starved_of self.new ≡ next_count (starved_of self.old))) }
        ensures starved_refused { IsToFail self.old → starved_of self.new ≡ starved_of self.old }

        // The counts.
        ensures writes_ok { OnOk result (Stays (write_faults_of self.old) (write_faults_of self.new)) }
        ensures writes_err { OnErr result (RaisedBy self.old name.now (write_faults_of self.old) (write_faults_of self.new)) }
        ensures reads_stay { Stays (read_faults_of self.old) (read_faults_of self.new) }
        ensures counted { calls_of self.new ≡ next_count (calls_of self.old) }
        ensures fails { fails_of self.new ≡ fails_of self.old }
    {
        let fails = self.next_call_fails();
        match self.files.get_mut(name) {
            Some(file) => {
                if fails {
                    file.write_faults = file.write_faults.saturating_add(1);
                    return Err(Failed);
                }
                file.bytes.clear();
                Ok(())
            }
            None => self.make(name, &[], fails),
        }
    }

    fn append(&mut self, name: &str, bytes: &[u8]) -> Result<usize, Failed>
        // As the trait says.
        ensures bound { IfOk result (λ n. n ≤ length bytes.now) }
        ensures ok { IfOk result (λ n. Added (meaning_of self.old) (meaning_of self.new) name.now bytes.now n) }
        ensures err { OnErr result (NotAdded (meaning_of self.old) (meaning_of self.new) name.now) }
        ensures only { Touches (meaning_of self.old) (meaning_of self.new) [] (name.now ∷ []) }

        // It moves all that it is given. It fails where it must, and else only where memory was refused.
        ensures all { IfOk result (λ n. n ≡ length bytes.now) }
        ensures refused { IsToFail self.old → IsErr result }
        ensures starved_ok { OnOk result (starved_of self.new ≡ starved_of self.old) }
        ensures starved_err { OnErr result (IsToFail self.old ⊎ (starved_of self.new ≡ next_count (starved_of self.old))) }
        ensures starved_refused { IsToFail self.old → starved_of self.new ≡ starved_of self.old }

        // The counts.
        ensures writes_ok { OnOk result (Stays (write_faults_of self.old) (write_faults_of self.new)) }
        ensures writes_err { OnErr result (RaisedBy self.old name.now (write_faults_of self.old) (write_faults_of self.new)) }
        ensures reads_stay { Stays (read_faults_of self.old) (read_faults_of self.new) }
        ensures counted { calls_of self.new ≡ next_count (calls_of self.old) }
        ensures fails { fails_of self.new ≡ fails_of self.old }
    {
        let fails = self.next_call_fails();
        match self.files.get_mut(name) {
            Some(file) => {
                if !fails {
                    if file.bytes.extend_from_slice(bytes).is_ok() {
                        return Ok(bytes.len());
                    }
                    self.starved = self.starved.saturating_add(1);
                }
                file.write_faults = file.write_faults.saturating_add(1);
                Err(Failed)
            }
            None => {
                self.make(name, bytes, fails)?;
                Ok(bytes.len())
            }
        }
    }
}

#[cfg(test)]
mod tests {
    use super::*;
    use crate::append_all;
    use std::test::Fail;

    #[test]
    fn files_grow_and_are_read(rt: HostRuntime) -> Result<(), Fail> {
        let mut files = MemFiles::new(rt.alloc());
        files.put("kept", &[1, 2])?;
        append_all(&mut files, "kept", &[3])?;
        append_all(&mut files, "made", &[4, 5])?;
        files.create("empty")?;
        assert_eq!(rt; files.bytes_of("kept").unwrap_or(&[]), &[1, 2, 3][..]);
        assert_eq!(rt; files.bytes_of("made").unwrap_or(&[]), &[4, 5][..]);
        assert_eq!(rt; files.bytes_of("empty").map(|bytes| bytes.len()), Some(0));
        assert!(rt; files.bytes_of("missing").is_none());
        let mut into = [0u8; 4];
        assert_eq!(rt; files.read("kept", 1, &mut into)?, 2);
        assert_eq!(rt; into, [2, 3, 0, 0]);
        assert_eq!(rt; files.given("kept"), 3);
        assert!(rt; files.read("missing", 0, &mut into).is_err());
        Ok(())
    }

    #[test]
    fn a_file_that_is_put_again_is_unread(rt: HostRuntime) -> Result<(), Fail> {
        let mut files = MemFiles::new(rt.alloc());
        files.put("kept", &[1, 2])?;
        let mut into = [0u8; 4];
        files.read("kept", 0, &mut into)?;
        assert_eq!(rt; files.given("kept"), 2);
        files.put("kept", &[3])?;
        assert_eq!(rt; files.bytes_of("kept").unwrap_or(&[]), &[3][..]);
        assert_eq!(rt; files.given("kept"), 0);
        Ok(())
    }

    #[test]
    fn named_calls_fail(rt: HostRuntime) -> Result<(), Fail> {
        let mut files = MemFiles::new(rt.alloc());
        files.fail_at(&[1, 3])?;
        files.create("a")?;
        assert!(rt; files.append("a", &[1]).is_err());
        assert_eq!(rt; files.append("a", &[2])?, 1);
        assert!(rt; files.create("a").is_err());
        assert_eq!(rt; files.bytes_of("a").unwrap_or(&[]), &[2][..]);
        assert_eq!(rt; files.starved(), 0);
        Ok(())
    }
}
