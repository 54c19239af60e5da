//! Files by their names, as a trait, and a whole append over it.
ghost use Rattle.siit_model.specs.Bytes.{AreBytes};
ghost use Rattle.siit_word.specs.Files.{Added, Appended, AppendedPart, Copied, FilesMeaning, NotAdded, NotCopied, Touches, WriteFailed, Written, WrittenPart};
ghost use Rattle.std.specs.Prelude.{◌≤◌, [], ◌∷◌, length, IfOk, OnOk, OnErr};

/// A call on a file that was refused.
#[derive(Clone, Copy, Debug, PartialEq, Eq)]
pub struct Failed;

/// Memory was refused.
#[derive(Clone, Copy, Debug, PartialEq, Eq)]
pub struct NoMemory;

/// Files by their names: reading at a place, making empty, and appending.
///
/// Each call touches the file of its own name alone. A call that fails raises a count of faults of its name, one for
/// reading and one for writing. Counts never fall, and stand still at the last value of a `u64`.
pub trait Files {
    /// What is known of the files, each by its name: whether its bytes are told, which no call changes, what it holds,
    /// how far it was read in bytes from its start, and how often reading and writing it has failed.
    ghost meaning: { Self → FilesMeaning };

    /// Copies bytes of a file, from the place `at` on, to the front of `into`, and answers how many. For an `into` that
    /// isn't empty, 0 means that the file ends at or before `at`. A missing file is a fault. Where this fails, nothing
    /// counts as read.
    fn read(&mut self, name: &str, at: u64, into: &mut [u8]) -> Result<usize, Failed>
        ensures bound { IfOk result (λ n. n ≤ length into.new) }
        ensures ok { IfOk result (λ n. Copied (meaning self.old) (meaning self.new) name.now at into.new n) }
        ensures err { OnErr result (NotCopied (meaning self.old) (meaning self.new) name.now) }
        ensures only { Touches (meaning self.old) (meaning self.new) (name.now ∷ []) [] }
        ensures bytes { AreBytes into.new };

    /// Makes a file hold no bytes, or makes it where it is missing. Where this fails, the file is as before or holds no
    /// bytes.
    fn create(&mut self, name: &str) -> Result<(), Failed>
        ensures ok { OnOk result (Written (meaning self.old) (meaning self.new) name.now []) }
        ensures err { OnErr result (WrittenPart (meaning self.old) (meaning self.new) name.now []) }
        ensures cause { OnErr result (WriteFailed (meaning self.old) (meaning self.new) name.now) };

    /// Adds a prefix of `bytes` to a file and answers its length, at least 1 where `bytes` isn't empty. A missing file
    /// is made. Where this fails, the file is as before.
    fn append(&mut self, name: &str, bytes: &[u8]) -> Result<usize, Failed>
        ensures bound { IfOk result (λ n. n ≤ length bytes.now) }
        ensures ok { IfOk result (λ n. Added (meaning self.old) (meaning self.new) name.now bytes.now n) }
        ensures err { OnErr result (NotAdded (meaning self.old) (meaning self.new) name.now) }
        ensures only { Touches (meaning self.old) (meaning self.new) [] (name.now ∷ []) };
}

/// Appends all of `bytes` to a file, by as many calls as it takes. A missing file is made, unless there are no bytes.
/// Where this fails, the file grew by a prefix of them. No other file is written, and none is read.
pub fn append_all<F: Files>(files: &mut F, name: &str, bytes: &[u8]) -> Result<(), Failed>
    ensures ok { OnOk result (Appended (F.meaning files.old) (F.meaning files.new) name.now bytes.now) }
    ensures err { OnErr result (AppendedPart (F.meaning files.old) (F.meaning files.new) name.now bytes.now) }
    ensures cause { OnErr result (WriteFailed (F.meaning files.old) (F.meaning files.new) name.now) }
{
    let mut rest = bytes;
    while !rest.is_empty() {
        let count = files.append(name, rest)?;
        rest = &rest[count..];
    }
    Ok(())
}
