//! Files with a generated capture in place of one of them.
ghost use Rattle.std.specs.Prelude.{◌≡◌, ◌≤◌, [], ◌∷◌, length, IfOk, OnErr, OnOk};

use crate::capture::GeneratedCapture;
use siit_word::{Failed, Files};

/// Files with a generated capture in place of the one of this name: it is read in place of what the file holds, and
/// writing it fails. All other calls are those of the files.
#[derive(Drop)]
pub(crate) struct GeneratedFiles<'a, F> {
    pub files: &'a mut F,
    pub name: &'a str,
    pub capture: &'a mut GeneratedCapture,
}

impl<F: Files> Files for GeneratedFiles<'_, F> {
    ghost use Rattle.siit_making.specs.Captures.{generated_capture};
    ghost use Rattle.siit_making.specs.Through.{with_marks};
    ghost use Rattle.siit_model.specs.Bytes.{AreBytes};
    ghost use Rattle.siit_word.specs.Files.{Added, Copied, NotAdded, NotCopied, Touches, WriteFailed, Written, WrittenPart};

    ghost meaning = { λ s. with_marks s.files.ghost_name (F.meaning s.files.now) s.name.now (generated_capture s.capture.now.count s.capture.now.seed) };

    /// Bytes of the capture are made as they are asked for; this never fails. Other files are read as they are.
    fn read(&mut self, name: &str, at: u64, into: &mut [u8]) -> Result<usize, Failed> {
        if name == self.name {
            return Ok(self.capture.read(at, into));
        }
        self.files.read(name, at, into)
    }

    fn create(&mut self, name: &str) -> Result<(), Failed> {
        if name == self.name {
            return Err(Failed);
        }
        self.files.create(name)
    }

    fn append(&mut self, name: &str, bytes: &[u8]) -> Result<usize, Failed> {
        if name == self.name {
            return Err(Failed);
        }
        self.files.append(name, bytes)
    }
}
