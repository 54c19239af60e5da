//! A generated capture, written to a file.
ghost use Rattle.std.specs.Prelude.{◌≡◌, OnErr, OnOk};
ghost use Rattle.siit_making.specs.Captures.{generated_capture};
ghost use Rattle.siit_word.specs.Files.{Appended, AppendedPart, WriteFailed, Written, WrittenPart};

use crate::capture::GeneratedCapture;
use siit_word::{Failed, Files, append_all};

/// Makes a file anew and writes a generated capture to it: its head, and then packet by packet, each record by one
/// append. It takes no memory. Where this fails, the file is as before or holds a part of the capture, from its start.
pub fn write_generated<F: Files>(
    capture: &mut GeneratedCapture,
    name: &str,
    files: &mut F,
) -> Result<(), Failed>
    ensures ok { OnOk result (Written (F.meaning files.old) (F.meaning files.new) name.now (generated_capture capture.old.count capture.old.seed)) }
    ensures err { OnErr result (WrittenPart (F.meaning files.old) (F.meaning files.new) name.now (generated_capture capture.old.count capture.old.seed)) }
    ensures cause { OnErr result (WriteFailed (F.meaning files.old) (F.meaning files.new) name.now) }
    ensures count { capture.new.count ≡ capture.old.count }
    ensures seed { capture.new.seed ≡ capture.old.seed }
{
    files.create(name)?;
    append_parts(capture, name, files)
}

/// Appends a generated capture to a file, part by part.
fn append_parts<F: Files>(
    capture: &mut GeneratedCapture,
    name: &str,
    files: &mut F,
) -> Result<(), Failed>
    ensures ok { OnOk result (Appended (F.meaning files.old) (F.meaning files.new) name.now (generated_capture capture.old.count capture.old.seed)) }
    ensures err { OnErr result (AppendedPart (F.meaning files.old) (F.meaning files.new) name.now (generated_capture capture.old.count capture.old.seed)) }
    ensures cause { OnErr result (WriteFailed (F.meaning files.old) (F.meaning files.new) name.now) }
    ensures count { capture.new.count ≡ capture.old.count }
    ensures seed { capture.new.seed ≡ capture.old.seed }
{
    capture.start_over();
    loop {
        append_all(files, name, capture.bytes())?;
        if !capture.step() {
            return Ok(());
        }
    }
}
