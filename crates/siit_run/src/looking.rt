//! The next record of a capture in a file, which is read in pieces.
ghost use Rattle.std.specs.Prelude.{◌≡◌, ◌≢◌, ◌+◌, ◌<◌, ◌≤◌, [], ◌∷◌, ℕ, length, IfOk, IfSome, IsSome, IsTrue, None, Ok, Err};
ghost use Rattle.siit_capture.specs.Captures.{Records, one_more};
ghost use Rattle.siit_capture.specs.Readings.{fed, records_fed, HasNoRecord};
ghost use Rattle.siit_capture.specs.Records.{Record};
ghost use Rattle.siit_capture.specs.declared.form.CaptureFault.{CaptureFault};
ghost use Rattle.siit_word.specs.Files.{held, ReadFailed, Touches};
ghost use Rattle.siit_run.specs.Ahead.{IsReadTo};
ghost use Rattle.siit_run.specs.Looks.{records_left, EndsSo, Finds, GivesOne};

use siit_capture::{CaptureFault, CaptureReader, Head};
use siit_word::Files;

/// The most bytes that a capture may have.
pub const MOST_CAPTURE: u64 = 4_294_967_296;

/// Why no record could be looked at, but for the end of the capture.
#[derive(Clone, Copy, Debug, PartialEq, Eq)]
pub enum Stop {
    /// Reading failed.
    Failed,
    /// The file has more bytes than a capture may have.
    TooLong,
    /// A fault of the capture where the next record would begin.
    Bad(CaptureFault),
}

/// Reads on in a capture until its next record is given, or it ends: then the answer is `None`. A piece is asked for
/// only where the next record isn't whole in what was read, so that the file is read at most one piece past it.
pub fn look<F: Files>(
    reader: &mut CaptureReader,
    files: &mut F,
    name: &str,
    piece: &mut [u8],
) -> Result<Option<Head>, Stop>
    requires fed { IsTrue ((F.meaning files.old).told name.now) → fed reader.old ≤ length (held ((F.meaning files.old).contents name.now)) }
    requires few { fed reader.old ≤ 4294967296 }
    requires room { 0 < length piece.old }
    requires size { length piece.old ≤ 65536 }
    ensures found { IsTrue ((F.meaning files.old).told name.now)
        → Finds result (held ((F.meaning files.old).contents name.now)) reader.old reader.new }
    ensures gives { IfOk result (λ next. IfSome next (λ head. GivesOne head reader.old reader.new)) }
    ensures all { result ≡ Ok None → IsTrue ((F.meaning files.old).told name.now)
        → length (held ((F.meaning files.old).contents name.now)) ≤ fed reader.new }
    ensures too_long { result ≡ Err Stop.TooLong → IsTrue ((F.meaning files.old).told name.now)
        → 4294967296 < length (held ((F.meaning files.old).contents name.now)) }
    ensures there { (fault : CaptureFault) → result ≡ Err (Stop.Bad fault) → IsTrue ((F.meaning files.old).told name.now)
        → IsSome ((F.meaning files.old).contents name.now) }
    ensures cause { result ≡ Err Stop.Failed → ReadFailed (F.meaning files.old) (F.meaning files.new) name.now }
    ensures fed { IsTrue ((F.meaning files.old).told name.now) → fed reader.new ≤ length (held ((F.meaning files.old).contents name.now)) }
    ensures few { fed reader.new ≤ 4294967296 }
    ensures more { fed reader.old ≤ fed reader.new }
    ensures read { result ≢ Err Stop.TooLong
        → IsReadTo ((F.meaning files.old).given name.now) ((F.meaning files.new).given name.now) (fed reader.new) }
    ensures ahead { IsTrue ((F.meaning files.old).told name.now) → (found : Record) (ends : ℕ) (rest : Records)
        → records_left (held ((F.meaning files.old).contents name.now)) reader.old ≡ one_more found ends rest
        → fed reader.old ≤ ends + 65536 → fed reader.new ≤ ends + 65536 }
    ensures only { Touches (F.meaning files.old) (F.meaning files.new) (name.now ∷ []) [] }
{
    loop {
        match reader.next() {
            Err(fault) => return Err(Stop::Bad(fault)),
            Ok(Some(head)) => return Ok(Some(head)),
            Ok(None) => {}
        }
        let at = reader.fed();
        let Ok(count) = files.read(name, at, piece) else {
            return Err(Stop::Failed);
        };
        if count == 0 {
            return end_of(reader);
        }
        if at + count as u64 > MOST_CAPTURE {
            return Err(Stop::TooLong);
        }
        reader.feed(&piece[..count]);
    }
}

/// How a capture ends of which all was read.
fn end_of(reader: &CaptureReader) -> Result<Option<Head>, Stop>
    requires { HasNoRecord (records_fed reader.now) }
    ensures { EndsSo result reader.now.place (records_fed reader.now) }
{
    match reader.finish() {
        Ok(()) => Ok(None),
        Err(fault) => Err(Stop::Bad(fault)),
    }
}
