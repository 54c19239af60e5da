//! A whole file, read piece by piece.
ghost use Rattle.std.specs.Prelude.{◌≡◌, ◌<◌, ◌^◌, [], ◌∷◌, length, IfErr, IfOk};
ghost use Rattle.siit_word.specs.Files.{Touches};
ghost use Rattle.siit_command.specs.Reading.{IsUnread, WasRead};

use siit_word::Files;
use std::alloc::{AllocError, Global};

/// How many bytes are asked for at once.
const PIECE: usize = 262_144;

/// Why a file wasn't read whole.
#[derive(Clone, Copy, Debug, PartialEq, Eq)]
pub enum Unread {
    /// Reading it failed.
    Failed,
    /// Memory was refused.
    NoMemory,
    /// It holds more bytes than are read.
    TooLong,
}

// A function of its own, so that no proof has to look at so many zeros.
fn zeros(alloc: Global, len: usize) -> Result<Vec<u8>, AllocError>
    ensures { IfOk result (λ bytes. length bytes.items ≡ len) }
{
    vec![in alloc; 0u8; len]
}

/// Reads a file of at most `most` bytes to its end. No other file is read, and none is written.
pub fn read_whole<F: Files>(
    alloc: Global,
    files: &mut F,
    name: &str,
    most: usize,
) -> Result<Vec<u8>, Unread>
    requires { most < 2 ^ 62 }
    ensures read { IfOk result (λ bytes. WasRead (F.meaning files.old) name.now most bytes.items) }
    ensures unread { IfErr result
        (λ unread. IsUnread (F.meaning files.old) (F.meaning files.new) name.now most unread) }
    ensures only { Touches (F.meaning files.old) (F.meaning files.new) (name.now ∷ []) [] }
{
    let Ok(mut piece) = zeros(alloc, PIECE) else {
        return Err(Unread::NoMemory);
    };
    let mut bytes = Vec::new(alloc);
    while bytes.len() <= most {
        let Ok(count) = files.read(name, bytes.len() as u64, &mut piece) else {
            return Err(Unread::Failed);
        };
        if count == 0 {
            return Ok(bytes);
        }
        if bytes.extend_from_slice(&piece[..count]).is_err() {
            return Err(Unread::NoMemory);
        }
    }
    Err(Unread::TooLong)
}
