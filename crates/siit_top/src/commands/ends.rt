//! What commands have in common where they end early: a file that wasn't read, or wasn't written to its end.
ghost use Rattle.std.specs.Prelude.{◌≡◌};
ghost use Rattle.siit_top.specs.Ends.{unread_status};

use crate::status::Status;
use siit_command::Unread;

/// Why a file wasn't written to its end.
#[derive(Clone, Copy)]
pub(crate) enum Stopped {
    /// Writing it failed.
    Failed,
    /// Memory was refused.
    NoMemory,
}

/// The status where the file that the word at this place names wasn't read. The first word, the command's name, has
/// the place 0.
pub(crate) fn unread_status(word: u8, unread: Unread) -> Status
    ensures { result ≡ unread_status word unread }
{
    match unread {
        Unread::Failed => Status::ReadFault,
        Unread::NoMemory => Status::NoMemory,
        Unread::TooLong => Status::TooLong { word },
    }
}

impl From<Stopped> for Status {
    ghost use Rattle.siit_top.specs.Ends.{stopped_status};

    ghost from_gives = { λ stopped status. status ≡ stopped_status stopped };

    fn from(stopped: Stopped) -> Status {
        match stopped {
            Stopped::Failed => Status::WriteFault,
            Stopped::NoMemory => Status::NoMemory,
        }
    }
}
