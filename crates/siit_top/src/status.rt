//! How a run of the program ended, as its caller sees it.
ghost use Rattle.std.specs.Prelude.{◌≡◌};

use siit_capture::CaptureFault;
use siit_chain::End;
use siit_config::ConfigFault;
use siit_dns::DnsFault;

/// How a run of the program ended.
#[derive(Clone, Copy, Debug, PartialEq, Eq)]
pub enum Status {
    /// All was read and all was written.
    Ok,
    /// The words after the program's name are no command.
    BadWords,
    /// The configuration has this fault, which is never `NoMemory`.
    BadConfig(ConfigFault),
    /// An input couldn't be read.
    ReadFault,
    /// An output couldn't be written.
    WriteFault,
    /// The capture of this end has a fault at this place, in bytes from its start.
    BadCapture {
        end: End,
        place: u64,
        fault: CaptureFault,
    },
    /// Memory was refused.
    NoMemory,
    /// The file that the word at this place names, the first being 0, holds more bytes than are read.
    TooLong {
        word: u8,
    },
    /// The DNS message in the file that the word at this place names has this fault, which is never `NoMemory`.
    BadMessage {
        word: u8,
        fault: DnsFault,
    },
    /// The configuration has no device of this number.
    NoDevice,
}

impl Status {
    ghost use Rattle.siit_top.specs.Texts.{status_code};

    /// The program's exit status.
    pub fn code(&self) -> u8
        ensures { result ≡ status_code self.now }
    {
        match self {
            Status::Ok => 0,
            Status::BadWords => 2,
            Status::BadConfig(_) => 3,
            Status::ReadFault => 4,
            Status::WriteFault => 5,
            Status::BadCapture { .. } => 6,
            Status::NoMemory => 7,
            Status::TooLong { .. } => 8,
            Status::BadMessage { .. } => 9,
            Status::NoDevice => 10,
        }
    }
}
