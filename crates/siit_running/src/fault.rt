//! Why a run came to no end.
ghost use Rattle.std.specs.Prelude.{◌≡◌};

use siit_capture::CaptureFault;
use siit_carry::ChainFault;
use siit_chain::End;
use siit_word::{Failed, NoMemory};

/// Why a run came to no end.
#[derive(Clone, Copy, Debug, PartialEq, Eq)]
pub enum RunFault {
    /// Reading the capture of this end failed.
    ReadFault(End),
    /// Writing an output failed.
    WriteFault,
    /// The capture of this end has a fault at this place, in bytes from its start.
    BadCapture {
        end: End,
        place: u64,
        fault: CaptureFault,
    },
    /// The capture of this end has more bytes than a capture may have.
    TooLong(End),
    /// Memory was refused.
    NoMemory,
}

impl From<Failed> for RunFault {
    ghost use Rattle.siit_running.specs.declared.fault.RunFault.TheVariants as faults;

    ghost from_gives = { λ _ e. e ≡ faults.WriteFault };

    fn from(_: Failed) -> Self {
        RunFault::WriteFault
    }
}

impl From<NoMemory> for RunFault {
    ghost use Rattle.siit_running.specs.declared.fault.RunFault.TheVariants as faults;

    ghost from_gives = { λ _ e. e ≡ faults.NoMemory };

    fn from(_: NoMemory) -> Self {
        RunFault::NoMemory
    }
}

impl From<ChainFault> for RunFault {
    ghost use Rattle.siit_running.specs.Faults.{run_fault};

    ghost from_gives = { λ fault e. e ≡ run_fault fault };

    fn from(fault: ChainFault) -> Self {
        match fault {
            ChainFault::WriteFault => RunFault::WriteFault,
            ChainFault::NoMemory => RunFault::NoMemory,
        }
    }
}
