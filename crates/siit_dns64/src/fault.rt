//! The faults of the three messages.
ghost use Rattle.std.specs.Prelude.{◌≡◌};

use siit_dns::DnsFault;
use std::alloc::AllocError;

/// Which of the messages is refused, and why. Where memory was refused, `which` says nothing.
#[derive(Clone, Copy, Debug, PartialEq, Eq)]
pub struct Dns64Fault {
    /// 0 for the query, 1 for the AAAA response, 2 for the A response and for an answer that is too long.
    pub which: u8,
    /// Why it is refused.
    pub fault: DnsFault,
}

impl From<AllocError> for Dns64Fault {
    ghost use Rattle.siit_dns.specs.declared.fault.DnsFault.TheVariants.{NoMemory};

    ghost from_gives = { λ _ e. e ≡ record { which = 2; fault = NoMemory } };

    fn from(_error: AllocError) -> Dns64Fault {
        Dns64Fault {
            which: 2,
            fault: DnsFault::NoMemory,
        }
    }
}
