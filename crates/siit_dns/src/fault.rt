//! The faults of a message.
ghost use Rattle.std.specs.Prelude.{◌≡◌};

use std::alloc::{AllocError, AllocFailed};
use thiserror::Error;

/// Why a message, or what is asked of it, is refused.
#[derive(Clone, Copy, Debug, PartialEq, Eq, Error)]
pub enum DnsFault {
    /// The bytes are no message (RFC 1035 section 4.1): the first item at fault begins at this place.
    #[error("no DNS message: at {0}")]
    Bad(u16),
    /// The message isn't the query that was wanted.
    #[error("not the query that is wanted")]
    NotQuery,
    /// The message isn't the answer that was wanted.
    #[error("not the answer that is wanted")]
    NotAnswer,
    /// The answer would have more than 65,535 bytes.
    #[error("an answer of more than 65,535 bytes")]
    AnswerTooLong,
    /// Memory was refused.
    #[error("no memory")]
    NoMemory,
}

impl From<AllocError> for DnsFault {
    ghost use Rattle.siit_dns.specs.declared.fault.DnsFault.TheVariants.{NoMemory};

    ghost from_gives = { λ _ e. e ≡ NoMemory };

    fn from(_error: AllocError) -> DnsFault {
        DnsFault::NoMemory
    }
}

impl<T: Drop> From<AllocFailed<T>> for DnsFault {
    ghost use Rattle.siit_dns.specs.declared.fault.DnsFault.TheVariants.{NoMemory};

    ghost from_gives = { λ _ e. e ≡ NoMemory };

    fn from(_error: AllocFailed<T>) -> DnsFault {
        DnsFault::NoMemory
    }
}
