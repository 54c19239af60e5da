//! The record at the front of what was fed.
ghost use Rattle.std.specs.Prelude.{◌≡◌, ◌+◌, ◌*◌, ◌≤◌, ◌<◌, ◌^◌, length};
ghost use Rattle.siit_capture.specs.Records.{fractions_per_second, nanoseconds_per_fraction};
ghost use Rattle.siit_capture.specs.Told.{IsTold};

use crate::form::{CaptureFault, Form, LinkType, Resolution};

/// How many bytes stand before the captured ones.
pub(crate) const RECORD_HEAD: usize = 16;

/// The most bytes that a record may have captured.
const MOST_CAPTURED: u32 = 262_144;

/// A whole record: its link type, its time, and how many bytes it has captured.
#[derive(Clone, Copy)]
pub(crate) struct RecordHead {
    pub link: LinkType,
    pub seconds: u32,
    pub nanos: u32,
    pub captured: usize,
}

impl Resolution {
    // How many fractions a second has.
    fn per_second(self) -> u32
        ensures { result ≡ fractions_per_second self }
    {
        match self {
            Resolution::Microseconds => 1_000_000,
            Resolution::Nanoseconds => 1_000_000_000,
        }
    }

    // A fraction in nanoseconds.
    fn nanos(self, fraction: u32) -> u32
        requires { fraction < fractions_per_second self }
        ensures { result ≡ fraction * nanoseconds_per_fraction self }
    {
        match self {
            Resolution::Microseconds => fraction * 1000,
            Resolution::Nanoseconds => fraction,
        }
    }
}

/// The whole record at the front, or `None` where bytes of it are missing or none are left.
pub(crate) fn read_record(form: Form, bytes: &[u8]) -> Result<Option<RecordHead>, CaptureFault>
    ensures { IsTold form result bytes.now }
{
    if bytes.len() < RECORD_HEAD {
        return Ok(None);
    }
    let endian = form.magic.endian;
    let captured = endian.number32(bytes, 8);
    if captured > MOST_CAPTURED {
        return Err(CaptureFault::RecordTooLong);
    }
    let fraction = endian.number32(bytes, 4);
    if fraction >= form.magic.resolution.per_second() {
        return Err(CaptureFault::BadTime);
    }
    let captured = captured as usize;
    if bytes.len() - RECORD_HEAD < captured {
        return Ok(None);
    }
    Ok(Some(RecordHead {
        link: form.link,
        seconds: endian.number32(bytes, 0),
        nanos: form.magic.resolution.nanos(fraction),
        captured,
    }))
}
