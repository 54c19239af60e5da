//! The head of a capture.
ghost use Rattle.std.specs.Prelude.{◌≡◌, ◌+◌, ◌≤◌, length};
ghost use Rattle.siit_capture.specs.Heads.{head_front, is_version, link_of, magic_in, magic_of, resolution_of};
ghost use Rattle.siit_capture.specs.Told.{IsWholeHead, told_head};

use crate::form::{CaptureFault, Endian, Form, LinkType, Magic, Resolution};

/// How many bytes a head has.
pub(crate) const HEAD: usize = 24;

/// What is told of a record beside its bytes.
#[derive(Clone, Copy, Debug, PartialEq, Eq)]
pub struct Head {
    /// Which record of its capture it is, counted from 1.
    pub number: u64,
    /// The place of its first byte in the capture.
    pub place: u64,
    /// Seconds of its time.
    pub seconds: u32,
    /// The fraction of a second, in nanoseconds.
    pub nanos: u32,
}

/// The form that the head at the front tells, or `None` where bytes of it are missing.
pub(crate) fn read_head(bytes: &[u8]) -> Result<Option<Form>, CaptureFault>
    ensures { told_head result bytes.now ≡ head_front bytes.now }
{
    if bytes.len() < 4 {
        return Ok(None);
    }
    let Some(magic) = read_magic(bytes) else {
        return Err(CaptureFault::BadMagic);
    };
    if bytes.len() < HEAD {
        return Ok(None);
    }
    if !has_version(magic.endian, bytes) {
        return Err(CaptureFault::BadVersion);
    }
    match link_type(magic.endian.number32(bytes, 20)) {
        Some(link) => Ok(Some(Form { magic, link })),
        None => Err(CaptureFault::BadLinkType),
    }
}

/// The form that a whole head at the front tells.
pub(crate) fn whole_head(bytes: &[u8]) -> Option<Form>
    ensures { IsWholeHead result bytes.now }
{
    match read_head(bytes) {
        Ok(form) => form,
        Err(_) => None,
    }
}

// What the magic number at the front tells.
fn read_magic(bytes: &[u8]) -> Option<Magic>
    requires { 4 ≤ length bytes.now }
    ensures { result ≡ magic_of bytes.now }
{
    match magic_in(Endian::Big, bytes) {
        Some(magic) => Some(magic),
        None => magic_in(Endian::Little, bytes),
    }
}

// What the magic number tells, if it stands in this byte order.
fn magic_in(endian: Endian, bytes: &[u8]) -> Option<Magic>
    requires { 4 ≤ length bytes.now }
    ensures { result ≡ magic_in endian bytes.now }
{
    let resolution = match endian.number32(bytes, 0) {
        0xa1b2_c3d4 => Resolution::Microseconds,
        0xa1b2_3c4d => Resolution::Nanoseconds,
        _ => return None,
    };
    Some(Magic { endian, resolution })
}

// Whether the version is 2.4.
fn has_version(endian: Endian, bytes: &[u8]) -> bool
    requires { 8 ≤ length bytes.now }
    ensures { result ≡ is_version endian bytes.now }
{
    endian.number16(bytes, 4) == 2 && endian.number16(bytes, 6) == 4
}

// The link type of a number, if it is one that is read.
fn link_type(number: u32) -> Option<LinkType>
    ensures { result ≡ link_of number }
{
    match number {
        1 => Some(LinkType::Ethernet),
        101 => Some(LinkType::Raw),
        228 => Some(LinkType::Ipv4),
        229 => Some(LinkType::Ipv6),
        _ => None,
    }
}
