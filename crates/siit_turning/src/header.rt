//! The IPv6 header of the packet that goes back (RFC 8200 section 3).
ghost use Rattle.siit_model.specs.Bytes.{AreBytes, bytes128};
ghost use Rattle.siit_turning.specs.Back.{header_back, hop_lowered};
ghost use Rattle.std.specs.Prelude.{◌≡◌, ◌≤◌, ◌++◌, length, slice_index, take, drop};

use byteorder::{BigEndian, ByteOrder};
use siit_addr::Addresses6;
use siit_word::put16;

/// The place of the hop limit.
const HOP: usize = 7;

/// Writes these addresses, a payload length in bytes and a hop limit one less. Version, traffic class, flow label and
/// next header stay.
pub(crate) fn write_header(bytes: &mut [u8], len: u16, new: Addresses6)
    requires header { 40 ≤ length bytes.old }
    requires alive { 1 ≤ slice_index bytes.old 7 }
    ensures { bytes.new ≡ header_back len new bytes.old ++ drop 40 bytes.old }
{
    put16(bytes, 4, len);
    lower_hop(bytes);
    write_addresses(bytes, new);
}

/// Makes the hop limit one less.
fn lower_hop(bytes: &mut [u8])
    requires header { 40 ≤ length bytes.old }
    requires alive { 1 ≤ slice_index bytes.old 7 }
    ensures { bytes.new ≡ hop_lowered bytes.old }
{
    bytes[HOP] -= 1;
}

/// Writes the addresses.
fn write_addresses(bytes: &mut [u8], new: Addresses6)
    requires { 40 ≤ length bytes.old }
    ensures { bytes.new ≡ take 8 bytes.old ++ bytes128 new.src.0 ++ bytes128 new.dst.0 ++ drop 40 bytes.old }
{
    BigEndian::write_u128(&mut bytes[8..24], new.src.0);
    BigEndian::write_u128(&mut bytes[24..40], new.dst.0);
}

/// What is known of a slice of bytes: each is below 256.
pub(crate) fn are_bytes(bytes: &[u8])
    ensures { AreBytes bytes.now }
{}
