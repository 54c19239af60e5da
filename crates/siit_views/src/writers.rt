//! Headers as they are written, with their lengths as they are told (RFC 791 section 3.1, RFC 8200 sections 3 and 4.5).
ghost use Rattle.siit_model.specs.Checksum.{checksum_of, residue};
ghost use Rattle.siit_model.specs.Extensions as model;
ghost use Rattle.siit_model.specs.Ipv4 as four;
ghost use Rattle.siit_model.specs.Ipv6 as six;
ghost use Rattle.siit_views.specs.Writers.{packet_in4, packet_in6};
ghost use Rattle.std.specs.Prelude.{◌≡◌, ◌<◌, ◌+◌, ◌*◌};

use byteorder::{BigEndian, ByteOrder};
use siit_addr::{Addr4, Addr6};
use siit_checksum::sum_of;
use siit_word::{put16, put32};

/// The flag Don't Fragment in the field of flags and fragment offset (RFC 791 section 3.1).
const DONT_FRAGMENT: u16 = 0x4000;

/// The flag More Fragments there.
const MORE_FRAGMENTS: u16 = 0x2000;

/// What an IPv4 header without options says besides its length and its checksum.
#[derive(Clone, Copy, Debug, PartialEq, Eq)]
pub struct Fields4 {
    /// The type of service.
    pub tos: u8,
    /// The identification.
    pub id: u16,
    /// The flag Don't Fragment.
    pub df: bool,
    /// The flag More Fragments.
    pub more: bool,
    /// The fragment offset, in units of 8 bytes, below 8192.
    pub offset: u16,
    /// The time to live.
    pub ttl: u8,
    /// The protocol of the payload.
    pub protocol: u8,
    /// The source address.
    pub src: Addr4,
    /// The destination address.
    pub dst: Addr4,
}

/// What an IPv6 header with flow label 0 says besides its length.
#[derive(Clone, Copy, Debug, PartialEq, Eq)]
pub struct Fields6 {
    /// The traffic class.
    pub class: u8,
    /// The hop limit.
    pub hop: u8,
    /// The next header.
    pub next: u8,
    /// The source address.
    pub src: Addr6,
    /// The destination address.
    pub dst: Addr6,
}

/// An IPv4 header without options, with a total length in bytes and a right checksum below 65535.
pub fn ipv4_header(fields: &Fields4, total: u16) -> [u8; 20]
    requires { fields.now.offset < 8192 }
    ensures { let packet = packet_in4 fields.now
        in result ≡ four.ipv4_header total packet (checksum_of (residue (four.ipv4_header total packet 0))) }
{
    let mut header = blank_header4(fields, total);
    let sum = sum_of(&header);
    put16(&mut header, 10, (65535 - sum) % 65535);
    header
}

/// The same with a checksum field of 0.
fn blank_header4(fields: &Fields4, total: u16) -> [u8; 20]
    requires { fields.now.offset < 8192 }
    ensures { result ≡ four.ipv4_header total (packet_in4 fields.now) 0 }
{
    let mut header = [0u8; 20];
    header[0] = 0x45;
    header[1] = fields.tos;
    put16(&mut header, 2, total);
    put16(&mut header, 4, fields.id);
    put16(&mut header, 6, shape4(fields));
    header[8] = fields.ttl;
    header[9] = fields.protocol;
    put32(&mut header, 12, fields.src.0);
    put32(&mut header, 16, fields.dst.0);
    header
}

/// The field of flags and fragment offset.
fn shape4(fields: &Fields4) -> u16
    requires { fields.now.offset < 8192 }
    ensures { let packet = packet_in4 fields.now in result ≡ packet.df * 16384 + packet.mf * 8192 + packet.offset }
{
    u16::from(fields.df) * DONT_FRAGMENT + u16::from(fields.more) * MORE_FRAGMENTS + fields.offset
}

/// An IPv6 header with flow label 0 and a payload length in bytes.
pub fn ipv6_header(fields: &Fields6, len: u16) -> [u8; 40]
    ensures { result ≡ six.ipv6_header len (packet_in6 fields.now) }
{
    let mut header = [0u8; 40];
    put32(
        &mut header,
        0,
        0x6000_0000 + u32::from(fields.class) * 0x10_0000,
    );
    put16(&mut header, 4, len);
    header[6] = fields.next;
    header[7] = fields.hop;
    BigEndian::write_u128(&mut header[8..], fields.src.0);
    BigEndian::write_u128(&mut header[24..], fields.dst.0);
    header
}

/// A Fragment header before a header of kind `next`. The offset counts units of 8 bytes and is below 8192.
pub fn fragment_header(next: u8, offset: u16, more: bool, id: u32) -> [u8; 8]
    requires { offset < 8192 }
    ensures { result ≡ model.fragment_header next (record { offset = offset; more = more; id = id }) }
{
    let mut header = [0u8; 8];
    header[0] = next;
    put16(&mut header, 2, offset * 8 + u16::from(more));
    put32(&mut header, 4, id);
    header
}
