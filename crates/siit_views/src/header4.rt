//! IPv4 headers as they are read (RFC 791 section 3.1).
ghost use Rattle.std.specs.Prelude.{◌≡◌, ◌≤◌, ◌==◌, length, IfOk, OnOk, IfErr};
ghost use Rattle.siit_model.specs.Bytes.{field16};
ghost use Rattle.siit_model.specs.Ipv4.{header_length_in, ipv4_fields, total_length_in, version_in};
ghost use Rattle.siit_views.specs.Headers.{HasLengths4, refusal4};

use siit_addr::Addr4;
use siit_checksum::sum_of;
use siit_rules::Rule;
use siit_word::{get16, get32};
use std::marker::Model;

/// The bytes of an IPv4 packet, or as many as there are of one, to be read: at least 20.
#[derive(Drop)]
pub struct Ipv4Header<'a> {
    bytes: &'a [u8],
}

// Clauses see the bytes.
impl<'a> Model for Ipv4Header<'a> {
    ghost use Rattle.std.specs.Prelude.{ℕ, List, ◌≤◌, length};

    ghost Value = { List ℕ };

    ghost view = { λ h. h.bytes.now };

    ghost invariant = { λ h. 20 ≤ length h.bytes.now };
}

impl<'a> Ipv4Header<'a> {
    /// The header at the front of at least 20 bytes. Nothing of it is looked at.
    pub fn new(bytes: &'a [u8]) -> Ipv4Header<'a>
        requires { 20 ≤ length bytes.now }
        ensures { result ≡ bytes.now }
    {
        Ipv4Header { bytes }
    }

    /// The version, 4 in an IPv4 packet.
    pub fn version(&self) -> u8
        ensures { result ≡ version_in self.now }
    {
        self.bytes[0] / 16
    }

    /// The length of the header in bytes, 0 to 60.
    pub fn header_len(&self) -> usize
        ensures { result ≡ header_length_in self.now }
    {
        usize::from(self.bytes[0] % 16) * 4
    }

    /// The type of service.
    pub fn tos(&self) -> u8
        ensures { result ≡ (ipv4_fields self.now).tos }
    {
        self.bytes[1]
    }

    /// The total length in bytes.
    pub fn total(&self) -> u16
        ensures { result ≡ total_length_in self.now }
    {
        get16(self.bytes, 2)
    }

    /// The identification.
    pub fn id(&self) -> u16
        ensures { result ≡ (ipv4_fields self.now).id }
    {
        get16(self.bytes, 4)
    }

    /// The flag Don't Fragment.
    pub fn df(&self) -> bool
        ensures { result ≡ ((ipv4_fields self.now).df == 1) }
    {
        get16(self.bytes, 6) / 0x4000 % 2 == 1
    }

    /// The flag More Fragments.
    pub fn mf(&self) -> bool
        ensures { result ≡ ((ipv4_fields self.now).mf == 1) }
    {
        get16(self.bytes, 6) / 0x2000 % 2 == 1
    }

    /// The fragment offset, in units of 8 bytes.
    pub fn offset(&self) -> u16
        ensures { result ≡ (ipv4_fields self.now).offset }
    {
        get16(self.bytes, 6) % 0x2000
    }

    /// The time to live.
    pub fn ttl(&self) -> u8
        ensures { result ≡ (ipv4_fields self.now).ttl }
    {
        self.bytes[8]
    }

    /// The protocol of the payload.
    pub fn protocol(&self) -> u8
        ensures { result ≡ (ipv4_fields self.now).protocol }
    {
        self.bytes[9]
    }

    /// The header checksum.
    pub fn sum(&self) -> u16
        ensures { result ≡ field16 self.now 10 }
    {
        get16(self.bytes, 10)
    }

    /// The source address.
    pub fn src(&self) -> Addr4
        ensures { result.0 ≡ (ipv4_fields self.now).source }
    {
        Addr4(get32(self.bytes, 12))
    }

    /// The destination address.
    pub fn dst(&self) -> Addr4
        ensures { result.0 ≡ (ipv4_fields self.now).destination }
    {
        Addr4(get32(self.bytes, 16))
    }

    /// The options.
    pub fn options(&self) -> &'a [u8]
        requires { HasLengths4 self.now }
        ensures { result.now ≡ (ipv4_fields self.now).options }
    {
        let header = self.header_len();
        &self.bytes[20..header]
    }

    /// The payload. Bytes of the link behind the packet aren't in it.
    pub fn payload(&self) -> &'a [u8]
        requires { HasLengths4 self.now }
        ensures { result.now ≡ (ipv4_fields self.now).payload }
    {
        let header = self.header_len();
        let total = usize::from(self.total());
        &self.bytes[header..total]
    }
}

/// The lengths that an IPv4 header tells, in bytes.
#[derive(Clone, Copy, Debug, PartialEq, Eq)]
pub struct Lengths4 {
    /// Of the header with its options.
    pub header: usize,
    /// Of the header and the payload.
    pub total: usize,
}

/// Whether bytes are an IPv4 packet, with bytes of the link behind it or none: `Short4` and `BadHeader4` where they are
/// not (RFC 791 section 3.1). A wrong header checksum is a bad header.
pub fn check4(bytes: &[u8]) -> Result<Lengths4, Rule>
    ensures refused { IfErr result (λ rule. refusal4 bytes.now ≡ Some rule) }
    ensures accepted { OnOk result (refusal4 bytes.now ≡ None) }
    ensures fit { OnOk result (HasLengths4 bytes.now) }
    ensures header { IfOk result (λ lengths. lengths.header ≡ header_length_in bytes.now) }
    ensures total { IfOk result (λ lengths. lengths.total ≡ total_length_in bytes.now) }
{
    if bytes.len() < 20 {
        return Err(Rule::Short4);
    }
    let first = Ipv4Header::new(bytes);
    let header = first.header_len();
    let total = usize::from(first.total());
    if first.version() != 4 || header < 20 {
        return Err(Rule::BadHeader4);
    }
    if bytes.len() < header || bytes.len() < total {
        return Err(Rule::Short4);
    }
    if total < header || sum_of(&bytes[..header]) != 0 {
        return Err(Rule::BadHeader4);
    }
    Ok(Lengths4 { header, total })
}

/// The IPv4 packet in some bytes, to be read, refused as by `check4`.
pub fn read4(bytes: &[u8]) -> Result<Ipv4Header<'_>, Rule>
    ensures refused { IfErr result (λ rule. refusal4 bytes.now ≡ Some rule) }
    ensures accepted { OnOk result (refusal4 bytes.now ≡ None) }
    ensures fit { OnOk result (HasLengths4 bytes.now) }
    ensures bytes { IfOk result (λ header. header ≡ bytes.now) }
{
    match check4(bytes) {
        Ok(_) => Ok(Ipv4Header::new(bytes)),
        Err(rule) => Err(rule),
    }
}
