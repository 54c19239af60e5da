//! IPv6 headers as they are read (RFC 8200 section 3).
ghost use Rattle.std.specs.Prelude.{◌≡◌, ◌≤◌, ◌+◌, length, IfOk, OnOk, IfErr};
ghost use Rattle.siit_model.specs.Ipv6.{ipv6_fields, payload_length_in, version6_in};
ghost use Rattle.siit_views.specs.Headers.{HasLength6, refusal6};

use byteorder::{BigEndian, ByteOrder};
use siit_addr::Addr6;
use siit_rules::Rule;
use siit_word::{get16, get32};
use std::marker::Model;

/// The bytes of an IPv6 packet, or as many as there are of one, to be read: at least 40.
#[derive(Drop)]
pub struct Ipv6Header<'a> {
    bytes: &'a [u8],
}

// Clauses see the bytes.
impl<'a> Model for Ipv6Header<'a> {
    ghost use Rattle.std.specs.Prelude.{ℕ, List, ◌≤◌, length};

    ghost Value = { List ℕ };

    ghost view = { λ h. h.bytes.now };

    ghost invariant = { λ h. 40 ≤ length h.bytes.now };
}

impl<'a> Ipv6Header<'a> {
    /// The header at the front of at least 40 bytes. Nothing of it is looked at.
    pub fn new(bytes: &'a [u8]) -> Ipv6Header<'a>
        requires { 40 ≤ length bytes.now }
        ensures { result ≡ bytes.now }
    {
        Ipv6Header { bytes }
    }

    /// The version, 6 in an IPv6 packet.
    pub fn version(&self) -> u8
        ensures { result ≡ version6_in self.now }
    {
        self.bytes[0] / 16
    }

    /// The traffic class.
    pub fn class(&self) -> u8
        ensures { result ≡ (ipv6_fields self.now).class }
    {
        (get16(self.bytes, 0) / 16 % 256) as u8
    }

    /// The flow label, of 20 bits.
    pub fn flow(&self) -> u32
        ensures { result ≡ (ipv6_fields self.now).flow }
    {
        get32(self.bytes, 0) % 0x10_0000
    }

    /// The payload length in bytes.
    pub fn length(&self) -> u16
        ensures { result ≡ payload_length_in self.now }
    {
        get16(self.bytes, 4)
    }

    /// The next header.
    pub fn next(&self) -> u8
        ensures { result ≡ (ipv6_fields self.now).next }
    {
        self.bytes[6]
    }

    /// The hop limit.
    pub fn hop(&self) -> u8
        ensures { result ≡ (ipv6_fields self.now).hop }
    {
        self.bytes[7]
    }

    /// The source address.
    pub fn src(&self) -> Addr6
        ensures { result.0 ≡ (ipv6_fields self.now).source }
    {
        Addr6(BigEndian::read_u128(&self.bytes[8..]))
    }

    /// The destination address.
    pub fn dst(&self) -> Addr6
        ensures { result.0 ≡ (ipv6_fields self.now).destination }
    {
        Addr6(BigEndian::read_u128(&self.bytes[24..]))
    }

    /// What follows the header. Bytes of the link behind the packet aren't in it.
    pub fn payload(&self) -> &'a [u8]
        requires { HasLength6 self.now }
        ensures value { result.now ≡ (ipv6_fields self.now).body }
        ensures most { length result.now ≤ 65535 }
    {
        let end = 40 + usize::from(self.length());
        &self.bytes[40..end]
    }
}

/// Whether bytes are an IPv6 packet, with bytes of the link behind it or none: `Short6` and `BadHeader6` where they are
/// not (RFC 8200 section 3). On Ok the packet's length in bytes.
pub fn check6(bytes: &[u8]) -> Result<usize, Rule>
    ensures refused { IfErr result (λ rule. refusal6 bytes.now ≡ Some rule) }
    ensures accepted { OnOk result (refusal6 bytes.now ≡ None) }
    ensures fit { OnOk result (HasLength6 bytes.now) }
    ensures total { IfOk result (λ total. total ≡ 40 + payload_length_in bytes.now) }
{
    if bytes.len() < 40 {
        return Err(Rule::Short6);
    }
    let first = Ipv6Header::new(bytes);
    let total = 40 + usize::from(first.length());
    if first.version() != 6 {
        return Err(Rule::BadHeader6);
    }
    if bytes.len() < total {
        return Err(Rule::Short6);
    }
    Ok(total)
}

/// The IPv6 packet in some bytes, to be read, refused as by `check6`.
pub fn read6(bytes: &[u8]) -> Result<Ipv6Header<'_>, Rule>
    ensures refused { IfErr result (λ rule. refusal6 bytes.now ≡ Some rule) }
    ensures accepted { OnOk result (refusal6 bytes.now ≡ None) }
    ensures fit { OnOk result (HasLength6 bytes.now) }
    ensures bytes { IfOk result (λ header. header ≡ bytes.now) }
{
    match check6(bytes) {
        Ok(_) => Ok(Ipv6Header::new(bytes)),
        Err(rule) => Err(rule),
    }
}
