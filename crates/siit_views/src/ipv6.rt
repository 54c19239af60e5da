//! An IPv6 packet lent in parts, to be written where it lies (RFC 8200 section 3).
ghost use Rattle.std.specs.Prelude.{◌≡◌, ◌≤◌, length, take, Some, None, IfOk, IfErr, OnOk};
ghost use Rattle.std.specs.Borrow.{sem};
ghost use Rattle.siit_model.specs.Ipv6.{ipv6_fields, payload_length_in};
ghost use Rattle.siit_views.specs.Headers.{refusal6};
ghost use Rattle.siit_views.specs.Parts.{LendsPacket6};

use crate::header6::{Ipv6Header, check6};
use crate::parts::split_parts;
use siit_addr::Addr6;
use siit_rules::Rule;

/// The parts of an IPv6 packet, to be written where they lie (RFC 8200 section 3).
#[derive(Drop)]
pub struct Ipv6View<'a> {
    /// The header, 40 bytes.
    pub head: &'a mut [u8],
    /// What follows the header.
    pub payload: &'a mut [u8],
}

/// The IPv6 packet in some bytes, as its header and its payload, refused by `Short6` and `BadHeader6` as `check6` says
/// (RFC 8200 section 3). What is written through the parts is in `bytes` afterwards, and bytes of the link behind the
/// packet stay.
pub fn view6(bytes: &mut [u8]) -> Result<Ipv6View<'_>, Rule>
    ensures* writes_back { sem 𝓛 (LendsPacket6 bytes.entry result) }
    ensures refused { IfErr result (λ rule. refusal6 bytes.old ≡ Some rule) }
    ensures accepted { OnOk result (refusal6 bytes.old ≡ None) }
    ensures head { IfOk result (λ view. view.head.now ≡ take 40 bytes.old) }
    ensures payload { IfOk result (λ view. view.payload.now ≡ (ipv6_fields bytes.old).body) }
{
    let total = match check6(bytes) {
        Ok(total) => total,
        Err(rule) => return Err(rule),
    };
    let packet = split_parts(bytes, total);
    let parts = split_parts(packet.front, 40);
    Ok(Ipv6View {
        head: parts.front,
        payload: parts.rest,
    })
}

impl Ipv6View<'_> {
    /// The traffic class.
    pub fn class(&self) -> u8
        requires { 40 ≤ length self.now.head.now }
        ensures { result ≡ (ipv6_fields self.now.head.now).class }
    {
        Ipv6Header::new(self.head).class()
    }

    /// The flow label, of 20 bits.
    pub fn flow(&self) -> u32
        requires { 40 ≤ length self.now.head.now }
        ensures { result ≡ (ipv6_fields self.now.head.now).flow }
    {
        Ipv6Header::new(self.head).flow()
    }

    /// The payload length in bytes.
    pub fn length(&self) -> u16
        requires { 40 ≤ length self.now.head.now }
        ensures { result ≡ payload_length_in self.now.head.now }
    {
        Ipv6Header::new(self.head).length()
    }

    /// The next header.
    pub fn next(&self) -> u8
        requires { 40 ≤ length self.now.head.now }
        ensures { result ≡ (ipv6_fields self.now.head.now).next }
    {
        Ipv6Header::new(self.head).next()
    }

    /// The hop limit.
    pub fn hop(&self) -> u8
        requires { 40 ≤ length self.now.head.now }
        ensures { result ≡ (ipv6_fields self.now.head.now).hop }
    {
        Ipv6Header::new(self.head).hop()
    }

    /// The source address.
    pub fn src(&self) -> Addr6
        requires { 40 ≤ length self.now.head.now }
        ensures { result.0 ≡ (ipv6_fields self.now.head.now).source }
    {
        Ipv6Header::new(self.head).src()
    }

    /// The destination address.
    pub fn dst(&self) -> Addr6
        requires { 40 ≤ length self.now.head.now }
        ensures { result.0 ≡ (ipv6_fields self.now.head.now).destination }
    {
        Ipv6Header::new(self.head).dst()
    }
}
