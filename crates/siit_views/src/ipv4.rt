//! An IPv4 packet lent in parts, to be written where it lies (RFC 791 section 3.1).
ghost use Rattle.std.specs.Prelude.{◌≡◌, ◌≤◌, ◌==◌, length, take, Some, None, IfOk, IfErr, OnOk};
ghost use Rattle.std.specs.Borrow.{sem};
ghost use Rattle.siit_model.specs.Bytes.{field16};
ghost use Rattle.siit_model.specs.Ipv4.{ipv4_fields, total_length_in};
ghost use Rattle.siit_views.specs.Headers.{refusal4};
ghost use Rattle.siit_views.specs.Parts.{LendsPacket4};

use crate::header4::{Ipv4Header, check4};
use crate::parts::split_parts;
use siit_addr::Addr4;
use siit_rules::Rule;

/// The parts of an IPv4 packet, to be written where they lie (RFC 791 section 3.1).
#[derive(Drop)]
pub struct Ipv4View<'a> {
    /// The first 20 bytes of the header.
    pub head: &'a mut [u8],
    /// The options, at most 40 bytes.
    pub options: &'a mut [u8],
    /// The payload.
    pub payload: &'a mut [u8],
}

/// The IPv4 packet in some bytes, as the first 20 bytes of its header, the options and the payload, refused by `Short4`
/// and `BadHeader4` as `check4` says (RFC 791 section 3.1). What is written through the parts is in `bytes` afterwards,
/// and bytes of the link behind the packet stay.
pub fn view4(bytes: &mut [u8]) -> Result<Ipv4View<'_>, Rule>
    ensures* writes_back { sem 𝓛 (LendsPacket4 bytes.entry result) }
    ensures refused { IfErr result (λ rule. refusal4 bytes.old ≡ Some rule) }
    ensures accepted { OnOk result (refusal4 bytes.old ≡ None) }
    ensures head { IfOk result (λ view. view.head.now ≡ take 20 bytes.old) }
    ensures options { IfOk result (λ view. view.options.now ≡ (ipv4_fields bytes.old).options) }
    ensures payload { IfOk result (λ view. view.payload.now ≡ (ipv4_fields bytes.old).payload) }
{
    let lengths = match check4(bytes) {
        Ok(lengths) => lengths,
        Err(rule) => return Err(rule),
    };
    let packet = split_parts(bytes, lengths.total);
    let whole = split_parts(packet.front, lengths.header);
    let header = split_parts(whole.front, 20);
    Ok(Ipv4View {
        head: header.front,
        options: header.rest,
        payload: whole.rest,
    })
}

impl Ipv4View<'_> {
    /// The type of service.
    pub fn tos(&self) -> u8
        requires { 20 ≤ length self.now.head.now }
        ensures { result ≡ (ipv4_fields self.now.head.now).tos }
    {
        Ipv4Header::new(self.head).tos()
    }

    /// The total length in bytes.
    pub fn total(&self) -> u16
        requires { 20 ≤ length self.now.head.now }
        ensures { result ≡ total_length_in self.now.head.now }
    {
        Ipv4Header::new(self.head).total()
    }

    /// The identification.
    pub fn id(&self) -> u16
        requires { 20 ≤ length self.now.head.now }
        ensures { result ≡ (ipv4_fields self.now.head.now).id }
    {
        Ipv4Header::new(self.head).id()
    }

    /// The flag Don't Fragment.
    pub fn df(&self) -> bool
        requires { 20 ≤ length self.now.head.now }
        ensures { result ≡ ((ipv4_fields self.now.head.now).df == 1) }
    {
        Ipv4Header::new(self.head).df()
    }

    /// The flag More Fragments.
    pub fn mf(&self) -> bool
        requires { 20 ≤ length self.now.head.now }
        ensures { result ≡ ((ipv4_fields self.now.head.now).mf == 1) }
    {
        Ipv4Header::new(self.head).mf()
    }

    /// The fragment offset, in units of 8 bytes.
    pub fn offset(&self) -> u16
        requires { 20 ≤ length self.now.head.now }
        ensures { result ≡ (ipv4_fields self.now.head.now).offset }
    {
        Ipv4Header::new(self.head).offset()
    }

    /// The time to live.
    pub fn ttl(&self) -> u8
        requires { 20 ≤ length self.now.head.now }
        ensures { result ≡ (ipv4_fields self.now.head.now).ttl }
    {
        Ipv4Header::new(self.head).ttl()
    }

    /// The protocol of the payload.
    pub fn protocol(&self) -> u8
        requires { 20 ≤ length self.now.head.now }
        ensures { result ≡ (ipv4_fields self.now.head.now).protocol }
    {
        Ipv4Header::new(self.head).protocol()
    }

    /// The header checksum.
    pub fn sum(&self) -> u16
        requires { 20 ≤ length self.now.head.now }
        ensures { result ≡ field16 self.now.head.now 10 }
    {
        Ipv4Header::new(self.head).sum()
    }

    /// The source address.
    pub fn src(&self) -> Addr4
        requires { 20 ≤ length self.now.head.now }
        ensures { result.0 ≡ (ipv4_fields self.now.head.now).source }
    {
        Ipv4Header::new(self.head).src()
    }

    /// The destination address.
    pub fn dst(&self) -> Addr4
        requires { 20 ≤ length self.now.head.now }
        ensures { result.0 ≡ (ipv4_fields self.now.head.now).destination }
    {
        Ipv4Header::new(self.head).dst()
    }
}

#[cfg(test)]
mod tests {
    use super::*;

    #[test]
    fn the_parts_of_a_padded_packet_are_written_through(rt: HostRuntime) {
        let mut bytes = [
            0x45, 0, 0, 0x16, 0, 1, 0x40, 0, 0x40, 6, 0x28, 0xd0, 8, 8, 8, 8, 1, 1, 1, 1, 0xc0, 0,
            0xee,
        ];
        match view4(&mut bytes) {
            Ok(view) => {
                assert_eq!(rt; view.ttl(), 64);
                assert!(rt; view.df());
                assert!(rt; !view.mf());
                assert_eq!(rt; view.options.len(), 0);
                assert_eq!(rt; view.payload.len(), 2);
                view.head[8] = 63;
                view.payload[1] = 5;
            }
            Err(_) => assert!(rt; false, "the packet is refused"),
        }
        assert_eq!(rt; [bytes[8], bytes[21], bytes[22]], [63, 5, 0xee]);
        assert!(rt;
            view4(&mut bytes).is_err(),
            "the checksum is no longer right"
        );
    }
}
