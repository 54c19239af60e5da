//! Packets are cut into pieces (RFC 791 section 3.2, RFC 8200 section 4.5).
ghost use Rattle.siit_fragments.specs.Fronts.{IsPlaceOf, fragment_word_on, fronted4, fronted6, word_on};
ghost use Rattle.siit_fragments.specs.Pieces.{blocks_of};
ghost use Rattle.siit_fragments.specs.Plans.{IsPiece, IsPlanFor, offset_in, plan_of};
ghost use Rattle.siit_model.specs.Bytes.{field16};
ghost use Rattle.std.specs.Prelude.{◌≡◌, ◌⊎◌, ◌+◌, ◌-◌, ◌*◌, ◌/◌, ◌%◌, ◌≤◌, ◌<◌, length, drop};

use siit_checksum::sum_of;
use siit_views::PacketBuf;
use siit_word::{get16, put16};

/// How a packet is cut. All lengths are in bytes.
#[derive(Clone, Copy, Debug, PartialEq, Eq)]
pub struct CutPlan {
    /// The length of the header that stands before each piece.
    pub header: u16,
    /// How many bytes a piece holds behind it, a multiple of 8. The last piece may hold fewer.
    pub unit: u16,
    /// How many pieces there are.
    pub count: u16,
}

/// The plan for a packet of `total` bytes that exceeds an MTU. `header` is 20 for IPv4 without options, and 48 for IPv6
/// with a Fragment header.
pub fn plan(total: u32, header: u16, mtu: u32) -> CutPlan
    requires header { (header ≡ 20) ⊎ (header ≡ 48) }
    requires room { header + 8 ≤ mtu }
    requires long { mtu < total }
    requires total { total ≤ 65575 }
    requires mtu { mtu ≤ 65535 }
    ensures value { result ≡ plan_of total header mtu }
    ensures planned { IsPlanFor total result }
{
    let unit = unit_of(header, mtu);
    let len = total - u32::from(header);
    let count = (len + (unit - 1)) / unit;
    CutPlan {
        header,
        unit: unit as u16,
        count: count as u16,
    }
}

/// Makes `out` piece k of a packet, counted from 0: the same header but for lengths, offset, More and header checksum,
/// and the bytes of this piece. They are copied once.
pub fn piece(whole: &PacketBuf, plan: &CutPlan, k: u16, out: &mut PacketBuf)
    requires planned { IsPlanFor (length whole.now.bytes) plan.now }
    requires below { k < plan.now.count }
    requires total { plan.now.header ≡ 20 → length whole.now.bytes ≤ 65535 }
    requires fits { 8 * offset_in plan.now.header whole.now.bytes + (length whole.now.bytes - plan.now.header) ≤ 65535 }
    ensures bytes { IsPiece plan.now whole.now.bytes k out.new.bytes }
    ensures front { out.new.front ≡ 256 }
{
    let bytes = whole.bytes();
    let place = place_of(bytes.len(), *plan, k);
    out.load(&bytes[place.from..place.end]);
    if plan.header == 20 {
        front4(out.bytes_mut(), &bytes[..20], place.blocks, place.last);
    } else {
        front6(out.bytes_mut(), &bytes[..48], place.blocks, place.last);
    }
}

/// The greatest multiple of 8 that fits behind a header.
fn unit_of(header: u16, mtu: u32) -> u32
    requires { header ≤ mtu }
    ensures { result ≡ 8 * blocks_of header mtu }
{
    (mtu - u32::from(header)) / 8 * 8
}

/// Where a piece lies in the whole packet.
#[derive(Clone, Copy)]
struct Place {
    /// Where its bytes begin, with those of a header before them.
    from: usize,
    /// Where they end.
    end: usize,
    /// By how many units of 8 bytes it is further on than the whole.
    blocks: u16,
    /// Whether the packet ends with it.
    last: bool,
}

/// Where piece k of a packet of `len` bytes lies.
fn place_of(len: usize, plan: CutPlan, k: u16) -> Place
    requires planned { IsPlanFor len plan }
    requires most { len ≤ 65575 }
    requires below { k < plan.count }
    ensures { IsPlaceOf len plan k result }
{
    let header = usize::from(plan.header);
    let blocks = k * (plan.unit / 8);
    let from = 8 * usize::from(blocks);
    let end = len.min(from + header + usize::from(plan.unit));
    Place {
        from,
        end,
        blocks,
        last: end == len,
    }
}

/// Puts an IPv4 header of 20 bytes before a piece, whose first 20 bytes it takes, so many units of 8 bytes further on.
fn front4(piece: &mut [u8], header: &[u8], blocks: u16, last: bool)
    requires header { length header.now ≡ 20 }
    requires room { 20 ≤ length piece.old }
    requires short { length piece.old ≤ 65535 }
    requires offset { field16 header.now 6 % 8192 + blocks < 8192 }
    ensures { let word = word_on (field16 header.now 6) blocks last in
        piece.new ≡ fronted4 header.now (length piece.old) word (drop 20 piece.old) }
{
    let len = piece.len() as u16;
    let word = get16(header, 6);
    let more = word / 0x2000 % 2 == 1 || !last;
    let marked = word / 0x4000 * 0x4000 + u16::from(more) * 0x2000 + (word % 0x2000 + blocks);
    piece[..20].copy_from_slice(header);
    put16(piece, 2, len);
    put16(piece, 6, marked);
    put16(piece, 10, 0);
    let sum = (65535 - sum_of(&piece[..20])) % 65535;
    put16(piece, 10, sum);
}

/// Puts an IPv6 header and a Fragment header, 48 bytes, before a piece, whose first 48 bytes they take.
fn front6(piece: &mut [u8], headers: &[u8], blocks: u16, last: bool)
    requires headers { length headers.now ≡ 48 }
    requires room { 48 ≤ length piece.old }
    requires short { length piece.old ≤ 65575 }
    requires offset { field16 headers.now 42 / 8 + blocks < 8192 }
    ensures { let word = fragment_word_on (field16 headers.now 42) blocks last in
        piece.new ≡ fronted6 headers.now (length piece.old - 40) word (drop 48 piece.old) }
{
    let len = (piece.len() - 40) as u16;
    let word = get16(headers, 42);
    let more = word % 2 == 1 || !last;
    let marked = 8 * (word / 8 + blocks) + u16::from(more);
    piece[..48].copy_from_slice(headers);
    put16(piece, 4, len);
    put16(piece, 42, marked);
}

#[cfg(test)]
mod tests {
    use super::*;
    use siit_word::NoMemory;

    // UDP of 1,480 bytes behind an IPv6 header and a Fragment header of identification abcd.
    #[test]
    fn a_packet_is_cut_for_1280_bytes(rt: HostRuntime) -> Result<(), NoMemory> {
        let mut packet = [7u8; 1528];
        packet[0] = 0x60;
        packet[6] = 44;
        packet[40..48].copy_from_slice(&[0x11, 0, 0, 0, 0, 0, 0xab, 0xcd]);
        let mut whole = PacketBuf::new(rt.alloc())?;
        let mut out = PacketBuf::new(rt.alloc())?;
        whole.load(&packet);
        let plan = plan(1528, 48, 1280);
        assert_eq!(rt; plan.unit, 1232);
        assert_eq!(rt; plan.count, 2);
        piece(&whole, &plan, 0, &mut out);
        assert_eq!(rt; out.bytes().len(), 1280);
        assert_eq!(rt; get16(out.bytes(), 4), 1240);
        assert_eq!(rt;
            &out.bytes()[40..48],
            [0x11, 0, 0, 1, 0, 0, 0xab, 0xcd].as_slice()
        );
        piece(&whole, &plan, 1, &mut out);
        assert_eq!(rt; out.bytes().len(), 296);
        assert_eq!(rt; get16(out.bytes(), 4), 256);
        assert_eq!(rt;
            &out.bytes()[40..48],
            [0x11, 0, 4, 0xd0, 0, 0, 0xab, 0xcd].as_slice()
        );
        Ok(())
    }
}
