//! Packets as a device makes them: one for each rule, and worked ones.
ghost use Rattle.siit_roles.specs.Limits.{IsWithinLimits};
ghost use Rattle.std.specs.Prelude.{◌≤◌, length, IfOk};

use crate::Engine;
use siit_addr::{Addr4, Addr6, Prefix4, Prefix6};
use siit_chain::{Device, End, Verdict};
use siit_eamt::{Eam, Eamt};
use siit_map::Mapping;
use siit_rfc6052::Embed;
use siit_roles::{Pool4, Role, Settings};
use siit_rules::{Family, Rule};
use siit_views::PacketBuf;
use std::alloc::{AllocError, Global};
use std::process::Abort;
use std::test::Fail;

/// A device of the tests.
#[derive(Clone, Copy)]
enum Kind {
    Border,
    /// A border that computes UDP checksums.
    Computing,
    /// A border with a pool of two addresses.
    Pool,
    Edge,
    Customer,
}

/// A rule, the device that drops the packet by it, the packet's length, whether it is answered, and its bytes, behind
/// which zeros follow.
type Row = (Rule, Kind, usize, bool, &'static str);

/// A packet for each rule on IPv4 arrival: the device, its length, and whether it is answered.
const ROWS4: &[Row] = &[
    (
        Rule::Short4,
        Kind::Border,
        39,
        false,
        "45000028 00010000 4006a8be 08080808 c0000201 c0000050 00000001 00000000 50022000 fd7f00",
    ),
    (
        Rule::BadHeader4,
        Kind::Border,
        40,
        false,
        "45000028 00010000 40061234 08080808 c0000201 c0000050 00000001 00000000 50022000 fd7f0000",
    ),
    (
        Rule::BadSource4,
        Kind::Border,
        40,
        false,
        "45000028 00010000 40061bcd 7f000001 e0000001 c0000050 00000001 00000000 50022000 fd7f0000",
    ),
    (
        Rule::BadDestination4,
        Kind::Border,
        32,
        false,
        "45000020 00012000 40066ac6 08080808 e0000001 c0000050 00000001 00000000",
    ),
    (
        Rule::FragmentShape4,
        Kind::Border,
        32,
        false,
        "45000020 00012000 0106c7c6 08080808 c0000201 c0000050 00000001 00000000",
    ),
    (
        Rule::Expired4,
        Kind::Border,
        48,
        true,
        "47000030 00010000 010658ab 08080808 c0000201 83070401 02030400 c0000050 00000001 00000000 \
        50022000 fd7f0000",
    ),
    (
        Rule::SourceRoute4,
        Kind::Border,
        48,
        true,
        "47000030 00010000 400219af 08080808 c0000201 83070401 02030400 c0000050 00000001 00000000 \
        50022000 fd7f0000",
    ),
    (
        Rule::Igmp4,
        Kind::Border,
        28,
        false,
        "4500001c 00010000 4002a8ce 08080808 c0000201 c0000050 00000001",
    ),
    (
        Rule::ProtocolClash4,
        Kind::Border,
        20,
        true,
        "45000014 00010000 403aa89e 08080808 c0000201",
    ),
    (
        Rule::UpperShort4,
        Kind::Border,
        39,
        false,
        "45000027 00010000 4006a8bf 08080808 c0000201 c0000050 00000001 00000000 50022000 fd7f00",
    ),
    (
        Rule::IcmpFragment4,
        Kind::Border,
        28,
        false,
        "4500001c 00012000 400188cf 08080808 c0000201 0d00f2ff 00000000",
    ),
    (
        Rule::UdpZeroFragment4,
        Kind::Border,
        28,
        false,
        "4500001c 00012000 401188bf 08080808 c0000201 10000035 00080000",
    ),
    (
        Rule::UdpZero4,
        Kind::Border,
        28,
        false,
        "4500001c 00010000 4011a8bf 08080808 c0000201 10000035 00090000",
    ),
    (
        Rule::UdpLength4,
        Kind::Computing,
        28,
        false,
        "4500001c 00010000 4011aecd 0a000002 c0000201 10000035 00090000",
    ),
    (
        Rule::IcmpType4,
        Kind::Border,
        28,
        false,
        "4500001c 00010000 4001a8cf 08080808 c0000201 0d0ef2f1 00000000",
    ),
    (
        Rule::IcmpCode4,
        Kind::Border,
        28,
        false,
        "4500001c 00010000 4001a8cf 08080808 c0000201 030efcf1 00000000",
    ),
    (
        Rule::IcmpPointer4,
        Kind::Border,
        28,
        false,
        "4500001c 00010000 4001a8cf 08080808 c0000201 0c00efff 04000000",
    ),
    (
        Rule::RoleSource4,
        Kind::Edge,
        40,
        true,
        "45000028 00010000 4006aecc 0a000002 c0000201 c0000050 00000001 00000000 50022000 fd7f0000",
    ),
    (
        Rule::RoleDestination4,
        Kind::Customer,
        40,
        true,
        "45000028 00010000 4006f769 c0a8010a c0a8010b c0000050 00000001 00000000 50022000 fd7f0000",
    ),
    (
        Rule::SourceMap4,
        Kind::Border,
        40,
        true,
        "45000028 00010000 400666cb 0a000002 0a000003 c0000050 00000001 00000000 50022000 fd7f0000",
    ),
    (
        Rule::DestinationMap4,
        Kind::Border,
        28,
        false,
        "4500001c 00010000 400160ce 08080808 0a000003 0303fcfc 00000000",
    ),
    (
        Rule::QuoteShort4,
        Kind::Border,
        47,
        false,
        "4500002f 00010000 4001a8bc 08080808 c0000201 0303fd04 00000000 4500001c 00010000 4011a8bf \
        c0000201 080808",
    ),
    (
        Rule::QuoteBad4,
        Kind::Border,
        56,
        false,
        "45000038 00010000 4001a8b3 08080808 c0000201 0303dcfc 00000000 6500001c 00010000 4001a8cf \
        c0000201 08080808 0301fcfe 00000000",
    ),
    (
        Rule::NestedTwice4,
        Kind::Border,
        56,
        false,
        "45000038 00010000 4001a8b3 08080808 c0000201 0303fcfc 00000000 4500001c 00010000 400160cf \
        0a000002 08080808 0301fcfe 00000000",
    ),
    (
        Rule::QuoteType4,
        Kind::Border,
        56,
        false,
        "45000038 00010000 4001a8b3 08080808 c0000201 0303ecbf 00000000 4500001c 00010000 400260ce \
        0a000002 08080808 10000035 00080000",
    ),
    (
        Rule::QuoteAddress4,
        Kind::Border,
        56,
        false,
        "45000038 00010000 4001a8b3 08080808 c0000201 0303ecbf 00000000 4500001c 00010000 401160bf \
        0a000002 08080808 10000035 00080000",
    ),
    (
        Rule::TooBig4,
        Kind::Border,
        1481,
        true,
        "450005c9 00014000 4006631d 08080808 c0000201 c0000050 00000001 00000000 50022000 fd7f",
    ),
];

/// The same on IPv6 arrival.
const ROWS6: &[Row] = &[
    (
        Rule::Short6,
        Kind::Border,
        59,
        false,
        "60000000 00140640 20010db8 64640000 00000000 00000001 0064ff9b 00000000 00000000 08080808 \
        c0000050 00000001 00000000 50022000 fd7f00",
    ),
    (
        Rule::BadHeader6,
        Kind::Border,
        60,
        false,
        "50000000 00140640 00000000 00000000 00000000 00000000 0064ff9b 00000000 00000000 08080808 \
        c0000050 00000001 00000000 50022000 fd7f0000",
    ),
    (
        Rule::BadSource6,
        Kind::Border,
        60,
        false,
        "60000000 00140640 fe800000 00000000 00000000 00000001 00000000 00000000 00000000 00000001 \
        c0000050 00000001 00000000 50022000 fd7f0000",
    ),
    (
        Rule::BadDestination6,
        Kind::Border,
        48,
        false,
        "60000000 00083c40 20010db8 64640000 00000000 00000001 ff020000 00000000 00000000 00000001 \
        06010000 00000000",
    ),
    (
        Rule::ShortExt6,
        Kind::Border,
        48,
        false,
        "60000000 00083c40 20010db8 64640000 00000000 00000001 0064ff9b 00000000 00000000 08080808 \
        00010000 00000000",
    ),
    (
        Rule::ExtOrder6,
        Kind::Border,
        68,
        false,
        "60000000 001c3c40 20010db8 64640000 00000000 00000001 0064ff9b 00000000 00000000 08080808 \
        00000000 00000000 c0000050 00000001 00000000 50022000 fd7f0000",
    ),
    (
        Rule::ExtAfterFragment6,
        Kind::Border,
        60,
        false,
        "60000000 00142c40 20010db8 64640000 00000000 00000001 0064ff9b 00000000 00000000 08080808 \
        3c000001 00000007 c0000050 00000001 00000000",
    ),
    (
        Rule::FragmentShape6,
        Kind::Border,
        60,
        false,
        "60000000 00142c01 20010db8 64640000 00000000 00000001 0064ff9b 00000000 00000000 08080808 \
        06000001 00000007 c0000050 00000001 00000000",
    ),
    (
        Rule::Expired6,
        Kind::Border,
        68,
        true,
        "60000000 001c2b01 20010db8 64640000 00000000 00000001 0064ff9b 00000000 00000000 08080808 \
        06000001 00000000 c0000050 00000001 00000000 50022000 fd7f0000",
    ),
    (
        Rule::SegmentsLeft6,
        Kind::Border,
        68,
        true,
        "60000000 001c2b40 20010db8 64640000 00000000 00000001 0064ff9b 00000000 00000000 08080808 \
        01000001 00000000 c0000050 00000001 00000000 50022000 fd7f0000",
    ),
    (
        Rule::ProtocolClash6,
        Kind::Border,
        40,
        true,
        "60000000 00000140 20010db8 64640000 00000000 00000001 0064ff9b 00000000 00000000 08080808",
    ),
    (
        Rule::UpperShort6,
        Kind::Border,
        64,
        false,
        "60000000 00182c40 20010db8 64640000 00000000 00000001 0064ff9b 00000000 00000000 08080808 \
        06000001 00000007 c0000050 00000001 00000000 50022000",
    ),
    (
        Rule::IcmpFragment6,
        Kind::Border,
        56,
        false,
        "60000000 00102c40 20010db8 64640000 00000000 00000001 0064ff9b 00000000 00000000 08080808 \
        3a000001 00000007 8200db8e 00000000",
    ),
    (
        Rule::IcmpType6,
        Kind::Border,
        48,
        false,
        "60000000 00083a40 20010db8 64640000 00000000 00000001 0064ff9b 00000000 00000000 08080808 \
        8200db8e 00000000",
    ),
    (
        Rule::IcmpCode6,
        Kind::Border,
        48,
        false,
        "60000000 00083a40 20010db8 64640000 00000000 00000001 0064ff9b 00000000 00000000 08080808 \
        01055c8a 00000000",
    ),
    (
        Rule::IcmpPointer6,
        Kind::Border,
        48,
        false,
        "60000000 00083a40 20010db8 64640000 00000000 00000001 0064ff9b 00000000 00000000 08080808 \
        04005967 00000028",
    ),
    (
        Rule::RoleSource6,
        Kind::Customer,
        60,
        true,
        "60000000 00140640 20010db8 c1a70000 00000000 c0a8010a 20010db8 00000000 00000000 00000002 \
        c0000050 00000001 00000000 50022000 fd7f0000",
    ),
    (
        Rule::RoleDestination6,
        Kind::Edge,
        60,
        true,
        "60000000 00140640 20010db8 00000000 00000000 00000001 20010db8 00000000 00000000 00000002 \
        c0000050 00000001 00000000 50022000 fd7f0000",
    ),
    (
        Rule::SourceMap6,
        Kind::Border,
        60,
        true,
        "60000000 00140640 20010db8 00000000 00000000 00000001 20010db8 00000000 00000000 00000002 \
        c0000050 00000001 00000000 50022000 fd7f0000",
    ),
    (
        Rule::DestinationMap6,
        Kind::Border,
        48,
        false,
        "60000000 00083a40 20010db8 00000000 00000000 00000001 20010db8 00000000 00000000 00000002 \
        01045c8b 00000000",
    ),
    (
        Rule::HairpinSource6,
        Kind::Border,
        48,
        false,
        "60000000 00083a40 20010db8 000a0000 00000000 00000001 0064ff9b 00000000 00000000 c6290004 \
        01045c8b 00000000",
    ),
    (
        Rule::QuoteShort6,
        Kind::Border,
        87,
        false,
        "60000000 002f3a40 20010db8 64640000 00000000 00000001 0064ff9b 00000000 00000000 08080808 \
        010448ee 00000000 60000000 00081140 0064ff9b 00000000 00000000 08080808 20010db8 64640000 \
        00000000 000000",
    ),
    (
        Rule::QuoteBad6,
        Kind::Border,
        96,
        false,
        "60000000 00383a40 20010db8 64640000 00000000 00000001 0064ff9b 00000000 00000000 08080808 \
        0104dd54 00000000 45000000 00083a40 0064ff9b 00000000 00000000 08080808 20010db8 64640000 \
        00000000 00000001 01015c8e 00000000",
    ),
    (
        Rule::NestedTwice6,
        Kind::Border,
        96,
        false,
        "60000000 00383a40 20010db8 64640000 00000000 00000001 0064ff9b 00000000 00000000 08080808 \
        0104a4aa 00000000 60000000 00083a40 20010db8 00000000 00000000 00000001 20010db8 64640000 \
        00000000 00000001 01015c8e 00000000",
    ),
    (
        Rule::QuoteType6,
        Kind::Border,
        88,
        false,
        "60000000 00303a40 20010db8 64640000 00000000 00000001 0064ff9b 00000000 00000000 08080808 \
        01043b4a 00000000 60000000 00000140 20010db8 00000000 00000000 00000001 20010db8 64640000 \
        00000000 00000001",
    ),
    (
        Rule::QuoteAddress6,
        Kind::Border,
        96,
        false,
        "60000000 00383a40 20010db8 64640000 00000000 00000001 0064ff9b 00000000 00000000 08080808 \
        01041afd 00000000 60000000 00081140 20010db8 00000000 00000000 00000001 20010db8 64640000 \
        00000000 00000001 10000035 00080000",
    ),
    (
        Rule::TooBig6,
        Kind::Border,
        1521,
        true,
        "60000000 05c90640 20010db8 64640000 00000000 00000001 0064ff9b 00000000 00000000 08080808 \
        c0000050 00000001 00000000 50022000 fd7f",
    ),
];

/// A device, the side of arrival, the number that is handed in, the packet, the verdict, and what is in the buffer
/// then.
type Worked = (Kind, End, u16, &'static str, Verdict, &'static str);

/// Worked packets.
const WORKED: &[Worked] = &[
    // A TCP segment crosses a border and an edge.
    (
        Kind::Border,
        End::Left,
        0,
        "45000028 00014000 400668be 08080808 c0000201 c0000050 00000001 00000000 50022000 fd7f0000",
        Verdict::Through { used: false },
        "60000000 0014063f 0064ff9b 00000000 00000000 08080808 20010db8 64640000 00000000 00000001 \
         c0000050 00000001 00000000 50022000 2d630000",
    ),
    (
        Kind::Edge,
        End::Right,
        1,
        "60000000 0014063f 0064ff9b 00000000 00000000 08080808 20010db8 64640000 00000000 00000001 \
         c0000050 00000001 00000000 50022000 2d630000",
        Verdict::Through { used: true },
        "45000028 00010000 3e06aabe 08080808 c0000201 c0000050 00000001 00000000 50022000 fd7f0000",
    ),
    // A wrong checksum stays wrong by as much.
    (
        Kind::Border,
        End::Left,
        0,
        "45000028 00014000 400668be 08080808 c0000201 c0000050 00000001 00000000 50022000 12340000",
        Verdict::Through { used: false },
        "60000000 0014063f 0064ff9b 00000000 00000000 08080808 20010db8 64640000 00000000 00000001 \
         c0000050 00000001 00000000 50022000 42170000",
    ),
    (
        Kind::Edge,
        End::Right,
        1,
        "60000000 0014063f 0064ff9b 00000000 00000000 08080808 20010db8 64640000 00000000 00000001 \
         c0000050 00000001 00000000 50022000 42170000",
        Verdict::Through { used: true },
        "45000028 00010000 3e06aabe 08080808 c0000201 c0000050 00000001 00000000 50022000 12340000",
    ),
    // Port unreachable.
    (
        Kind::Border,
        End::Left,
        0,
        "45000038 00010000 4001a8b3 08080808 c0000201 0303dba2 00000000 45000028 00004000 3f1169b4 \
         c0000201 08080808 00351000 00141111",
        Verdict::Through { used: false },
        "60000000 00383a3f 0064ff9b 00000000 00000000 08080808 20010db8 64640000 00000000 00000001 \
         0104f79b 00000000 60000000 0014113f 20010db8 64640000 00000000 00000001 0064ff9b 00000000 \
         00000000 08080808 00351000 001440f4",
    ),
    // Time exceeded with an extension, which comes back byte for byte.
    (
        Kind::Border,
        End::Left,
        0,
        "450000a8 00010000 4001a843 08080808 c0000201 0b00c70b 00200000 45000028 00014000 400668be \
         08080808 c0000201 c0000050 00000001 00000000 50022000 fd7f0000 00000000 00000000 00000000 \
         00000000 00000000 00000000 00000000 00000000 00000000 00000000 00000000 00000000 00000000 \
         00000000 00000000 00000000 00000000 00000000 00000000 00000000 00000000 00000000 2000ddf4 \
         00080101 00010101",
        Verdict::Through { used: false },
        "60000000 00943a3f 0064ff9b 00000000 00000000 08080808 20010db8 64640000 00000000 00000001 \
         0300e3c8 10000000 60000000 00140640 0064ff9b 00000000 00000000 08080808 20010db8 64640000 \
         00000000 00000001 c0000050 00000001 00000000 50022000 2d630000 00000000 00000000 00000000 \
         00000000 00000000 00000000 00000000 00000000 00000000 00000000 00000000 00000000 00000000 \
         00000000 00000000 00000000 00000000 2000ddf4 00080101 00010101",
    ),
    (
        Kind::Edge,
        End::Right,
        1,
        "60000000 00943a3f 0064ff9b 00000000 00000000 08080808 20010db8 64640000 00000000 00000001 \
         0300e3c8 10000000 60000000 00140640 0064ff9b 00000000 00000000 08080808 20010db8 64640000 \
         00000000 00000001 c0000050 00000001 00000000 50022000 2d630000 00000000 00000000 00000000 \
         00000000 00000000 00000000 00000000 00000000 00000000 00000000 00000000 00000000 00000000 \
         00000000 00000000 00000000 00000000 2000ddf4 00080101 00010101",
        Verdict::Through { used: true },
        "450000a8 00010000 3e01aa43 08080808 c0000201 0b00c70b 00200000 45000028 00000000 4006a8bf \
         08080808 c0000201 c0000050 00000001 00000000 50022000 fd7f0000 00000000 00000000 00000000 \
         00000000 00000000 00000000 00000000 00000000 00000000 00000000 00000000 00000000 00000000 \
         00000000 00000000 00000000 00000000 00000000 00000000 00000000 00000000 00000000 2000ddf4 \
         00080101 00010101",
    ),
    // An ICMPv6 error without a mapping comes from the pool's second address, and from its first.
    (
        Kind::Pool,
        End::Right,
        1,
        "60000000 00443a40 20010db8 ffff0000 00000000 00000002 0064ff9b 00000000 00000000 08080808 \
         030058bb 00000000 60000000 00140601 0064ff9b 00000000 00000000 08080808 20010db8 64640000 \
         00000000 00000001 c0000050 00000001 00000000 50022000 2d630000",
        Verdict::Through { used: true },
        "45000044 00010000 3f01a8ad c00002fb 08080808 0b00c72b 00000000 45000028 00000000 0106e7bf \
         08080808 c0000201 c0000050 00000001 00000000 50022000 fd7f0000",
    ),
    (
        Kind::Pool,
        End::Right,
        2,
        "60000000 00443a40 20010db8 ffff0000 00000000 00000002 0064ff9b 00000000 00000000 08080808 \
         030058bb 00000000 60000000 00140601 0064ff9b 00000000 00000000 08080808 20010db8 64640000 \
         00000000 00000001 c0000050 00000001 00000000 50022000 2d630000",
        Verdict::Through { used: true },
        "45000044 00020000 3f01a8ad c00002fa 08080808 0b00c72b 00000000 45000028 00000000 0106e7bf \
         08080808 c0000201 c0000050 00000001 00000000 50022000 fd7f0000",
    ),
];

/// The bytes of hexadecimal digits, with spaces between them, and zeros behind them up to a length.
fn bytes_of(alloc: Global, text: &str, len: usize) -> Result<Vec<u8>, AllocError> {
    let mut bytes = Vec::new(alloc);
    let mut high = None;
    for c in text.chars() {
        let Some(digit) = c.to_digit(16) else {
            continue;
        };
        match high {
            None => high = Some(digit),
            Some(other) => {
                bytes.push((other % 16 * 16 + digit % 16) as u8)?;
                high = None;
            }
        }
    }
    for _ in bytes.len()..len {
        bytes.push(0)?;
    }
    Ok(bytes)
}

fn entry(a: u32, x: u128) -> Eam {
    Eam {
        p4: Prefix4 {
            addr: Addr4(a),
            len: 32,
        },
        p6: prefix(x, 128),
    }
}

fn prefix(x: u128, len: u8) -> Prefix6
    requires { len ≤ 128 }
{
    Prefix6 {
        addr: Addr6(x),
        len,
    }
}

/// Three hosts, of which the second has a private IPv4 address, and all else under the well-known prefix.
fn table(alloc: Global) -> Result<Mapping, Fail> {
    let entries = [
        entry(0xc000_0201, 0x2001_0db8_6464_0000_0000_0000_0000_0001),
        entry(0x0a00_0001, 0x2001_0db8_000a_0000_0000_0000_0000_0001),
        entry(0xc629_0004, 0x2001_0db8_000b_0000_0000_0000_0000_0004),
    ];
    let eamt = Eamt::build(alloc, &entries)?;
    let embed = Embed::new(prefix(0x0064_ff9b_0000_0000_0000_0000_0000_0000, 96))?;
    Ok(Mapping::table(eamt, embed))
}

/// 192.168.1.0/24 under a prefix of its own, and all else under the provider's.
fn network() -> Result<Mapping, Fail> {
    let local4 = Prefix4 {
        addr: Addr4(0xc0a8_0100),
        len: 24,
    };
    let local6 = Embed::new(prefix(0x2001_0db8_c1a7_0000_0000_0000_0000_0000, 96))?;
    let provider = Embed::new(prefix(0x2001_0db8_0064_0064_0000_0000_0000_0000, 64))?;
    Ok(Mapping::customer(local4, local6, provider))
}

/// The settings of a device of the tests: all else by default.
fn settings(alloc: Global, kind: Kind) -> Result<Settings, Fail>
    ensures { IfOk result IsWithinLimits }
{
    let role = match kind {
        Kind::Edge => Role::Edge,
        Kind::Customer => Role::Customer,
        _ => Role::Border,
    };
    let mapping = match kind {
        Kind::Customer => network()?,
        _ => table(alloc)?,
    };
    let pool = match kind {
        Kind::Pool => vec![in alloc; Addr4(0xc000_02fa), Addr4(0xc000_02fb)]?,
        _ => vec![in alloc; Addr4(0xc000_02fe)]?,
    };
    Ok(Settings {
        role,
        mapping,
        address4: Addr4(0xc000_02fe),
        address6: Addr6(0x2001_0db8_ffff_0000_0000_0000_0000_0001),
        pool4: Pool4::new(pool),
        mtu4: 1500,
        mtu6: 1500,
        lowest: 1280,
        tos_zero: false,
        udp_compute: matches!(kind, Kind::Computing),
        hairpin: true,
    })
}

/// What a device makes of a packet that arrives on a side, and what its buffer holds then.
fn made(
    alloc: Global,
    kind: Kind,
    end: End,
    ident: u16,
    packet: &[u8],
) -> Result<(Verdict, PacketBuf), Fail>
    requires { length packet.now ≤ 65575 }
{
    let device = Engine::new(settings(alloc, kind)?, Family::Four);
    let mut buf = PacketBuf::new(alloc)?;
    buf.load(packet);
    let verdict = Device::translate(&device, end, &mut buf, ident);
    Ok((verdict, buf))
}

fn check_rows(rt: &impl Abort, alloc: Global, end: End, rows: &[Row]) -> Result<(), Fail> {
    for (rule, kind, len, answered, text) in rows {
        let packet = bytes_of(alloc, text, *len)?;
        assert!(rt; packet.len() <= 2000);
        let (verdict, _) = made(alloc, *kind, end, 1, &packet)?;
        let dropped = Verdict::Dropped {
            rule: *rule,
            answered: *answered,
        };
        assert_eq!(rt; verdict, dropped);
    }
    Ok(())
}

#[test]
fn each_rule_has_a_packet(rt: HostRuntime) -> Result<(), Fail> {
    check_rows(&rt, rt.alloc(), End::Left, ROWS4)?;
    check_rows(&rt, rt.alloc(), End::Right, ROWS6)
}

#[test]
fn worked_packets_are_made(rt: HostRuntime) -> Result<(), Fail> {
    for (kind, end, ident, before, verdict, after) in WORKED {
        let packet = bytes_of(rt.alloc(), before, 0)?;
        assert!(rt; packet.len() <= 2000);
        let (found, buf) = made(rt.alloc(), *kind, *end, *ident, &packet)?;
        assert_eq!(rt; found, *verdict);
        let want = bytes_of(rt.alloc(), after, 0)?;
        assert_eq!(rt; buf.bytes(), want.as_slice());
    }
    Ok(())
}
