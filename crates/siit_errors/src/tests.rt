//! An answer in each family.
use crate::{answer4, answer6};
use siit_addr::{Addr4, Addr6};
use siit_rules::Rule;
use siit_upper::{TCP, Walk};
use siit_views::PacketBuf;
use std::test::Fail;

/// From 8.8.8.8 to 192.0.2.1, with a source route, and two bytes of the link behind it.
const ROUTED: [u8; 50] = [
    0x47, 0, 0, 48, 0, 1, 0, 0, 64, 6, 0x19, 0xab, 8, 8, 8, 8, 0xc0, 0, 2, 1, 0x83, 7, 4, 1, 2, 3,
    4, 0, 0xc0, 0, 0, 80, 0, 0, 0, 1, 0, 0, 0, 0, 0x50, 2, 0x20, 0, 0xfd, 0x7f, 0, 0, 9, 9,
];

/// The headers of the ICMPv4 error from 192.0.2.254.
const HEADERS4: [u8; 28] = [
    0x45, 0, 0, 0x4c, 0, 0, 0, 0, 64, 1, 0xa7, 0xa3, 0xc0, 0, 2, 254, 8, 8, 8, 8, 3, 5, 0xcf, 0x26,
    0, 0, 0, 0,
];

/// From 64:ff9b::808:808 to 2001:db8:6464::1, with hop limit 1.
const OLD: [u8; 60] = [
    0x60, 0, 0, 0, 0, 20, 6, 1, 0, 0x64, 0xff, 0x9b, 0, 0, 0, 0, 0, 0, 0, 0, 8, 8, 8, 8, 0x20, 1,
    0x0d, 0xb8, 0x64, 0x64, 0, 0, 0, 0, 0, 0, 0, 0, 0, 1, 0xc0, 0, 0, 80, 0, 0, 0, 1, 0, 0, 0, 0,
    0x50, 2, 0x20, 0, 0x2d, 0x63, 0, 0,
];

/// The headers of the ICMPv6 error from 2001:db8:ffff::2.
const HEADERS6: [u8; 48] = [
    0x60, 0, 0, 0, 0, 0x44, 58, 64, 0x20, 1, 0x0d, 0xb8, 0xff, 0xff, 0, 0, 0, 0, 0, 0, 0, 0, 0, 2,
    0, 0x64, 0xff, 0x9b, 0, 0, 0, 0, 0, 0, 0, 0, 8, 8, 8, 8, 3, 0, 0x58, 0xbb, 0, 0, 0, 0,
];

#[test]
fn dropped_packets_are_answered(rt: HostRuntime) -> Result<(), Fail> {
    let mut buf = PacketBuf::new(rt.alloc())?;
    buf.load(&ROUTED);
    assert!(rt; answer4(&mut buf, Rule::SourceRoute4, Addr4(0xc000_02fe), 0));
    assert_eq!(rt; buf.bytes()[..28], HEADERS4[..]);
    assert_eq!(rt; buf.bytes()[28..], ROUTED[..48]);
    assert!(rt; !answer4(&mut buf, Rule::Expired4, Addr4(0xc000_02fe), 0));
    buf.load(&OLD);
    let walk = Walk {
        upper: TCP,
        at: 0,
        frag: None,
        segments: None,
    };
    let device = Addr6(0x2001_0db8_ffff_0000_0000_0000_0000_0002);
    assert!(rt; answer6(&mut buf, &walk, Rule::Expired6, device, 0));
    assert_eq!(rt; buf.bytes()[..48], HEADERS6[..]);
    assert_eq!(rt; buf.bytes()[48..], OLD[..]);
    Ok(())
}
