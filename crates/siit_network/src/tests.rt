//! A border and an edge, over two short captures.
ghost use Rattle.siit_roles.specs.Limits.{IsWithinLimits};
ghost use Rattle.std.specs.Prelude.{◌≡◌, ◌≤◌, All, IfOk, length};

use crate::carry_captures;
use siit_addr::{Addr4, Addr6, Prefix4, Prefix6};
use siit_capture::CaptureFault;
use siit_chain::{Counts, End, Outs};
use siit_eamt::{Eam, Eamt};
use siit_map::Mapping;
use siit_rfc6052::Embed;
use siit_roles::{ChainSettings, Pool4, Role, Settings};
use siit_rules::Family;
use siit_running::{Inputs, RunCounts, RunFault};
use siit_word::{Counter, MemFiles};
use std::alloc::Global;
use std::test::Fail;

const INPUTS: Inputs<'static> = Inputs {
    left: Some("left.pcap"),
    right: Some("right.pcap"),
};

const OUTS: Outs<'static> = Outs {
    left: Some("left.out"),
    right: Some("right.out"),
    report: Some("report"),
};

// A TCP segment from 8.8.8.8 to 192.0.2.1, at 5 seconds, and one byte of an IPv4 packet, at 9 seconds.
const LEFT: [u8; 97] = [
    0x4d, 0x3c, 0xb2, 0xa1, 0x02, 0x00, 0x04, 0x00, 0x00, 0x00, 0x00, 0x00, 0x00, 0x00, 0x00, 0x00,
    0x00, 0x00, 0x04, 0x00, 0x65, 0x00, 0x00, 0x00, 0x05, 0x00, 0x00, 0x00, 0x07, 0x00, 0x00, 0x00,
    0x28, 0x00, 0x00, 0x00, 0x28, 0x00, 0x00, 0x00, 0x45, 0x00, 0x00, 0x28, 0x00, 0x01, 0x40, 0x00,
    0x40, 0x06, 0x68, 0xbe, 0x08, 0x08, 0x08, 0x08, 0xc0, 0x00, 0x02, 0x01, 0xc0, 0x00, 0x00, 0x50,
    0x00, 0x00, 0x00, 0x01, 0x00, 0x00, 0x00, 0x00, 0x50, 0x02, 0x20, 0x00, 0xfd, 0x7f, 0x00, 0x00,
    0x09, 0x00, 0x00, 0x00, 0x00, 0x00, 0x00, 0x00, 0x01, 0x00, 0x00, 0x00, 0x01, 0x00, 0x00, 0x00,
    0x45,
];

// The segment that answers, at 6 seconds.
const RIGHT: [u8; 80] = [
    0x4d, 0x3c, 0xb2, 0xa1, 0x02, 0x00, 0x04, 0x00, 0x00, 0x00, 0x00, 0x00, 0x00, 0x00, 0x00, 0x00,
    0x00, 0x00, 0x04, 0x00, 0x65, 0x00, 0x00, 0x00, 0x06, 0x00, 0x00, 0x00, 0x01, 0x00, 0x00, 0x00,
    0x28, 0x00, 0x00, 0x00, 0x28, 0x00, 0x00, 0x00, 0x45, 0x00, 0x00, 0x28, 0x00, 0x4d, 0x40, 0x00,
    0x40, 0x06, 0x68, 0x72, 0xc0, 0x00, 0x02, 0x01, 0x08, 0x08, 0x08, 0x08, 0x00, 0x50, 0xc0, 0x00,
    0x00, 0x00, 0x00, 0x09, 0x00, 0x00, 0x00, 0x00, 0x50, 0x12, 0x20, 0x00, 0xfd, 0x67, 0x00, 0x00,
];

// It leaves with two hops less and the first number of the border.
const LEFT_OUT: [u8; 80] = [
    0x4d, 0x3c, 0xb2, 0xa1, 0x02, 0x00, 0x04, 0x00, 0x00, 0x00, 0x00, 0x00, 0x00, 0x00, 0x00, 0x00,
    0x00, 0x00, 0x04, 0x00, 0x65, 0x00, 0x00, 0x00, 0x06, 0x00, 0x00, 0x00, 0x01, 0x00, 0x00, 0x00,
    0x28, 0x00, 0x00, 0x00, 0x28, 0x00, 0x00, 0x00, 0x45, 0x00, 0x00, 0x28, 0x00, 0x01, 0x00, 0x00,
    0x3e, 0x06, 0xaa, 0xbe, 0xc0, 0x00, 0x02, 0x01, 0x08, 0x08, 0x08, 0x08, 0x00, 0x50, 0xc0, 0x00,
    0x00, 0x00, 0x00, 0x09, 0x00, 0x00, 0x00, 0x00, 0x50, 0x12, 0x20, 0x00, 0xfd, 0x67, 0x00, 0x00,
];

// The first segment leaves with two hops less and the first number of the edge.
const RIGHT_OUT: [u8; 80] = [
    0x4d, 0x3c, 0xb2, 0xa1, 0x02, 0x00, 0x04, 0x00, 0x00, 0x00, 0x00, 0x00, 0x00, 0x00, 0x00, 0x00,
    0x00, 0x00, 0x04, 0x00, 0x65, 0x00, 0x00, 0x00, 0x05, 0x00, 0x00, 0x00, 0x07, 0x00, 0x00, 0x00,
    0x28, 0x00, 0x00, 0x00, 0x28, 0x00, 0x00, 0x00, 0x45, 0x00, 0x00, 0x28, 0x00, 0x01, 0x00, 0x00,
    0x3e, 0x06, 0xaa, 0xbe, 0x08, 0x08, 0x08, 0x08, 0xc0, 0x00, 0x02, 0x01, 0xc0, 0x00, 0x00, 0x50,
    0x00, 0x00, 0x00, 0x01, 0x00, 0x00, 0x00, 0x00, 0x50, 0x02, 0x20, 0x00, 0xfd, 0x7f, 0x00, 0x00,
];

// The end line: two records were read from the left and one from the right, one packet left at each end, and one was
// dropped.
const REPORT: &str = "L 2 1 10 Short4 silent\nend 2 1 1 1 1\n";

fn prefix(x: u128, len: u8) -> Prefix6
    requires { len ≤ 128 }
{
    Prefix6 {
        addr: Addr6(x),
        len,
    }
}

/// A device with one host in its table, 192.0.2.1.
fn settings(alloc: Global, role: Role) -> Result<Settings, Fail>
    ensures { IfOk result IsWithinLimits }
{
    let entries = [Eam {
        p4: Prefix4 {
            addr: Addr4(0xc000_0201),
            len: 32,
        },
        p6: prefix(0x2001_0db8_000a_0000_0000_0000_0000_0001, 128),
    }];
    let eamt = Eamt::build(alloc, &entries)?;
    let embed = Embed::new(prefix(0x2001_0db8_0046_0000_0000_0000_0000_0000, 96))?;
    Ok(Settings {
        role,
        mapping: Mapping::table(eamt, embed),
        address4: Addr4(0xc000_02fe),
        address6: Addr6(0x2001_0db8_ffff_0000_0000_0000_0000_0001),
        pool4: Pool4::new(vec![in alloc; Addr4(0xc000_02fe)]?),
        mtu4: 1500,
        mtu6: 1500,
        lowest: 1280,
        tos_zero: false,
        udp_compute: false,
        hairpin: true,
    })
}

/// An IPv4 link, a border, an IPv6 link, an edge, and an IPv4 link.
fn pair(alloc: Global) -> Result<ChainSettings, Fail>
    ensures limits { IfOk result (λ pair. All IsWithinLimits pair.devices) }
    ensures two { IfOk result (λ pair. length pair.devices ≡ 2) }
{
    let border = settings(alloc, Role::Border)?;
    let edge = settings(alloc, Role::Edge)?;
    let mut devices = Vec::new(alloc);
    devices.push(border)?;
    devices.push(edge)?;
    Ok(ChainSettings::new(Family::Four, devices))
}

fn captures(alloc: Global) -> Result<MemFiles, Fail> {
    let mut files = MemFiles::new(alloc);
    files.put("left.pcap", &LEFT)?;
    files.put("right.pcap", &RIGHT)?;
    files.put("left.out", &[1, 2, 3])?;
    Ok(files)
}

/// What was in an output before is gone.
#[test]
fn segments_cross_both_ways(rt: HostRuntime) -> Result<(), Fail> {
    let alloc = rt.alloc();
    let mut files = captures(alloc)?;
    let counts = carry_captures(
        alloc,
        pair(alloc)?,
        INPUTS,
        OUTS,
        &mut files,
        &mut Counter::new(),
    )?;
    let written = Counts {
        left: 1,
        right: 1,
        dropped: 1,
    };
    assert_eq!(rt;
        counts,
        RunCounts {
            left_read: 2,
            right_read: 1,
            written
        }
    );
    assert_eq!(rt; files.bytes_of("left.out").unwrap_or(&[]), &LEFT_OUT[..]);
    assert_eq!(rt; files.bytes_of("right.out").unwrap_or(&[]), &RIGHT_OUT[..]);
    assert_eq!(rt; files.bytes_of("report").unwrap_or(&[]), REPORT.as_bytes());
    Ok(())
}

/// Without captures the outputs hold no records, and where no output is named nothing is written.
#[test]
fn captures_and_outputs_may_be_left_out(rt: HostRuntime) -> Result<(), Fail> {
    let alloc = rt.alloc();
    let mut files = captures(alloc)?;
    let none = Inputs {
        left: None,
        right: None,
    };
    let counts = carry_captures(
        alloc,
        pair(alloc)?,
        none,
        OUTS,
        &mut files,
        &mut Counter::new(),
    )?;
    assert_eq!(rt; (counts.left_read, counts.right_read), (0, 0));
    assert_eq!(rt; files.bytes_of("left.out").unwrap_or(&[]), &LEFT_OUT[..24]);
    assert_eq!(rt;
        files.bytes_of("right.out").unwrap_or(&[]),
        &RIGHT_OUT[..24]
    );
    assert_eq!(rt;
        files.bytes_of("report").unwrap_or(&[]),
        &b"end 0 0 0 0 0\n"[..]
    );

    let mut files = captures(alloc)?;
    let nowhere = Outs {
        left: None,
        right: None,
        report: None,
    };
    let counts = carry_captures(
        alloc,
        pair(alloc)?,
        INPUTS,
        nowhere,
        &mut files,
        &mut Counter::new(),
    )?;
    assert_eq!(rt; (counts.left_read, counts.right_read), (2, 1));
    assert_eq!(rt; files.bytes_of("left.out").unwrap_or(&[]), &[1, 2, 3][..]);
    assert!(rt; files.bytes_of("report").is_none());
    Ok(())
}

/// The second record of the left capture is cut off, which is seen once the first one was carried.
#[test]
fn a_cut_record_is_told(rt: HostRuntime) -> Result<(), Fail> {
    let alloc = rt.alloc();
    let mut files = captures(alloc)?;
    files.put("left.pcap", &LEFT[..90])?;
    let result = carry_captures(
        alloc,
        pair(alloc)?,
        INPUTS,
        OUTS,
        &mut files,
        &mut Counter::new(),
    );
    assert_eq!(rt;
        result,
        Err(RunFault::BadCapture {
            end: End::Left,
            place: 80,
            fault: CaptureFault::CutRecord
        })
    );
    assert_eq!(rt; files.bytes_of("right.out").unwrap_or(&[]), &RIGHT_OUT[..]);
    Ok(())
}

/// Each call of the files fails in turn: it is told, and each output holds a part of what it is to hold.
#[test]
fn faults_are_told(rt: HostRuntime) -> Result<(), Fail> {
    let alloc = rt.alloc();
    let faults = [
        // The outputs are made, and their heads are written.
        RunFault::WriteFault,
        RunFault::WriteFault,
        RunFault::WriteFault,
        RunFault::WriteFault,
        RunFault::WriteFault,
        // Both captures are read.
        RunFault::ReadFault(End::Left),
        RunFault::ReadFault(End::Right),
        // The first record of each goes through, and the right one is found to be the last.
        RunFault::WriteFault,
        RunFault::WriteFault,
        RunFault::ReadFault(End::Right),
        // The second left one is dropped, and found to be the last. The end line is written.
        RunFault::WriteFault,
        RunFault::ReadFault(End::Left),
        RunFault::WriteFault,
    ];
    for (call, fault) in (0..).zip(faults) {
        let mut files = captures(alloc)?;
        files.fail_at(&[call])?;
        let result = carry_captures(
            alloc,
            pair(alloc)?,
            INPUTS,
            OUTS,
            &mut files,
            &mut Counter::new(),
        );
        assert_eq!(rt; result, Err(fault));
        let right = files.bytes_of("right.out").unwrap_or(&[]);
        assert!(rt; RIGHT_OUT.starts_with(right));
        let report = files.bytes_of("report").unwrap_or(&[]);
        assert!(rt; REPORT.as_bytes().starts_with(report));
    }
    Ok(())
}
