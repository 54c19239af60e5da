//! Runs over short captures.
use crate::toy::Dropper;
use crate::{Inputs, Readers, RunCounts, RunFault, run};
use siit_capture::CaptureFault;
use siit_carry::Chain;
use siit_chain::{Counts, End, Outs};
use siit_rules::Family;
use siit_word::{ListIdents, MemFiles};
use std::test::Fail;

const INPUTS: Inputs<'static> = Inputs {
    left: Some("left.pcap"),
    right: Some("right.pcap"),
};

const OUTS: Outs<'static> = Outs {
    left: Some("left.out"),
    right: Some("right.out"),
    report: Some("report"),
};

// Two packets of one byte, at 5 and at 9 seconds.
const LEFT: [u8; 58] = [
    0x4d, 0x3c, 0xb2, 0xa1, 2, 0, 4, 0, 0, 0, 0, 0, 0, 0, 0, 0, 0, 0, 4, 0, 101, 0, 0, 0, 5, 0, 0,
    0, 7, 0, 0, 0, 1, 0, 0, 0, 1, 0, 0, 0, 0x45, 9, 0, 0, 0, 7, 0, 0, 0, 1, 0, 0, 0, 1, 0, 0, 0,
    0x47,
];

// One such packet, at 5 seconds, and three bytes of another record.
const RIGHT: [u8; 44] = [
    0x4d, 0x3c, 0xb2, 0xa1, 2, 0, 4, 0, 0, 0, 0, 0, 0, 0, 0, 0, 0, 0, 4, 0, 101, 0, 0, 0, 5, 0, 0,
    0, 7, 0, 0, 0, 1, 0, 0, 0, 1, 0, 0, 0, 0x46, 6, 0, 0,
];

// Both first packets have one time: the left one is carried first. The report shows the order.
#[test]
fn the_earlier_record_is_carried_first(rt: HostRuntime) -> Result<(), Fail> {
    let alloc = rt.alloc();
    let mut files = MemFiles::new(alloc);
    files.put("left.pcap", &LEFT)?;
    files.put("right.pcap", &RIGHT[..41])?;
    let mut idents = ListIdents::new(Vec::new(alloc));
    let mut chain = Chain::new(
        alloc,
        vec![in alloc; Dropper; 1]?,
        Family::Four,
        Family::Four,
    )?;
    let readers = Readers::new(alloc)?;
    let counts = run(&mut chain, readers, INPUTS, OUTS, &mut files, &mut idents)?;
    assert_eq!(rt;
        counts,
        RunCounts {
            left_read: 2,
            right_read: 1,
            written: Counts {
                left: 0,
                right: 0,
                dropped: 3
            }
        }
    );
    let want =
        "L 1 1 15 Expired4 silent\nR 1 1 15 Expired4 silent\nL 2 1 15 Expired4 silent\nend 2 1 0 0 3\n";
    assert_eq!(rt; files.bytes_of("report").unwrap_or(&[]), want.as_bytes());
    assert_eq!(rt; files.bytes_of("left.out").unwrap_or(&[]), &LEFT[..24]);
    Ok(())
}

// The right capture ends within its second record, which is looked at once its first one was carried.
#[test]
fn a_cut_record_ends_the_run(rt: HostRuntime) -> Result<(), Fail> {
    let alloc = rt.alloc();
    let mut files = MemFiles::new(alloc);
    files.put("left.pcap", &LEFT)?;
    files.put("right.pcap", &RIGHT)?;
    let mut idents = ListIdents::new(Vec::new(alloc));
    let mut chain: Chain<Dropper> = Chain::new(alloc, Vec::new(alloc), Family::Four, Family::Four)?;
    let readers = Readers::new(alloc)?;
    let result = run(&mut chain, readers, INPUTS, OUTS, &mut files, &mut idents);
    assert_eq!(rt;
        result,
        Err(RunFault::BadCapture {
            end: End::Right,
            place: 41,
            fault: CaptureFault::CutRecord
        })
    );
    assert_eq!(rt; files.bytes_of("right.out").unwrap_or(&[]), &LEFT[..41]);
    assert_eq!(rt; files.bytes_of("left.out").unwrap_or(&[]), &RIGHT[..41]);
    Ok(())
}
