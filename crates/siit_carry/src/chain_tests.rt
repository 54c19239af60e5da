//! Packets that are carried through chains of toys.
use crate::Chain;
use crate::toy::Toy;
use siit_chain::{Counts, End, Origin, Outs};
use siit_rules::Family;
use siit_word::{ListIdents, MemFiles};
use std::test::Fail;

const OUTS: Outs<'static> = Outs {
    left: Some("left"),
    right: Some("right"),
    report: Some("report"),
};

const ORIGIN: Origin = Origin {
    end: End::Left,
    number: 7,
    seconds: 1,
    nanos: 5000,
};

// The first device cuts the packet, and the second each piece: a third buffer is needed.
#[test]
fn pieces_are_cut_again(rt: HostRuntime) -> Result<(), Fail> {
    let alloc = rt.alloc();
    let mut files = MemFiles::new(alloc);
    let mut idents = ListIdents::new(Vec::new(alloc));
    let mut chain = Chain::new(alloc, vec![in alloc; Toy; 3]?, Family::Four, Family::Six)?;
    let packet = Some((Family::Four, [97u8].as_slice()));
    let counts = chain.carry(ORIGIN, packet, OUTS, &mut files, &mut idents)?;
    assert_eq!(rt;
        counts,
        Counts {
            left: 0,
            right: 4,
            dropped: 0
        }
    );
    let right = files.bytes_of("right").unwrap_or(&[]);
    assert_eq!(rt; right.len(), 4 * 16 + 2 * (36 + 28));
    assert_eq!(rt;
        &right[..20],
        [
            1, 0, 0, 0, 0x88, 0x13, 0, 0, 36, 0, 0, 0, 36, 0, 0, 0, 68, 0, 0, 36
        ]
        .as_slice()
    );
    Ok(())
}

// The second device answers, and the first drops the answer. A packet of another family, and a record without one, are
// dropped before any device.
#[test]
fn drops_are_reported(rt: HostRuntime) -> Result<(), Fail> {
    let alloc = rt.alloc();
    let mut files = MemFiles::new(alloc);
    let mut idents = ListIdents::new(Vec::new(alloc));
    let mut chain = Chain::new(alloc, vec![in alloc; Toy; 2]?, Family::Four, Family::Four)?;
    let four = Some((Family::Four, [2u8].as_slice()));
    chain.carry(ORIGIN, four, OUTS, &mut files, &mut idents)?;
    let six = Some((Family::Six, [2u8].as_slice()));
    chain.carry(ORIGIN, six, OUTS, &mut files, &mut idents)?;
    chain.carry(ORIGIN, None, OUTS, &mut files, &mut idents)?;
    let want =
        "L 7 2 15 Expired4 icmp4/11/0\nL 7 1 15 Expired4 silent\nL 7 0 2 OtherFamily silent\nL 7 0 1 NotIp silent\n";
    assert_eq!(rt; files.bytes_of("report").unwrap_or(&[]), want.as_bytes());
    Ok(())
}
