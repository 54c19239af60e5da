//! Tables that are built and asked.
ghost use Rattle.std.specs.Prelude.{◌≡◌, ◌<◌};

use crate::{Eam, EamFault, Eamt, Hit4, Hit6, Steps};
use siit_addr::{Addr4, Addr6, Prefix4, Prefix6};
use std::marker::Brand;
use std::process::Abort;
use std::sync::ledger::{Blank, Ledger};

fn prefix6(addr: u128, len: u8) -> Prefix6 {
    Prefix6 {
        addr: Addr6(addr),
        len: len.min(128),
    }
}

fn entry(a: u32, l4: u8, x: u128, l6: u8) -> Eam {
    Eam {
        p4: Prefix4 {
            addr: Addr4(a),
            len: l4.min(32),
        },
        p6: prefix6(x, l6),
    }
}

fn look_up<L: Ledger>(
    rt: &impl Abort,
    table: &Eamt,
    blank: Blank,
    rows4: &[(u32, Option<(u32, u128)>)],
    rows6: &[(u128, Option<(u32, u32)>)],
)
    requires name { blank.name ≡ L.name }
    requires parts { blank.parts ≡ L.parts }
    requires some { 0 < blank.parts }
{
    let mut steps = Steps::<L>::new(blank);
    for (a, want) in rows4 {
        let want = want.map(|(entry, x)| Hit6 {
            entry,
            address: Addr6(x),
        });
        assert_eq!(rt; table.find4(Addr4(*a), &mut steps), want);
    }
    for (x, want) in rows6 {
        let want = want.map(|(entry, a)| Hit4 {
            entry,
            address: Addr4(a),
        });
        assert_eq!(rt; table.find6(Addr6(*x), &mut steps), want);
    }
}

/// 192.0.2.192/29 with 2001:db8:eeee:8::/62 of RFC 7757's kind, and prefixes inside one another.
#[test]
fn looks_up(rt: HostRuntime) {
    let alone = [entry(0xc000_02c0, 29, 0x2001_0db8_eeee_0008 << 64, 62)];
    let table = Eamt::build(rt.alloc(), &alone).expect(&rt, "a table");
    look_up::<Brand>(
        &rt,
        &table,
        Blank::new(1),
        &[
            (
                0xc000_02c1,
                Some((0, 0x2001_0db8_eeee_0008_8000_0000_0000_0000)),
            ),
            (
                0xc000_02c6,
                Some((0, 0x2001_0db8_eeee_000b_0000_0000_0000_0000)),
            ),
            (0xc000_02c8, None),
        ],
        &[(
            0x2001_0db8_eeee_0008_8000_0000_0000_0005,
            Some((0, 0xc000_02c1)),
        )],
    );
    assert!(rt; table.is_disjoint(prefix6(0x64ff9b << 96, 96)));
    assert!(rt; !table.is_disjoint(prefix6(0x2001_0db8 << 96, 32)));
    assert_eq!(rt; table.entries().len(), 1);

    let nested = [
        entry(0xc633_6400, 24, 0x2001_0db8_000a << 80, 120),
        entry(0xc633_6407, 32, (0x2001_0db8_000b << 80) + 7, 128),
    ];
    let table = Eamt::build(rt.alloc(), &nested).expect(&rt, "a table");
    look_up::<Brand>(
        &rt,
        &table,
        Blank::new(1),
        &[
            (0xc633_6407, Some((1, (0x2001_0db8_000b << 80) + 7))),
            (0xc633_6408, Some((0, (0x2001_0db8_000a << 80) + 8))),
        ],
        &[((0x2001_0db8_000a << 80) + 7, Some((0, 0xc633_6407)))],
    );
    assert!(rt; !table.is_disjoint(prefix6(0x64ff9b << 96, 96)));
}

/// The first bits of an address, all others being zero.
fn first4(a: u32, len: u8) -> u32 {
    a & !u32::MAX.checked_shr(u32::from(len)).unwrap_or(0)
}

fn first6(x: u128, len: u8) -> u128 {
    x & !u128::MAX.checked_shr(u32::from(len)).unwrap_or(0)
}

/// Prefixes of every length inside one another: an address that differs from theirs at one bit has the one that ends
/// before it.
#[test]
fn looks_up_nested(rt: HostRuntime) {
    let a = 0xc633_6407u32;
    let x = (0x2001_0db8_000a << 80) + 0xc633_6407u128;
    let mut entries = Vec::new(rt.alloc());
    let mut rows4 = Vec::new(rt.alloc());
    let mut rows6 = Vec::new(rt.alloc());
    for len in 0..=32u8 {
        entries
            .push(entry(first4(a, len), len, first6(x, 96 + len), 96 + len))
            .expect(&rt, "memory");
        let other = a ^ 0x8000_0000u32.checked_shr(u32::from(len)).unwrap_or(0);
        let there = (x ^ u128::from(a)) | u128::from(other);
        rows4
            .push((other, Some((u32::from(len), there))))
            .expect(&rt, "memory");
        rows6
            .push((there, Some((u32::from(len), other))))
            .expect(&rt, "memory");
    }
    for len in 0..96u8 {
        let alone = 0x0a00_0000 + u32::from(len);
        entries
            .push(entry(alone, 32, first6(x, len), len))
            .expect(&rt, "memory");
        let other = x ^ (1u128 << 127).checked_shr(u32::from(len)).unwrap_or(0);
        rows6
            .push((other, Some((33 + u32::from(len), alone))))
            .expect(&rt, "memory");
    }
    let table = Eamt::build(rt.alloc(), &entries).expect(&rt, "a table");
    look_up::<Brand>(&rt, &table, Blank::new(1), &rows4, &rows6);
}

/// The first entry at fault is named, by the first of its faults, and the least place that has its prefix.
#[test]
fn refuses_entries(rt: HostRuntime) {
    let first = entry(0xc000_0200, 24, 0x2001_0db8 << 96, 120);
    let second = entry(0xc000_0300, 24, (0x2001_0db8 << 96) + 256, 120);
    let rows = [
        (
            entry(0xc000_0201, 24, 0x2001_0db8 << 96, 120),
            EamFault::HostBits(2),
        ),
        (
            entry(0xc000_0400, 24, (0x2001_0db8 << 96) + 1, 128),
            EamFault::SuffixTooLong(2),
        ),
        (
            entry(0xc000_0300, 24, 0x2001_0db8 << 96, 120),
            EamFault::Twice4(2, 1),
        ),
        (
            entry(0xc000_0400, 24, 0x2001_0db8 << 96, 120),
            EamFault::Twice6(2, 0),
        ),
    ];
    for (third, fault) in rows {
        let entries = [first, second, third, third];
        assert!(rt; matches!(Eamt::build(rt.alloc(), &entries), Err(found) if found == fault));
    }
}

/// The largest table is built, and one entry more is refused.
#[test]
fn counts_entries(rt: HostRuntime) {
    let mut entries = Vec::new(rt.alloc());
    for a in 0..65_537u32 {
        entries
            .push(entry(a << 8, 24, u128::from(a) << 8, 120))
            .expect(&rt, "memory");
    }
    assert!(rt; matches!(Eamt::build(rt.alloc(), &entries), Err(EamFault::TooMany)));
    let _last = entries.pop();
    let table = Eamt::build(rt.alloc(), &entries).expect(&rt, "a table");
    assert!(rt; table.is_disjoint(prefix6(0x64ff9b << 96, 96)));
    look_up::<Brand>(
        &rt,
        &table,
        Blank::new(1),
        &[
            (0x00ab_cd01, Some((0xabcd, 0x00ab_cd01))),
            (0x00ff_ffff, Some((0xffff, 0x00ff_ffff))),
            (0x0100_0000, None),
        ],
        &[(7, Some((0, 7))), (1 << 24, None)],
    );
}
