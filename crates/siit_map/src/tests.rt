//! Addresses that are mapped by a table and by a customer.
ghost use Rattle.std.specs.Prelude.{◌≡◌, ◌<◌};

use crate::{MapRefusal, Mapping, Means};
use siit_addr::{Addr4, Addr6, Prefix4, Prefix6};
use siit_eamt::{Eam, Eamt, Hit6, Steps};
use siit_rfc6052::Embed;
use std::marker::Brand;
use std::process::Abort;
use std::sync::ledger::{Blank, Ledger};

fn prefix4(addr: u32, len: u8) -> Prefix4 {
    Prefix4 {
        addr: Addr4(addr),
        len: len.min(32),
    }
}

fn prefix6(addr: u128, len: u8) -> Prefix6 {
    Prefix6 {
        addr: Addr6(addr),
        len: len.min(128),
    }
}

type Row6 = (u32, Result<(Addr6, Means), MapRefusal>);

type Row4 = (u128, Result<(Addr4, Means), MapRefusal>);

/// The entry that a mapping is by.
fn hit_of(mapped: Result<(Addr6, Means), MapRefusal>) -> Option<Hit6> {
    match mapped {
        Ok((address, Means::Eam(entry))) => Some(Hit6 { entry, address }),
        _ => None,
    }
}

fn map_each<L: Ledger>(
    rt: &impl Abort,
    mapping: &Mapping,
    blank: Blank,
    forth: &[Row6],
    back: &[Row4],
)
    requires name { blank.name ≡ L.name }
    requires parts { blank.parts ≡ L.parts }
    requires some { 0 < blank.parts }
{
    let mut steps = Steps::<L>::new(blank);
    for (a, want) in forth {
        assert_eq!(rt; mapping.to6(Addr4(*a), &mut steps), *want);
        assert_eq!(rt; mapping.eam_of(Addr4(*a), &mut steps), hit_of(*want));
    }
    for (x, want) in back {
        assert_eq!(rt; mapping.to4(Addr6(*x), &mut steps), *want);
    }
}

/// The well-known prefix, and one entry.
#[test]
fn maps_by_a_table(rt: HostRuntime) {
    let entry = Eam {
        p4: prefix4(0xc000_0201, 32),
        p6: prefix6((0x2001_0db8_6464 << 80) + 1, 128),
    };
    let eamt = Eamt::build(rt.alloc(), &[entry]).expect(&rt, "a table");
    let prefix = Embed::new(prefix6(0x64ff9b << 96, 96)).expect(&rt, "a prefix");
    let mapping = Mapping::table(eamt, prefix);
    map_each::<Brand>(
        &rt,
        &mapping,
        Blank::new(1),
        &[
            (0x0a00_0001, Err(MapRefusal::WkpNonGlobal)),
            (0xe000_0001, Err(MapRefusal::NoMapping)),
            (
                0x0808_0808,
                Ok((Addr6((0x64ff9b << 96) + 0x0808_0808), Means::Prefix)),
            ),
            (
                0xc000_0201,
                Ok((Addr6((0x2001_0db8_6464 << 80) + 1), Means::Eam(0))),
            ),
        ],
        &[
            (
                (0x64ff9b << 96) + 0x0a00_0001,
                Err(MapRefusal::WkpNonGlobal),
            ),
            (0x2001_0db8 << 96, Err(MapRefusal::NoMapping)),
            (
                (0x64ff9b << 96) + 0x0808_0808,
                Ok((Addr4(0x0808_0808), Means::Prefix)),
            ),
            (
                (0x2001_0db8_6464 << 80) + 1,
                Ok((Addr4(0xc000_0201), Means::Eam(0))),
            ),
        ],
    );
    assert_eq!(rt; mapping.prefix(), prefix6(0x64ff9b << 96, 96));
    assert_eq!(rt; mapping.prefix_of(Addr4(0xc000_0201)), None);
    assert_eq!(rt;
        mapping.prefix_of(Addr4(0x0808_0808)),
        Some(Addr6((0x64ff9b << 96) + 0x0808_0808))
    );
    assert_eq!(rt; mapping.entries().len(), 1);
}

/// 192.168.1.0/24 under 2001:db8:c1a7::/96, and the provider's 2001:db8:64:64::/64.
#[test]
fn maps_by_a_customer(rt: HostRuntime) {
    let local6 = Embed::new(prefix6(0x2001_0db8_c1a7 << 80, 96)).expect(&rt, "a prefix");
    let provider = Embed::new(prefix6(0x2001_0db8_0064_0064 << 64, 64)).expect(&rt, "a prefix");
    let mapping = Mapping::customer(prefix4(0xc0a8_0100, 24), local6, provider);
    map_each::<Brand>(
        &rt,
        &mapping,
        Blank::new(1),
        &[
            (
                0xc0a8_010a,
                Ok((Addr6((0x2001_0db8_c1a7 << 80) + 0xc0a8_010a), Means::Local)),
            ),
            (
                0xc629_0004,
                Ok((
                    Addr6(0x2001_0db8_0064_0064_00c6_2900_0400_0000),
                    Means::Prefix,
                )),
            ),
        ],
        &[
            (
                (0x2001_0db8_c1a7 << 80) + 0xc0a8_010a,
                Ok((Addr4(0xc0a8_010a), Means::Local)),
            ),
            (
                0x2001_0db8_0064_0064_00c6_2900_0400_0000,
                Ok((Addr4(0xc629_0004), Means::Prefix)),
            ),
            (
                (0x2001_0db8_c1a7 << 80) + 0x0808_0808,
                Err(MapRefusal::LocalMismatch),
            ),
            (
                0x2001_0db8_0064_0064_00c0_a801_0a00_0000,
                Err(MapRefusal::LocalMismatch),
            ),
        ],
    );
    assert_eq!(rt; mapping.entries().len(), 0);
}
