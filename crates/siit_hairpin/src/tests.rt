//! Two hosts behind one translator.
ghost use Rattle.std.specs.Prelude.{◌≡◌, ◌<◌};

use crate::{TurnAnswer, turn};
use siit_addr::{Addr4, Addr6, Addresses6, Prefix4, Prefix6};
use siit_eamt::{Eam, Eamt, Steps};
use siit_map::Mapping;
use siit_rfc6052::Embed;
use std::marker::Brand;
use std::sync::ledger::{Blank, Ledger};

/// The answer by a counter of its own.
fn answer<L: Ledger>(mapping: &Mapping, blank: Blank, a: u32, x: u128) -> TurnAnswer
    requires name { blank.name ≡ L.name }
    requires parts { blank.parts ≡ L.parts }
    requires some { 0 < blank.parts }
{
    let mut steps = Steps::<L>::new(blank);
    turn(mapping, Addr4(a), Addr6(x), &mut steps)
}

fn entry(a: u32, x: u128) -> Eam {
    Eam {
        p4: Prefix4 {
            addr: Addr4(a),
            len: 32,
        },
        p6: Prefix6 {
            addr: Addr6(x),
            len: 128,
        },
    }
}

/// 2001:db8:a::1 and 2001:db8:b::2 behind 2001:db8:46::/96.
#[test]
fn two_hosts_meet(rt: HostRuntime) {
    let b = (0x2001_0db8_000b << 80) + 2;
    let prefix = 0x2001_0db8_0046 << 80;
    let entries = [
        entry(0xc000_0201, (0x2001_0db8_000a << 80) + 1),
        entry(0xc000_0202, b),
    ];
    let eamt = Eamt::build(rt.alloc(), &entries).expect(&rt, "a table");
    let embed = Embed::new(Prefix6 {
        addr: Addr6(prefix),
        len: 96,
    })
    .expect(&rt, "a prefix");
    let mapping = Mapping::table(eamt, embed);
    let pair = TurnAnswer::Pair(Addresses6 {
        src: Addr6(prefix + 0xc000_0201),
        dst: Addr6(b),
    });
    let turned = answer::<Brand>(&mapping, Blank::new(1), 0xc000_0201, prefix + 0xc000_0202);
    assert_eq!(rt; turned, pair);
}
