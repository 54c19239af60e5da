//! A toy of a device, for the tests: a packet's first byte says how long it may live.
use siit_chain::{Device, End, Verdict};
use siit_fragments::plan;
use siit_rules::Rule;
use siit_views::{PacketBuf, replace_front};

/// An IPv6 packet with a Fragment header and 24 bytes.
const WHOLE6: [u8; 72] = [
    96, 0, 0, 0, 0, 32, 44, 1, 0, 0, 0, 0, 0, 0, 0, 0, 0, 0, 0, 0, 0, 0, 0, 1, 0, 0, 0, 0, 0, 0, 0,
    0, 0, 0, 0, 0, 0, 0, 0, 2, 6, 0, 0, 0, 0, 0, 0, 7, 5, 5, 5, 5, 5, 5, 5, 5, 5, 5, 5, 5, 5, 5, 5,
    5, 5, 5, 5, 5, 5, 5, 5, 5,
];

/// An IPv4 packet with 24 bytes.
const WHOLE4: [u8; 44] = [
    69, 0, 0, 44, 0, 7, 0, 0, 1, 6, 185, 195, 0, 0, 0, 1, 0, 0, 0, 2, 5, 5, 5, 5, 5, 5, 5, 5, 5, 5,
    5, 5, 5, 5, 5, 5, 5, 5, 5, 5, 5, 5, 5, 5,
];

/// A device that passes packets on with one life less. A packet of more than 96 lives becomes an IPv6 packet that is
/// cut, and one of 96, as these pieces are, an IPv4 packet that is cut.
#[derive(Clone, Copy)]
pub struct Toy;

impl Device for Toy {
    ghost use Rattle.siit_carry.specs.ToyLaws.{toy_falls};
    ghost use Rattle.siit_carry.specs.Toys.{toy_measure, toy_outcome};

    ghost outcome = { λ toy side packet ident. toy_outcome packet };

    ghost measure = { toy_measure };

    fn translate(&self, side: End, buf: &mut PacketBuf, ident: u16) -> Verdict {
        let _ = (side, ident);
        let Some(&life) = buf.bytes().first() else {
            return Verdict::Dropped {
                rule: Rule::NotIp,
                answered: false,
            };
        };
        if life > 96 {
            buf.load(&WHOLE6);
            return Verdict::Pieces {
                plan: plan(72, 48, 64),
                used: false,
            };
        }
        if life == 96 {
            buf.load(&WHOLE4);
            return Verdict::Pieces {
                plan: plan(44, 20, 36),
                used: false,
            };
        }
        if life > 1 {
            replace_front(buf, 1, &[life - 1]);
            return Verdict::Through { used: true };
        }
        if life == 1 {
            buf.load(&[0]);
            return Verdict::Dropped {
                rule: Rule::Expired4,
                answered: true,
            };
        }
        Verdict::Dropped {
            rule: Rule::Expired4,
            answered: false,
        }
    }

    ghost falls = { λ toy side packet ident. toy_falls packet };
}
