//! A device for the tests: it drops every packet.
use siit_chain::{Device, End, Verdict};
use siit_rules::Rule;
use siit_views::PacketBuf;

/// A device that drops every packet.
#[derive(Clone, Copy)]
pub struct Dropper;

impl Device for Dropper {
    ghost use Rattle.std.specs.Prelude.{None};
    ghost use Rattle.siit_chain.specs.Outcome.{dropped};
    ghost use Rattle.siit_rules.specs.declared.rule.Rule.TheVariants.{Expired4};

    ghost outcome = { λ dropper side packet ident. dropped Expired4 None };

    ghost measure = { λ packet. 0 };

    fn translate(&self, side: End, buf: &mut PacketBuf, ident: u16) -> Verdict {
        let _ = (side, buf.front(), ident);
        Verdict::Dropped {
            rule: Rule::Expired4,
            answered: false,
        }
    }

    ghost falls = { λ dropper side packet ident. tt };
}
