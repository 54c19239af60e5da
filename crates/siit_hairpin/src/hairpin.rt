//! What becomes of a packet at a translator that hairpins (RFC 7757 section 4).
ghost use Rattle.std.specs.Prelude.{◌≡◌, ◌+◌, ◌≤◌};

use siit_addr::{Addr4, Addr6, Addresses6};
use siit_eamt::Steps;
use siit_map::{Mapping, Means};
use std::sync::ledger::Ledger;

/// What becomes of an IPv6 packet at a translator that hairpins.
#[derive(Clone, Copy, Debug, PartialEq, Eq)]
pub enum TurnAnswer {
    /// It isn't turned.
    Not,
    /// It goes back to the IPv6 side with these addresses.
    Pair(Addresses6),
    /// It would go back, but its source has no form under the translation prefix.
    Refused,
}

ghost use Rattle.siit_hairpin.specs.Turn.{turn_of};

/// What becomes of an IPv6 packet to `dst`, where `src4` is the IPv4 address that stands for its source (RFC 7757
/// section 4). It goes back where the destination, under the translation prefix, holds an IPv4 address that has an
/// entry: to the address that the entry gives, and from the form of `src4` under the prefix, so that a reply comes the
/// same way. Each entry that is read counts as one step.
pub fn turn<L: Ledger>(
    mapping: &Mapping,
    src4: Addr4,
    dst: Addr6,
    steps: &mut Steps<L>,
) -> TurnAnswer
    ensures answer { result ≡ turn_of mapping.now src4.0 dst.0 }
    ensures cost { steps.new ≤ steps.old + 164 }
    ensures counted { steps.old ≤ steps.new }
{
    let Ok((dst4, Means::Prefix)) = mapping.to4(dst, steps) else {
        return TurnAnswer::Not;
    };
    let Some(hit) = mapping.eam_of(dst4, steps) else {
        return TurnAnswer::Not;
    };
    let Some(src) = mapping.prefix_of(src4) else {
        return TurnAnswer::Refused;
    };
    TurnAnswer::Pair(Addresses6 {
        src,
        dst: hit.address,
    })
}
