//! What goes and comes in the body of an ICMPv6 error on its way to IPv4, for the checksum of the message (RFC 1624).
ghost use Rattle.siit_quoted.specs.Quoted.{HasQuote6, quoted6_fields};
ghost use Rattle.siit_quoted.specs.Rewriting.{IsCarried, cut_to_4, front_to_4, part_before, walked_body_to_4};
ghost use Rattle.siit_quoted.specs.Sums.{IsDifference, IsPartDifference};
ghost use Rattle.siit_upper.specs.Walks.{walked};
ghost use Rattle.std.specs.Prelude.{◌≡◌, ◌<◌, ◌≤◌, ◌%◌, IfSome};

use crate::sums::{CHANGED, Sums, copy_front, sum_both, upper_sums};
use crate::to_ipv4::{ALL, MOST, is_later, planned};
use siit_addr::{Addresses4, Addresses6};
use siit_checksum::sum_of;
use siit_upper::Walk;
use siit_v6to4::upper64;
use siit_views::Ipv6Header;

/// The residues of what goes and of what comes where `quote64_by` makes this body of an ICMPv6 error the body of an
/// ICMPv4 error, for the walk over the quote's extension headers. Of the quote its headers, the first 20 bytes behind
/// them and what is cut off are read, and nothing of what stays.
pub fn quote_sums64(
    body: &[u8],
    ext: Option<u16>,
    walk: &Walk,
    new: Addresses4,
    tos_zero: bool,
) -> Sums
    requires extension { IfSome ext (λ place. IsCarried place body.now) }
    requires even { IfSome ext (λ place. place % 2 ≡ 0) }
    requires quote { HasQuote6 (walked walk.now) (part_before ext body.now) }
    requires offset { IfSome walk.now.frag (λ f. f.offset < 8192) }
    ensures { IsDifference body.now (walked_body_to_4 new.src.0 new.dst.0 tos_zero (walked walk.now) ext body.now).bytes result.gone result.come }
{
    match ext {
        None => part_sums(body, ALL, *walk, new, tos_zero),
        Some(place) => part_sums(&body[..usize::from(place)], MOST, *walk, new, tos_zero),
    }
}

/// The same for the quote in these bytes, of which at most `limit` bytes are kept.
fn part_sums(quote: &[u8], limit: usize, walk: Walk, new: Addresses4, tos_zero: bool) -> Sums
    requires quote { HasQuote6 (walked walk) quote.now }
    requires offset { IfSome walk.frag (λ f. f.offset < 8192) }
    requires limit { 128 ≤ limit }
    ensures { IsPartDifference quote.now (cut_to_4 new.src.0 new.dst.0 tos_zero limit (walked walk) quote.now) result.gone result.come }
{
    let plan = planned(quote, walk, limit, new, tos_zero);
    let mut room = [0u8; CHANGED];
    let front = &mut room[..plan.kept.min(CHANGED)];
    copy_front(front, quote, plan.header_len);
    translate_front(front, quote, walk, new);
    let upper = upper_sums(&quote[plan.header_len..], plan.kept, front);
    Sums {
        gone: sum_both(sum_of(&quote[..plan.header_len]), upper.gone),
        come: sum_both(sum_of(&plan.written), upper.come),
    }
}

/// Translates the first bytes of a quote's upper part, and nothing of a later fragment.
fn translate_front(front: &mut [u8], quote: &[u8], walk: Walk, new: Addresses4)
    requires { HasQuote6 (walked walk) quote.now }
    ensures { front.new ≡ front_to_4 new.src.0 new.dst.0 front.old (quoted6_fields (walked walk) quote.now) }
{
    if is_later(walk) {
        return;
    }
    let header = Ipv6Header::new(quote);
    let old = Addresses6 {
        src: header.src(),
        dst: header.dst(),
    };
    upper64(walk.upper, front, old, new, header.length() - walk.at);
}
