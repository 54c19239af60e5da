//! What goes and comes in the body of an ICMPv4 error on its way to IPv6, for the checksum of the message (RFC 1624).
ghost use Rattle.siit_quoted.specs.Quoted.{HasQuote4, quoted4_fields};
ghost use Rattle.siit_quoted.specs.Refusals.{quote_refusal4};
ghost use Rattle.siit_quoted.specs.Rewriting.{IsCarriedTo6, cut_to_6, front_to_6, new_body_to_6, part_before};
ghost use Rattle.siit_quoted.specs.Sums.{IsDifference, IsPartDifference};
ghost use Rattle.std.specs.Prelude.{◌≡◌, ◌≤◌, ◌%◌, None, IfSome};

use crate::sums::{CHANGED, Sums, copy_front, sum_both, upper_sums};
use crate::to_ipv6::{MOST, planned};
use siit_addr::{Addresses4, Addresses6};
use siit_checksum::sum_of;
use siit_v4to6::upper46;
use siit_views::Ipv4Header;

/// The residues of what goes and of what comes where `quote46` makes this body of an ICMPv4 error the body of an ICMPv6
/// error. Of the quote its header, the first 20 bytes behind it and what is cut off are read, and nothing of what
/// stays.
pub fn quote_sums46(body: &[u8], ext: Option<u16>, new: Addresses6, tos_zero: bool) -> Sums
    requires extension { IfSome ext (λ place. IsCarriedTo6 place body.now) }
    requires even { IfSome ext (λ place. place % 2 ≡ 0) }
    requires accepted { quote_refusal4 (part_before ext body.now) ≡ None }
    ensures { IsDifference body.now (new_body_to_6 new.src.0 new.dst.0 tos_zero ext body.now).bytes result.gone result.come }
{
    match ext {
        None => part_sums(body, MOST, new, tos_zero),
        Some(place) => {
            let place = usize::from(place);
            let limit = (MOST - (body.len() - place)) / 8 * 8;
            part_sums(&body[..place], limit, new, tos_zero)
        }
    }
}

/// The same for the quote in these bytes, of which at most `limit` bytes are kept.
fn part_sums(quote: &[u8], limit: usize, new: Addresses6, tos_zero: bool) -> Sums
    requires quote { HasQuote4 quote.now }
    requires limit { 128 ≤ limit }
    ensures { IsPartDifference quote.now (cut_to_6 new.src.0 new.dst.0 tos_zero limit quote.now) result.gone result.come }
{
    let plan = planned(quote, limit, new, tos_zero);
    let mut room = [0u8; CHANGED];
    let front = &mut room[..plan.kept.min(CHANGED)];
    copy_front(front, quote, plan.header_len);
    translate_front(front, quote, new);
    let upper = upper_sums(&quote[plan.header_len..], plan.kept, front);
    Sums {
        gone: sum_both(sum_of(&quote[..plan.header_len]), upper.gone),
        come: sum_both(sum_of(&plan.written[..plan.new_len]), upper.come),
    }
}

/// Translates the first bytes of a quote's upper part, and nothing of a later fragment.
fn translate_front(front: &mut [u8], quote: &[u8], new: Addresses6)
    requires { HasQuote4 quote.now }
    ensures { front.new ≡ front_to_6 new.src.0 new.dst.0 front.old (quoted4_fields quote.now) }
{
    let header = Ipv4Header::new(quote);
    if header.offset() != 0 {
        return;
    }
    let old = Addresses4 {
        src: header.src(),
        dst: header.dst(),
    };
    let sent = header.total() - header.header_len() as u16;
    upper46(header.protocol(), front, old, new, sent);
}
