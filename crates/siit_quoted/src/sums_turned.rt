//! What goes and comes in the body of an ICMPv6 error that is turned, for the checksum of the message (RFC 1624).
ghost use Rattle.siit_model.specs.Bytes.{bytes128};
ghost use Rattle.siit_model.specs.Checksum.{residue};
ghost use Rattle.siit_quoted.specs.Quoted.{HasQuote6, quoted6_fields};
ghost use Rattle.siit_quoted.specs.Quotes.{quote_turned};
ghost use Rattle.siit_quoted.specs.Rewriting.{IsCarriedTurned, front_turned, part_before, walked_body_turned};
ghost use Rattle.siit_quoted.specs.Sums.{IsDifference, IsPartDifference};
ghost use Rattle.siit_upper.specs.Walks.{walked};
ghost use Rattle.std.specs.Prelude.{◌≡◌, ◌++◌, IfSome};

use crate::sums::{CHANGED, Sums, copy_front, sum_both, upper_sums};
use crate::to_ipv4::is_later;
use crate::turned::{are_bytes, quote_len, write_addresses};
use siit_addr::Addresses6;
use siit_checksum::sum_of;
use siit_upper::Walk;
use siit_v6to4::turn_upper;
use siit_views::Ipv6Header;

/// The residues of what goes and of what comes where `quote_turn_by` makes this body of an ICMPv6 error the body of the
/// turned error, for the walk over the quote's extension headers. Of the quote its addresses, the first 20 bytes behind
/// its headers and what is cut off are read, and nothing of what stays.
pub fn quote_sums_turned(body: &[u8], ext: Option<u16>, walk: &Walk, new: Addresses6) -> Sums
    requires extension { IfSome ext (λ place. IsCarriedTurned place body.now) }
    requires quote { HasQuote6 (walked walk.now) (part_before ext body.now) }
    ensures { IsDifference body.now (walked_body_turned new.src.0 new.dst.0 (walked walk.now) ext body.now).bytes result.gone result.come }
{
    match ext {
        None => part_sums(body, *walk, new),
        Some(place) => part_sums(&body[..usize::from(place)], *walk, new),
    }
}

/// The same for the quote in these bytes.
fn part_sums(quote: &[u8], walk: Walk, new: Addresses6) -> Sums
    requires quote { HasQuote6 (walked walk) quote.now }
    ensures { IsPartDifference quote.now (quote_turned new.src.0 new.dst.0 (quoted6_fields (walked walk) quote.now)) result.gone result.come }
{
    are_bytes(quote);
    let header_len = 40 + usize::from(walk.at);
    let kept = quote_len(quote) - header_len;
    let mut room = [0u8; CHANGED];
    let front = &mut room[..kept.min(CHANGED)];
    copy_front(front, quote, header_len);
    turn_front(front, quote, walk, new);
    let upper = upper_sums(&quote[header_len..], kept, front);
    Sums {
        gone: sum_both(sum_of(&quote[8..40]), upper.gone),
        come: sum_both(addresses_sum(new), upper.come),
    }
}

/// Moves the checksum in the first bytes of a quote's upper part, and nothing of a later fragment.
fn turn_front(front: &mut [u8], quote: &[u8], walk: Walk, new: Addresses6)
    requires { HasQuote6 (walked walk) quote.now }
    ensures { front.new ≡ front_turned new.src.0 new.dst.0 front.old (quoted6_fields (walked walk) quote.now) }
{
    if is_later(walk) {
        return;
    }
    let header = Ipv6Header::new(quote);
    let old = Addresses6 {
        src: header.src(),
        dst: header.dst(),
    };
    turn_upper(walk.upper, front, old, new, header.length() - walk.at);
}

/// The residue of two addresses, at their places in a header.
fn addresses_sum(new: Addresses6) -> u16
    ensures { result ≡ residue (bytes128 new.src.0 ++ bytes128 new.dst.0) }
{
    let mut header = [0u8; 40];
    write_addresses(&mut header, new);
    sum_of(&header[8..])
}
