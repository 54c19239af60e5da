//! The part of a body that holds a quote, and the walk over its extension headers.
ghost use Rattle.siit_model.specs.Ipv6.{payload_length_in};
ghost use Rattle.siit_quoted.specs.Quoted.{HasQuote6};
ghost use Rattle.siit_quoted.specs.Refusals.{quote_refusal6};
ghost use Rattle.siit_quoted.specs.Rewriting.{part_before};
ghost use Rattle.siit_upper.specs.Walks.{walked};
ghost use Rattle.siit_v6to4.specs.To4.{walk_in};
ghost use Rattle.std.specs.Prelude.{◌≡◌, ◌<◌, ◌≤◌, ◌+◌, length, drop, None, Ok, IfSome};

use siit_upper::{Walk, walk_ext};
use siit_views::Ipv6Header;

/// The quote in a body that begins at `at`: all of it, or what stands before the extension that stands `ext` bytes
/// behind `at`.
pub(crate) fn quote_in(bytes: &[u8], at: usize, ext: Option<u16>) -> &[u8]
    requires inside { at ≤ length bytes.now }
    requires extension { IfSome ext (λ place. place ≤ length (drop at bytes.now)) }
    ensures { result.now ≡ part_before ext (drop at bytes.now) }
{
    let body = &bytes[at..];
    match ext {
        Some(place) => &body[..usize::from(place)],
        None => body,
    }
}

/// The walk over the extension headers of a quote that is accepted.
pub fn accepted_walk(quote: &[u8]) -> Walk
    requires { quote_refusal6 quote.now ≡ None }
    ensures walk { walk_in quote.now ≡ Ok (walked result) }
    ensures quote { HasQuote6 (walked result) quote.now }
    ensures offset { IfSome result.frag (λ f. f.offset < 8192) }
{
    let header = Ipv6Header::new(quote);
    let end = quote.len().min(40 + usize::from(header.length()));
    walk_ext(&quote[40..end], header.next()).unwrap()
}
