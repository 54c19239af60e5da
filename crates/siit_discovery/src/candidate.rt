//! The prefixes that an address may be made under (RFC 7050 section 3).
ghost use Rattle.std.specs.Prelude.{◌≡◌, ◌≤◌, IsTrue, option_map};
ghost use Rattle.siit_rfc6052.specs.Embedding.{is_embedding_length};
ghost use Rattle.siit_discovery.specs.Discovery.{candidate_at, cleared, is_partner};
ghost use Rattle.siit_discovery.specs.Seen.{candidate_seen};

use siit_addr::{Addr4, Addr6, Prefix6};
use siit_rfc6052::Embed;

/// The addresses of ipv4only.arpa (RFC 7050 section 2.2).
const FIRST: Addr4 = Addr4(0xc000_00aa);

const SECOND: Addr4 = Addr4(0xc000_00ab);

/// A prefix, and the known address that is embedded under it.
#[derive(Clone, Copy, Debug)]
pub(crate) struct Candidate {
    pub prefix: Prefix6,
    pub address: Addr4,
}

/// The candidate of an address with a prefix of one of the six lengths (RFC 6052 section 2.2).
pub(crate) fn candidate_at(x: Addr6, len: u8) -> Option<Candidate>
    requires { IsTrue (is_embedding_length len) }
    ensures { option_map candidate_seen result ≡ candidate_at x.0 len }
{
    if (x.0 >> 56) % 256 != 0 {
        return None;
    }
    let Ok(embed) = Embed::new(cleared(x, len)) else {
        return None;
    };
    let address = embed.extract(x)?;
    if address != FIRST && address != SECOND {
        return None;
    }
    Some(Candidate {
        prefix: embed.prefix(),
        address,
    })
}

/// The prefix that an address has of this length, 1 to 128: its first bits, and no other bit set.
fn cleared(x: Addr6, len: u8) -> Prefix6
    requires least { 1 ≤ len }
    requires most { len ≤ 128 }
    ensures addr { result.addr.0 ≡ cleared len x.0 }
    ensures len { result.len ≡ len }
{
    let behind = u32::from(128 - len);
    Prefix6 {
        addr: Addr6((x.0 >> behind) << behind),
        len,
    }
}

/// Whether the other candidate has the same prefix with the other known address.
pub(crate) fn is_partner(c: &Candidate, other: &Option<Candidate>) -> bool
    ensures { result ≡ is_partner (candidate_seen c.now) (option_map candidate_seen other.now) }
{
    match other {
        Some(other) => other.prefix.addr == c.prefix.addr && other.address != c.address,
        None => false,
    }
}
