//! RDATA of resource records (RFC 1035 sections 3.3 and 3.4, RFC 3596 section 2.2).
ghost use Rattle.std.specs.Prelude.{◌≡◌, ◌+◌, ◌<◌, ◌≤◌, [], ◌∷◌, ◌++◌, option_map, length};
ghost use Rattle.arrayvec.specs.ArrayVec.{array_vec_len};
ghost use Rattle.siit_dns.specs.Rdata.{a_name, octets, filled, rdata_at};

use crate::kinds::{A, AAAA, CNAME, MX, NS, PTR, SOA};
use crate::name::read_name;
use arrayvec::ArrayVec;

/// RDATA with its names written out: at most two names and the 20 further bytes of an SOA record.
pub type Written = ArrayVec<u8, 530>;

/// How many bytes follow the names of an SOA record: its serial number and four times.
const AFTER_NAMES: usize = 20;

/// The RDATA at a place, `len` bytes long, with its names written out where its type holds names. None where it is at
/// fault.
pub(crate) fn read_rdata(
    kind: u16,
    bytes: &[u8],
    place: usize,
    len: usize,
) -> Option<Option<Written>>
    requires place { place ≤ length bytes.now }
    requires len { len < 65536 }
    ensures { option_map (λ written. option_map (λ w. w.items) written) result ≡ rdata_at kind bytes.now place len }
{
    let end = place + len;
    if bytes.len() < end {
        return None;
    }
    match kind {
        A => if len == 4 { Some(None) } else { None },
        AAAA => if len == 16 { Some(None) } else { None },
        NS | CNAME | PTR => Some(Some(write_name(bytes, place, end)?)),
        SOA => Some(Some(write_authority(bytes, place, end)?)),
        MX => Some(Some(write_exchange(bytes, place, end)?)),
        _ => Some(None),
    }
}

/// RDATA that is one name, None where it isn't.
fn write_name(bytes: &[u8], place: usize, end: usize) -> Option<Written>
    ensures { option_map (λ w. w.items) result ≡ filled (a_name ∷ []) bytes.now place end }
{
    let (name, behind) = read_name(bytes, place)?;
    if behind != end {
        return None;
    }
    let mut written = Written::new();
    push(&mut written, name.as_slice());
    Some(written)
}

/// RDATA of an SOA record, None where two names and 20 bytes don't fill it.
fn write_authority(bytes: &[u8], place: usize, end: usize) -> Option<Written>
    requires { end ≤ length bytes.now }
    ensures { option_map (λ w. w.items) result ≡ filled (a_name ∷ a_name ∷ octets 20 ∷ []) bytes.now place end }
{
    let (server, middle) = read_name(bytes, place)?;
    let (mailbox, behind) = read_name(bytes, middle)?;
    if behind + AFTER_NAMES != end {
        return None;
    }
    let mut written = Written::new();
    push(&mut written, server.as_slice());
    push(&mut written, mailbox.as_slice());
    push(&mut written, &bytes[behind..end]);
    Some(written)
}

/// RDATA of an MX record, None where a preference and a name don't fill it.
fn write_exchange(bytes: &[u8], place: usize, end: usize) -> Option<Written>
    requires place { place ≤ end }
    requires end { end ≤ length bytes.now }
    ensures { option_map (λ w. w.items) result ≡ filled (octets 2 ∷ a_name ∷ []) bytes.now place end }
{
    let (exchange, behind) = read_name(bytes, place + 2)?;
    if behind != end {
        return None;
    }
    let mut written = Written::new();
    push(&mut written, &bytes[place..place + 2]);
    push(&mut written, exchange.as_slice());
    Some(written)
}

/// Adds bytes to RDATA that is being written.
fn push(written: &mut Written, bytes: &[u8])
    requires { array_vec_len written.old + length bytes.now ≤ 530 }
    ensures { written.new.items ≡ written.old.items ++ bytes.now }
{
    let _ = written.try_extend_from_slice(bytes);
}
