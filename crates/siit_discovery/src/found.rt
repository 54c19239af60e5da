//! The prefixes of an answer about ipv4only.arpa (RFC 7050 section 3).
ghost use Rattle.std.specs.Prelude.{◌≡◌, ◌≤◌, ◌∷◌, ◌++◌, [], IfOk, IfErr, OnOk, length, map};
ghost use Rattle.siit_dns.specs.Seen.{IsSized, record_seen};
ghost use Rattle.siit_discovery.specs.Discovery.{addresses_of, found, ipv4only, is_answer, prefixes_of};
ghost use Rattle.siit_discovery.specs.Refused.{IsDiscoveryFault};
ghost use Rattle.siit_discovery.specs.Seen.{address_seen, prefix_seen};

use crate::counting::prefixes_of;
use byteorder::{BigEndian, ByteOrder};
use siit_addr::{Addr6, Prefix6};
use siit_dns::kinds::{AAAA, IN};
use siit_dns::{DnsFault, Message, Name, RecordView, same_name};
use std::alloc::{AllocError, Global};

/// The prefixes that an answer about ipv4only.arpa of at most 65,535 bytes shows (RFC 7050 section 3), each once, by
/// record and then by length. A prefix counts where it is the only candidate of a record, or where another record has
/// it with the other known address.
pub fn prefixes(alloc: Global, answer: &[u8]) -> Result<Vec<Prefix6>, DnsFault>
    requires { length answer.now ≤ 65535 }
    ensures found { IfOk result (λ prefixes. found answer.now ≡ Ok (map prefix_seen prefixes.items)) }
    ensures refused { IfErr result (λ fault. IsDiscoveryFault fault (found answer.now)) }
{
    let message = match Message::read(answer) {
        Ok(message) => message,
        Err(fault) => return Err(fault),
    };
    if is_answer(&message) {
        let found = prefixes_in(alloc, &message)?;
        return Ok(found);
    }
    Err(DnsFault::NotAnswer)
}

/// The prefixes that the records of an answer show.
fn prefixes_in(alloc: Global, message: &Message) -> Result<Vec<Prefix6>, AllocError>
    ensures { IfOk result (λ found. map prefix_seen found.items ≡ prefixes_of (addresses_of message.now.records)) }
{
    let addresses = addresses_of(alloc, message)?;
    let found = prefixes_of(alloc, addresses.as_slice())?;
    Ok(found)
}

/// Whether it is an answer to the question for AAAA records of ipv4only.arpa of class 1.
fn is_answer(message: &Message) -> bool
    ensures { result ≡ is_answer message.now }
{
    let question = message.question();
    message.flags() >> 15 == 1
        && same_name(&question.name, &ipv4only())
        && question.kind == AAAA
        && question.class == IN
}

/// The name ipv4only.arpa.
fn ipv4only() -> Name
    ensures { result.items ≡ ipv4only }
{
    let mut name = Name::new();
    let _ = name.try_extend_from_slice(b"\x08ipv4only\x04arpa\x00");
    name
}

/// The addresses of the AAAA records of class 1 in the answer section.
fn addresses_of(alloc: Global, message: &Message) -> Result<Vec<Addr6>, AllocError>
    ensures { IfOk result (λ addresses. map address_seen addresses.items ≡ addresses_of message.now.records) }
{
    let mut addresses = Vec::new(alloc);
    let mut records = message.records();
    'records: while let Some(r) = records.next() {
        push_address(&mut addresses, &r)?;
    }
    Ok(addresses)
}

/// Adds the address of a record, if it is one of these.
fn push_address(addresses: &mut Vec<Addr6>, r: &RecordView) -> Result<(), AllocError>
    requires { IsSized r.now.kind r.now.rdata.now }
    ensures { OnOk result (map address_seen addresses.new.items
        ≡ map address_seen addresses.old.items ++ addresses_of (record_seen r.now ∷ [])) }
{
    if r.section == 0 && r.kind == AAAA && r.class == IN {
        addresses.push(Addr6(BigEndian::read_u128(r.rdata)))?;
    }
    Ok(())
}

#[cfg(test)]
mod tests {
    use super::*;

    /// An answer with 2001:db8:64:64:c0:0:aa00:0 and 2001:db8:64:64:c0:0:ab00:0.
    static ANSWER: &[u8] =
        b"\x12\x34\x81\x80\x00\x01\x00\x02\x00\x00\x00\x00\x08ipv4only\x04arpa\x00\x00\x1c\x00\x01\xc0\x0c\x00\x1c\x00\x01\x00\x00\x0e\x10\x00\x10\x20\x01\x0d\xb8\x00\x64\x00\x64\x00\xc0\x00\x00\xaa\x00\x00\x00\xc0\x0c\x00\x1c\x00\x01\x00\x00\x0e\x10\x00\x10\x20\x01\x0d\xb8\x00\x64\x00\x64\x00\xc0\x00\x00\xab\x00\x00\x00";

    #[test]
    fn both_addresses_show_one_prefix(rt: HostRuntime) {
        let found = prefixes(rt.alloc(), ANSWER).expect(&rt, "an answer");
        let prefix = Prefix6 {
            addr: Addr6(0x2001_0db8_0064_0064_0000_0000_0000_0000),
            len: 64,
        };
        assert!(rt; found.len() == 1 && found[0] == prefix);
        assert!(rt; prefixes(rt.alloc(), &ANSWER[..11]).is_err());
    }
}
