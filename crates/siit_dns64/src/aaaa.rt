//! What the AAAA response says (RFC 6147 sections 5.1.1, 5.1.2, 5.1.4 and 5.1.7).
ghost use Rattle.std.specs.Prelude.{◌≡◌};
ghost use Rattle.std.specs.List.{list_any};
ghost use Rattle.siit_dns.specs.Seen.{IsSized, record_seen};
ghost use Rattle.siit_dns64.specs.Answers.{answers_itself, code_of, greatest_ttl, is_authority, is_own_answer};

use crate::body::is_answer_of;
use byteorder::{BigEndian, ByteOrder};
use siit_dns::kinds::{AAAA, SOA};
use siit_dns::{Message, RecordView};

/// There is no such name (RFC 1035 section 4.1.1).
const NAME_ERROR: u16 = 3;

/// The first 96 bits of addresses that stand for IPv4 addresses (RFC 4291 section 2.5.5.2).
const IPV4_MAPPED: u128 = 0xffff;

/// The greatest TTL of a made record where the AAAA response has no SOA record, in seconds (RFC 6147 section 5.1.7).
const TTL_WITHOUT_SOA: u32 = 600;

/// The response code.
pub(crate) fn code_of(message: &Message) -> u16
    ensures { result ≡ code_of message.now }
{
    message.flags() % 16
}

/// Whether the AAAA response answers, whatever the A response is.
pub(crate) fn answers_itself(aaaa: &Message) -> bool
    ensures { result ≡ answers_itself aaaa.now }
{
    let code = code_of(aaaa);
    code == NAME_ERROR || code == 0 && has_own_answer(aaaa)
}

fn has_own_answer(aaaa: &Message) -> bool
    ensures { result ≡ list_any is_own_answer aaaa.now.records }
{
    let mut records = aaaa.records();
    'records: while let Some(record) = records.next() {
        if is_own_answer(&record) {
            return true;
        }
    }
    false
}

/// Whether it is an AAAA record of the answer section with an address that stands for no IPv4 address.
fn is_own_answer(r: &RecordView) -> bool
    requires { IsSized r.now.kind r.now.rdata.now }
    ensures { result ≡ is_own_answer (record_seen r.now) }
{
    is_answer_of(AAAA, r) && BigEndian::read_u128(r.rdata) >> 32 != IPV4_MAPPED
}

/// The greatest TTL of a made record, in seconds.
pub(crate) fn greatest_ttl(aaaa: &Message) -> u32
    ensures { result ≡ greatest_ttl aaaa.now }
{
    let mut records = aaaa.records();
    'records: while let Some(record) = records.next() {
        if is_authority(&record) {
            return record.ttl;
        }
    }
    TTL_WITHOUT_SOA
}

fn is_authority(r: &RecordView) -> bool
    ensures { result ≡ is_authority (record_seen r.now) }
{
    r.section == 1 && r.kind == SOA
}
