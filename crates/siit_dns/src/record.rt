//! The question and the resource records of a message (RFC 1035 sections 4.1.2 and 4.1.3), read at their places.
ghost use Rattle.std.specs.Prelude.{◌≡◌, ◌≤◌, IfOk, IfErr, length};
ghost use Rattle.siit_dns.specs.Messages.{question_at, record_at};
ghost use Rattle.siit_dns.specs.Seen.{IsSized, item_seen, question_seen, record_seen};

use crate::name::{Name, read_name};
use crate::rdata::{Written, read_rdata};
use siit_word::{get16, get32};

/// How many bytes follow the name of a question: its type and class.
const QUESTION_FIELDS: usize = 4;

/// How many bytes follow the name of a resource record: its type, class, TTL and the length of its RDATA.
const RECORD_FIELDS: usize = 10;

/// A question (RFC 1035 section 4.1.2).
#[derive(Drop)]
pub struct QuestionView {
    /// The name, without pointers.
    pub name: Name,
    /// The type that is asked for.
    pub kind: u16,
    /// The class.
    pub class: u16,
}

/// A resource record (RFC 1035 section 4.1.3).
#[derive(Drop)]
pub struct RecordView<'a> {
    /// 0 for answer, 1 for authority, 2 for additional.
    pub section: u8,
    /// The name, without pointers.
    pub name: Name,
    /// The type.
    pub kind: u16,
    /// The class.
    pub class: u16,
    /// In seconds.
    pub ttl: u32,
    /// The RDATA as it stands in the message.
    pub rdata: &'a [u8],
    /// The RDATA with its names written out, where its type is NS, CNAME, SOA, PTR or MX.
    pub written: Option<Written>,
}

/// The question at a place, and the place behind it, or the place of the item at fault.
#[tactic(auto, unfolding(crate::specs::Messages::question_at))]
pub(crate) fn read_question(bytes: &[u8], place: usize) -> Result<(QuestionView, usize), usize>
    requires { place ≤ length bytes.now }
    ensures value { item_seen question_seen result ≡ question_at bytes.now place }
    ensures within { IfOk result (λ x. x.1 ≤ length bytes.now) }
    ensures fault { IfErr result (λ fault. fault ≤ length bytes.now) }
{
    let Some((name, at)) = read_name(bytes, place) else {
        return Err(place);
    };
    if bytes.len() < at + QUESTION_FIELDS {
        return Err(at);
    }
    let question = QuestionView {
        name,
        kind: get16(bytes, at),
        class: get16(bytes, at + 2),
    };
    Ok((question, at + QUESTION_FIELDS))
}

/// The record at a place, and the place behind it, or the place of the item at fault.
#[tactic(auto, unfolding(crate::specs::Messages::record_at))]
pub(crate) fn read_record(
    section: u8,
    bytes: &[u8],
    place: usize,
) -> Result<(RecordView<'_>, usize), usize>
    requires { place ≤ length bytes.now }
    ensures value { item_seen record_seen result ≡ record_at section bytes.now place }
    ensures sized { IfOk result (λ x. IsSized x.0.kind x.0.rdata.now) }
    ensures within { IfOk result (λ x. x.1 ≤ length bytes.now) }
    ensures fault { IfErr result (λ fault. fault ≤ length bytes.now) }
{
    let Some((name, at)) = read_name(bytes, place) else {
        return Err(place);
    };
    if bytes.len() < at + RECORD_FIELDS {
        return Err(at);
    }
    let kind = get16(bytes, at);
    let len = usize::from(get16(bytes, at + 8));
    let start = at + RECORD_FIELDS;
    let Some(written) = read_rdata(kind, bytes, start, len) else {
        return Err(start);
    };
    let record = RecordView {
        section,
        name,
        kind,
        class: get16(bytes, at + 2),
        ttl: get32(bytes, at + 4),
        rdata: &bytes[start..start + len],
        written,
    };
    Ok((record, start + len))
}
