//! Answers to one query.
use crate::synthesize;
use siit_addr::{Addr6, Prefix6};
use siit_dns::DnsFault;
use siit_rfc6052::Embed;
use std::process::Abort;

/// A query for AAAA records of a.example.
static QUERY: &[u8] =
    b"\x12\x34\x01\x00\x00\x01\x00\x00\x00\x00\x00\x00\x01a\x07example\x00\x00\x1c\x00\x01";

/// The response to it, without records.
static NO_ADDRESSES: &[u8] =
    b"\x12\x35\x81\x80\x00\x01\x00\x00\x00\x00\x00\x00\x01a\x07example\x00\x00\x1c\x00\x01";

/// A response with the A records that follow it.
static ADDRESSES: &[u8] =
    b"\x12\x36\x81\x80\x00\x01\x00\x01\x00\x00\x00\x00\x01a\x07example\x00\x00\x01\x00\x01";

/// 192.0.2.33, of TTL 3,600, under the question's name.
static RECORD: &[u8] = b"\xc0\x0c\x00\x01\x00\x01\x00\x00\x0e\x10\x00\x04\xc0\x00\x02\x21";

/// The answer with 2001:db8:122:344::192.0.2.33.
static ANSWER: &[u8] =
    b"\x12\x34\x81\x80\x00\x01\x00\x01\x00\x00\x00\x00\x01a\x07example\x00\x00\x1c\x00\x01\x01a\x07example\x00\x00\x1c\x00\x01\x00\x00\x02\x58\x00\x10\x20\x01\x0d\xb8\x01\x22\x03\x44\x00\x00\x00\x00\xc0\x00\x02\x21";

fn prefix(rt: &impl Abort) -> Embed {
    let prefix = Prefix6 {
        addr: Addr6(0x2001_0db8_0122_0344_0000_0000_0000_0000),
        len: 96,
    };
    Embed::new(prefix).expect(rt, "an accepted prefix")
}

#[test]
fn one_record_is_made(rt: HostRuntime) {
    let mut a = Vec::from_slice(rt.alloc(), ADDRESSES).expect(&rt, "memory");
    a.extend_from_slice(RECORD).expect(&rt, "memory");
    assert!(rt; a.len() == 43);
    let answered = synthesize(
        rt.alloc(),
        QUERY,
        NO_ADDRESSES,
        Some(a.as_slice()),
        &[prefix(&rt)],
    )
    .expect(&rt, "an answer");
    assert_eq!(rt; answered.bytes(), ANSWER);
    assert_eq!(rt; answered.made(), 1);
}

/// The response passes where there is no A response.
#[test]
fn a_response_passes(rt: HostRuntime) {
    let answered = synthesize(rt.alloc(), QUERY, NO_ADDRESSES, None, &[prefix(&rt)]).expect(
        &rt,
        "an answer",
    );
    assert_eq!(rt; answered.made(), 0);
    assert_eq!(rt; answered.bytes().len(), 27);
}

/// 2,000 records of 37 bytes.
#[test]
fn an_answer_is_too_long(rt: HostRuntime) {
    let mut a = Vec::from_slice(rt.alloc(), &ADDRESSES[..6]).expect(&rt, "memory");
    a.extend_from_slice(b"\x07\xd0").expect(&rt, "memory");
    a.extend_from_slice(&ADDRESSES[8..]).expect(&rt, "memory");
    for _ in 0..2000u16 {
        a.extend_from_slice(RECORD).expect(&rt, "memory");
    }
    assert!(rt; a.len() == 32_027);
    match synthesize(
        rt.alloc(),
        QUERY,
        NO_ADDRESSES,
        Some(a.as_slice()),
        &[prefix(&rt)],
    ) {
        Ok(_) => assert!(rt; false),
        Err(fault) => {
            assert_eq!(rt; fault.which, 2);
            assert_eq!(rt; fault.fault, DnsFault::AnswerTooLong);
        }
    }
}
