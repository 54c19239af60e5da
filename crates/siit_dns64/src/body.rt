//! The records of an answer: those of the A response, with AAAA records in place of A records (RFC 6147 section 5.1.7).
ghost use Rattle.std.specs.Prelude.{◌≡◌, ◌∷◌, [], length, OnOk, IfOk, map};
ghost use Rattle.siit_model.specs.Bytes.{field32};
ghost use Rattle.siit_dns.specs.Seen.{IsSized, record_seen};
ghost use Rattle.siit_dns64.specs.Answers.{copied, is_answer_of, made_from, made_record, prefixes_for, stand_in};
ghost use Rattle.siit_dns64.specs.Body.{ComesTo, Grows, GrowsBy, IsCounted, made_under};

use crate::written::push_record;
use byteorder::{BigEndian, ByteOrder};
use siit_addr::{Addr4, is_non_global};
use siit_dns::kinds::{A, AAAA, IN};
use siit_dns::{Message, RecordView};
use siit_rfc6052::Embed;
use siit_word::get32;
use std::alloc::{AllocError, Global};

/// Records that are written one after another, and how many there are.
#[derive(Drop)]
pub(crate) struct Body {
    pub bytes: Vec<u8>,
    pub answers: usize,
    pub authorities: usize,
    pub additionals: usize,
    /// How many of the answers are made from A records.
    pub made: usize,
}

/// What stands for the records of the A response. Made records have at most the greatest TTL.
pub(crate) fn write_body(
    alloc: Global,
    a: &Message,
    greatest: u32,
    prefixes: &[Embed],
) -> Result<Body, AllocError>
    ensures body { IfOk result (λ body. ComesTo body greatest prefixes.now [] a.now.records) }
    ensures counted { IfOk result (λ body. IsCounted body) }
{
    let mut body = Body {
        bytes: Vec::new(alloc),
        answers: 0,
        authorities: 0,
        additionals: 0,
        made: 0,
    };
    let mut records = a.records();
    'records: while let Some(record) = records.next() {
        write_record(&mut body, &record, greatest, prefixes)?;
    }
    Ok(body)
}

/// Whether it is a record of the answer section of this type, and of class 1.
pub(crate) fn is_answer_of(kind: u16, r: &RecordView) -> bool
    ensures { result ≡ is_answer_of kind (record_seen r.now) }
{
    r.section == 0 && r.kind == kind && r.class == IN
}

/// Writes what stands for a record in the answer.
fn write_record(
    body: &mut Body,
    r: &RecordView,
    greatest: u32,
    prefixes: &[Embed],
) -> Result<(), AllocError>
    requires sized { IsSized r.now.kind r.now.rdata.now }
    requires counted { IsCounted body.old }
    ensures body { let seen = record_seen r.now in OnOk result
        (Grows body.old body.new seen.section (stand_in greatest prefixes.now seen)
        (length (made_from greatest prefixes.now seen))) }
    ensures counted { OnOk result (IsCounted body.new) }
{
    if is_answer_of(A, r) {
        make_records(body, r, greatest, prefixes)
    } else {
        copy_record(body, r)
    }
}

/// Writes a record as it is, with its names written out.
fn copy_record(body: &mut Body, r: &RecordView) -> Result<(), AllocError>
    requires sized { IsSized r.now.kind r.now.rdata.now }
    requires counted { IsCounted body.old }
    ensures body { OnOk result (Grows body.old body.new r.now.section (copied (record_seen r.now) ∷ []) 0) }
    ensures counted { OnOk result (IsCounted body.new) }
{
    match &r.written {
        Some(written) => push_record(
            &mut body.bytes,
            r.name.as_slice(),
            r.kind,
            r.class,
            r.ttl,
            written.as_slice(),
        )?,
        None => push_record(
            &mut body.bytes,
            r.name.as_slice(),
            r.kind,
            r.class,
            r.ttl,
            r.rdata,
        )?,
    }
    match r.section {
        0 => body.answers += 1,
        1 => body.authorities += 1,
        2 => body.additionals += 1,
        _ => {}
    }
    Ok(())
}

/// Writes the AAAA records of an A record, one for each prefix.
fn make_records(
    body: &mut Body,
    r: &RecordView,
    greatest: u32,
    prefixes: &[Embed],
) -> Result<(), AllocError>
    requires an_address { length r.now.rdata.now ≡ 4 }
    requires counted { IsCounted body.old }
    ensures body { let seen = record_seen r.now in OnOk result
        (GrowsBy body.old body.new (map (made_record greatest seen) (prefixes_for prefixes.now (field32 seen.rdata 0)))) }
    ensures counted { OnOk result (IsCounted body.new) }
{
    for prefix in prefixes {
        make_record(body, r, greatest, prefix)?;
    }
    Ok(())
}

/// Writes the AAAA record of an A record under a prefix: under the well-known one of a global address alone.
fn make_record(
    body: &mut Body,
    r: &RecordView,
    greatest: u32,
    prefix: &Embed,
) -> Result<(), AllocError>
    requires an_address { length r.now.rdata.now ≡ 4 }
    requires counted { IsCounted body.old }
    ensures body { OnOk result (GrowsBy body.old body.new (made_under greatest (record_seen r.now) prefix.now)) }
    ensures counted { OnOk result (IsCounted body.new) }
{
    let address = Addr4(get32(r.rdata, 0));
    if prefix.is_well_known() && is_non_global(address) {
        return Ok(());
    }
    let mut rdata = [0; 16];
    BigEndian::write_u128(&mut rdata, prefix.embed(address).0);
    push_record(
        &mut body.bytes,
        r.name.as_slice(),
        AAAA,
        IN,
        r.ttl.min(greatest),
        &rdata,
    )?;
    body.answers += 1;
    body.made += 1;
    Ok(())
}
