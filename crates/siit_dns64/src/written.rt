//! The parts of a message as they are written (RFC 1035 section 4.1).
ghost use Rattle.std.specs.Prelude.{◌≡◌, ◌+◌, ◌<◌, ◌≤◌, ◌++◌, length, OnOk};
ghost use Rattle.siit_model.specs.Bytes.{bytes16, bytes32};
ghost use Rattle.siit_dns.specs.Seen.{question_seen};
ghost use Rattle.siit_dns64.specs.Answers.{header, question_bytes, record_bytes};

use byteorder::{BigEndian, ByteOrder};
use siit_dns::QuestionView;
use std::alloc::AllocError;

/// Adds a record at the end. On an `Err` bytes of it may stand there.
pub(crate) fn push_record(
    bytes: &mut Vec<u8>,
    name: &[u8],
    kind: u16,
    class: u16,
    ttl: u32,
    rdata: &[u8],
) -> Result<(), AllocError>
    requires { length rdata.now < 65536 }
    ensures { OnOk result (bytes.new.items ≡ bytes.old.items ++ record_bytes name.now kind class ttl rdata.now) }
{
    bytes.extend_from_slice(name)?;
    bytes.extend_from_slice(&record_fields(kind, class, ttl, rdata.len() as u16))?;
    bytes.extend_from_slice(rdata)?;
    Ok(())
}

/// The fields between the name and the RDATA of a record.
fn record_fields(kind: u16, class: u16, ttl: u32, len: u16) -> [u8; 10]
    ensures { result ≡ bytes16 kind ++ bytes16 class ++ bytes32 ttl ++ bytes16 len }
{
    let mut fields = [0; 10];
    BigEndian::write_u16(&mut fields, kind);
    BigEndian::write_u16(&mut fields[2..], class);
    BigEndian::write_u32(&mut fields[4..], ttl);
    BigEndian::write_u16(&mut fields[8..], len);
    fields
}

/// Adds a question at the end. On an `Err` bytes of it may stand there.
pub(crate) fn push_question(bytes: &mut Vec<u8>, question: &QuestionView) -> Result<(), AllocError>
    ensures { OnOk result (bytes.new.items ≡ bytes.old.items ++ question_bytes (question_seen question.now)) }
{
    bytes.extend_from_slice(question.name.as_slice())?;
    bytes.extend_from_slice(&question_fields(question.kind, question.class))?;
    Ok(())
}

/// The fields behind the name of a question.
fn question_fields(kind: u16, class: u16) -> [u8; 4]
    ensures { result ≡ bytes16 kind ++ bytes16 class }
{
    let mut fields = [0; 4];
    BigEndian::write_u16(&mut fields, kind);
    BigEndian::write_u16(&mut fields[2..], class);
    fields
}

/// A header with one question and these counts of records.
pub(crate) fn header(
    id: u16,
    flags: u16,
    answers: u16,
    authorities: u16,
    additionals: u16,
) -> [u8; 12]
    ensures { result ≡ header id flags answers authorities additionals }
{
    let mut bytes = [0; 12];
    BigEndian::write_u16(&mut bytes, id);
    BigEndian::write_u16(&mut bytes[2..], flags);
    BigEndian::write_u16(&mut bytes[4..], 1);
    BigEndian::write_u16(&mut bytes[6..], answers);
    BigEndian::write_u16(&mut bytes[8..], authorities);
    BigEndian::write_u16(&mut bytes[10..], additionals);
    bytes
}
