//! A message and its records (RFC 1035 section 4.1).
ghost use Rattle.std.specs.Prelude.{◌≡◌, ◌≤◌, IfOk, IfErr, length, option_map, slice_get};
ghost use Rattle.std.specs.Result.{result_err};
ghost use Rattle.siit_dns.specs.Messages.{message_of};
ghost use Rattle.siit_dns.specs.Reading.{IsMessage};

use crate::fault::DnsFault;
use crate::record::{QuestionView, RecordView, read_question};
use crate::records::{Records, records_end};
use crate::sections::sections_in;
use siit_word::get16;
use std::marker::Model;

/// How many bytes the header of a message has.
const HEADER: usize = 12;

/// Bytes that are a message: a header, one question, and the records of three sections.
#[derive(Drop)]
pub struct Message<'a> {
    bytes: &'a [u8],
    first: usize,
}

impl<'a> Model for Message<'a> {
    ghost use Rattle.siit_dns.specs.Messages.{DnsMessage, message_of};
    ghost use Rattle.siit_dns.specs.Reading.{IsMessage, the_message};

    ghost Value = { DnsMessage };

    ghost view = { λ m. the_message (message_of m.bytes.now) };

    ghost invariant = { λ m. IsMessage m.bytes.now m.first };
}

impl<'a> Message<'a> {
    ghost use Rattle.siit_dns.specs.Seen.{question_seen, record_seen};
    ghost use Rattle.siit_dns.specs.Faults.{message_fault};

    /// Reads a message of at most 65,535 bytes (RFC 1035 section 4.1), or tells the place of the first item at fault.
    pub fn read(bytes: &'a [u8]) -> Result<Message<'a>, DnsFault>
        requires { length bytes.now ≤ 65535 }
        ensures message { IfOk result (λ message. message_of bytes.now ≡ Ok message) }
        ensures refused { result_err result ≡ message_fault (message_of bytes.now) }
    {
        match first_record(bytes) {
            Ok(first) => Ok(Message { bytes, first }),
            Err(place) => Err(DnsFault::Bad(place as u16)),
        }
    }

    /// The identifier.
    pub fn id(&self) -> u16
        ensures { result ≡ self.now.id }
    {
        get16(self.bytes, 0)
    }

    /// QR, the operation, the flags and the response code, as the header has them.
    pub fn flags(&self) -> u16
        ensures { result ≡ self.now.flags }
    {
        get16(self.bytes, 2)
    }

    /// The question.
    pub fn question(&self) -> QuestionView
        ensures { question_seen result ≡ self.now.question }
    {
        match read_question(self.bytes, HEADER) {
            Ok((question, _)) => question,
            Err(_) => unreachable!(),
        }
    }

    /// The records of the three sections in their order.
    pub fn records(&self) -> Records<'a>
        ensures { result ≡ self.now.records }
    {
        Records::new(self.bytes, self.first, sections_in(self.bytes))
    }

    /// The record of this number, counted from 0 over the three sections in their order. None past the last record.
    /// It is looked for from the first record on: to go over many, take [`Message::records`].
    pub fn record(&self, k: u16) -> Option<RecordView<'a>>
        ensures { option_map record_seen result ≡ slice_get self.now.records k }
    {
        let mut records = self.records();
        for _ in 0..k {
            let Some(_) = records.next() else {
                return None;
            };
        }
        records.next()
    }
}

/// The place of the first record of a message, or the place of its first item at fault.
fn first_record(bytes: &[u8]) -> Result<usize, usize>
    ensures ok { IfOk result (λ first. IsMessage bytes.now first) }
    ensures refused { result_err result ≡ result_err (message_of bytes.now) }
    ensures within { IfErr result (λ place. place ≤ length bytes.now) }
{
    if bytes.len() < HEADER {
        return Err(0);
    }
    if get16(bytes, 4) != 1 {
        return Err(4);
    }
    let (_, first) = read_question(bytes, HEADER)?;
    let end = records_end(bytes, first, sections_in(bytes))?;
    if end < bytes.len() {
        return Err(end);
    }
    Ok(first)
}
