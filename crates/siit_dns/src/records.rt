//! The records of a message, one after another (RFC 1035 section 4.1.3).
ghost use Rattle.std.specs.Prelude.{◌≡◌, ◌≤◌, ◌++◌, [], IfSome, IsNone, MatchResult, length, option_map, option_to_list};
ghost use Rattle.siit_dns.specs.Messages.{records_from};
ghost use Rattle.siit_dns.specs.Reading.{end_of};
ghost use Rattle.siit_dns.specs.Sections.{sections_left};

use crate::record::{RecordView, read_record};
use crate::sections::Sections;
use std::marker::Model;

/// Records that are read one after another. It is seen as the records that are still to come.
#[derive(Drop)]
pub struct Records<'a> {
    bytes: &'a [u8],
    place: usize,
    sections: Sections,
}

impl<'a> Model for Records<'a> {
    ghost use Rattle.std.specs.Prelude.{List, []};
    ghost use Rattle.siit_dns.specs.Messages.{ResourceRecord, records_from};
    ghost use Rattle.siit_dns.specs.Reading.{AreRecords, value_of};
    ghost use Rattle.siit_dns.specs.Sections.{sections_left};

    ghost Value = { List ResourceRecord };

    ghost view = { λ r. value_of [] (records_from (sections_left r.sections) r.bytes.now r.place) };

    ghost invariant = { λ r. AreRecords r.bytes.now r.place (sections_left r.sections) };
}

impl<'a> Records<'a> {
    ghost use Rattle.siit_dns.specs.Seen.{IsSized, record_seen};
    ghost use Rattle.siit_dns.specs.Reading.{AreRecords, value_of};

    /// The records from a place on, one for each of these sections, which are in order.
    pub(crate) fn new(bytes: &'a [u8], place: usize, sections: Sections) -> Records<'a>
        requires { AreRecords bytes.now place (sections_left sections) }
        ensures { result ≡ value_of [] (records_from (sections_left sections) bytes.now place) }
    {
        Records {
            bytes,
            place,
            sections,
        }
    }

    /// The next record. None behind the last one.
    pub fn next(&mut self) -> Option<RecordView<'a>>
        ensures next { self.old ≡ option_to_list (option_map record_seen result) ++ self.new }
        ensures none { IsNone result → self.old ≡ [] }
        ensures sized { IfSome result (λ r. IsSized r.kind r.rdata.now) }
    {
        let section = self.sections.next()?;
        match read_record(section, self.bytes, self.place) {
            Ok((record, end)) => {
                self.place = end;
                Some(record)
            }
            Err(_) => unreachable!(),
        }
    }
}

/// The place behind the records from a place on, or the place of the first item at fault.
pub(crate) fn records_end(bytes: &[u8], first: usize, sections: Sections) -> Result<usize, usize>
    requires { first ≤ length bytes.now }
    ensures end { result ≡ end_of (records_from (sections_left sections) bytes.now first) }
    ensures within { MatchResult result (λ end. end ≤ length bytes.now) (λ place. place ≤ length bytes.now) }
{
    let mut sections = sections;
    let mut place = first;
    'records: while let Some(section) = sections.next() {
        match read_record(section, bytes, place) {
            Ok((_, end)) => place = end,
            Err(fault) => return Err(fault),
        }
    }
    Ok(place)
}
