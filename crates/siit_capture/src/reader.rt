//! The records of a capture that comes in pieces.
ghost use Rattle.std.specs.Prelude.{◌≡◌, ◌≢◌, ◌+◌, ◌++◌, ◌<◌, ◌≤◌, ◌^◌, ℕ, List, length};
ghost use Rattle.std.specs.Prelude.{IfOk, IfSome, IsSome, MatchOption, None};
ghost use Rattle.siit_capture.specs.Captures.{Records, faulty, one_more};
ghost use Rattle.siit_capture.specs.LinkPackets.{packet_as, packet_of};
ghost use Rattle.siit_capture.specs.Peeks.{IsNext, Peeks};
ghost use Rattle.siit_capture.specs.Readings.{IsEndOf, HasNoRecord, IsGiven, WaitsForBytes};
ghost use Rattle.siit_capture.specs.Readings.{OnFault, OnNoRecord, OnNone, OnRecord};
ghost use Rattle.siit_capture.specs.Readings.{fed, nothing_fed, records_fed, records_to_come};
ghost use Rattle.siit_capture.specs.Readings.{with_piece, with_record, without_record};
ghost use Rattle.siit_capture.specs.Records.{Record};
ghost use Rattle.siit_capture.specs.Told.{told_record};

use crate::form::{CaptureFault, Form};
use crate::head::{HEAD, Head, read_head, whole_head};
use crate::link;
use crate::queue::ByteQueue;
use crate::record::{RECORD_HEAD, RecordHead, read_record};
use siit_rules::Family;
use siit_word::NoMemory;
use std::alloc::Global;
use std::marker::Model;

/// Reads the records of a capture that comes in pieces.
#[derive(Drop)]
pub struct CaptureReader {
    queue: ByteQueue,
    form: Option<Form>,
    place: u64,
    count: u64,
    found: Option<RecordHead>,
}

impl Model for CaptureReader {
    ghost use Rattle.std.specs.Prelude.{option_map};
    ghost use Rattle.siit_capture.specs.Readings.{Reading};

    ghost Value = { Reading };

    ghost use Rattle.siit_capture.specs.Holding.{found_record, IsKept};

    ghost view = { λ r. record {
      form = r.form;
      place = r.place;
      count = r.count;
      found = option_map (found_record r.queue.taken) r.found;
      rest = r.queue.rest;
    } };

    ghost invariant = { λ r. IsKept r.form r.place r.count r.found r.queue };
}

impl CaptureReader {
    /// A reader to which nothing was fed. All the memory of reading is taken here.
    pub fn new(alloc: Global) -> Result<CaptureReader, NoMemory>
        ensures { IfOk result (λ reader. reader ≡ nothing_fed) }
    {
        let queue = ByteQueue::new(alloc)?;
        Ok(CaptureReader {
            queue,
            form: None,
            place: 0,
            count: 0,
            found: None,
        })
    }

    /// Takes in the next piece of the capture, at most 65,536 bytes. No record may be waiting: nothing was fed before,
    /// or [`CaptureReader::next`] has answered `None` since.
    pub fn feed(&mut self, piece: &[u8])
        requires size { length piece.now ≤ 65536 }
        requires fed { fed self.old + length piece.now < 2 ^ 64 }
        requires waits { WaitsForBytes (records_fed self.old) }
        ensures reading { self.new ≡ with_piece self.old piece.now }
        ensures records { (more : List ℕ)
            → records_to_come self.new more ≡ records_to_come self.old (piece.now ++ more) }
        ensures fed { fed self.new ≡ fed self.old + length piece.now }
        ensures count { self.new.count ≡ self.old.count }
    {
        self.found = None;
        self.queue.push(piece);
        if self.form.is_some() {
            return;
        }
        let Some(form) = whole_head(self.queue.rest()) else {
            return;
        };
        self.form = Some(form);
        self.queue.take(HEAD);
        self.place += HEAD as u64;
    }

    /// Gives the next record, or `None` where the bytes fed hold no further whole record and no fault but that bytes
    /// are missing. A fault comes again at each later call.
    pub fn next(&mut self) -> Result<Option<Head>, CaptureFault>
        ensures given { OnRecord result (λ head. (found : Record) × IsGiven head found self.old self.new) }
        ensures waits { OnNone result (WaitsForBytes (records_fed self.new)) }
        ensures ahead { OnNone result ((more : List ℕ) (found : Record) (ends : ℕ) (rest : Records)
            → records_to_come self.old more ≡ one_more found ends rest → fed self.old < ends) }
        ensures fault { OnFault result (λ fault. (more : List ℕ)
            → records_to_come self.old more ≡ faulty self.old.place fault) }
        ensures uncut { OnFault result (λ fault. fault ≢ CaptureFault.CutRecord) }
        ensures kept { OnNoRecord result (self.new ≡ without_record self.old) }
        ensures at_rest { OnNoRecord result (HasNoRecord (records_fed self.new)) }
        ensures fed { fed self.new ≡ fed self.old }
    {
        match self.peek() {
            Ok(Some(head)) => Ok(Some(self.give(head))),
            Ok(None) => {
                self.found = None;
                Ok(None)
            }
            Err(fault) => {
                self.found = None;
                Err(fault)
            }
        }
    }

    /// Where the next item begins: 0 until the head is whole, then the place of the record that is next.
    pub fn place(&self) -> u64
        ensures { result ≡ self.now.place }
    {
        self.place
    }

    /// How many bytes were fed.
    pub fn fed(&self) -> u64
        ensures { result ≡ fed self.now }
    {
        self.place + self.queue.rest().len() as u64
    }

    /// Says, where no more bytes come, whether the capture ends as it may: a fault that [`CaptureReader::next`] has
    /// answered comes again, and else `CutRecord` where the bytes end within the head or a record.
    pub fn finish(&self) -> Result<(), CaptureFault>
        requires { HasNoRecord (records_fed self.now) }
        ensures { IsEndOf result self.now.place (records_fed self.now) }
    {
        match self.peek() {
            Err(fault) => Err(fault),
            Ok(_) if self.form.is_some() && self.queue.rest().is_empty() => Ok(()),
            Ok(_) => Err(CaptureFault::CutRecord),
        }
    }

    /// The bytes of the record given last.
    pub fn data(&self) -> &[u8]
        requires { IsSome self.now.found }
        ensures { IfSome self.now.found (λ found. result.now ≡ found.bytes) }
    {
        &self.queue.taken()[RECORD_HEAD..]
    }

    /// The IP packet of the record given last, or `None` where there is none.
    pub fn link_packet(&self) -> Option<(Family, &[u8])>
        requires { IsSome self.now.found }
        ensures { IfSome self.now.found (λ found. MatchOption result
            (packet_of found.link found.bytes ≡ None)
            (λ packet. packet_of found.link found.bytes ≡ packet_as packet.0 packet.1.now)) }
    {
        let found = self.found?;
        link::packet_of(found.link, self.data())
    }

    // The record that is next, or `None` where bytes of it, or of the head, are missing, or none are left.
    fn peek(&self) -> Result<Option<RecordHead>, CaptureFault>
        ensures { Peeks result self.now }
    {
        match self.form {
            Some(form) => read_record(form, self.queue.rest()),
            None => match read_head(self.queue.rest()) {
                Ok(_) => Ok(None),
                Err(fault) => Err(fault),
            },
        }
    }

    // Gives the record that is next.
    fn give(&mut self, head: RecordHead) -> Head
        requires next { IsNext head self.old }
        ensures reading { self.new ≡ with_record (told_record head self.old.rest) self.old }
        ensures head { result ≡ record {
          number = self.old.count + 1;
          place = self.old.place;
          seconds = head.seconds;
          nanos = head.nanos;
        } }
    {
        let place = self.place;
        let size = RECORD_HEAD + head.captured;
        self.queue.take(size);
        self.place += size as u64;
        self.count += 1;
        self.found = Some(head);
        Head {
            number: self.count,
            place,
            seconds: head.seconds,
            nanos: head.nanos,
        }
    }
}
