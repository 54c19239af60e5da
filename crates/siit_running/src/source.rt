//! The source of a capture's records: its reader, and what stands next.
ghost use Rattle.std.specs.Prelude.{◌≡◌, ◌+◌, ◌<◌, ◌≤◌, ℕ, [], ◌∷◌, length, IfOk, IfErr, IsSome, IsTrue, None, OnErr, OnOk, Some, Err};
ghost use Rattle.std.specs.Option.{option_copied};
ghost use Rattle.siit_capture.specs.Captures.{Records, one_more};
ghost use Rattle.siit_capture.specs.Readings.{fed};
ghost use Rattle.siit_capture.specs.Records.{Record};
ghost use Rattle.siit_chain.specs.Carried.{carry_captured, chain_of, fresh};
ghost use Rattle.siit_chain.specs.Log.{text_of};
ghost use Rattle.siit_chain.specs.Outputs.{name_in, names_in, some_name, AreApart, GrewByPart, WriteFailedIn};
ghost use Rattle.siit_word.specs.Files.{held, Touches};
ghost use Rattle.siit_run.specs.Ahead.{IsReadTo};
ghost use Rattle.siit_run.specs.Looks.{records_left};
ghost use Rattle.siit_running.specs.Carrying.{packet_in, CarriesAll};
ghost use Rattle.siit_running.specs.Looking.{GivesNext, IsUnreadIn, IsUnreadable, StandsNext};
ghost use Rattle.siit_running.specs.Sources.{file_named, turns_left, FailsWhereItMay, HasLooked, IsSource, ReadsOn};

use crate::fault::RunFault;
use crate::next::Next;
use siit_capture::CaptureReader;
use siit_carry::{Chain, ChainFault};
use siit_chain::{Counts, Device, End, Origin, Outs};
use siit_run::{Stop, look};
use siit_word::{Files, Idents};

/// What reads a capture, and what it knows of the records that aren't carried yet.
#[derive(Drop)]
pub(crate) struct Source {
    pub reader: CaptureReader,
    /// What stands next, once it was looked at.
    pub next: Option<Next>,
    /// How many records were carried.
    pub carried: u64,
}

impl Source {
    /// Nothing was read yet, by a reader to which nothing was fed.
    pub(crate) fn new(reader: CaptureReader) -> Source
        ensures { result ≡ record { reader = reader; next = None; carried = 0 } }
    {
        Source {
            reader,
            next: None,
            carried: 0,
        }
    }

    /// Looks at what stands next, unless it is known. Without a file that is the end. `end` is the capture's end, which
    /// a fault names; a piece of the file is asked for only where the next record isn't whole in what was read.
    pub(crate) fn look<F: Files>(
        &mut self,
        end: End,
        name: Option<&str>,
        files: &mut F,
        piece: &mut [u8],
    ) -> Result<Next, RunFault>
        requires source { IsSource (file_named (F.meaning files.old) (option_copied name)) self.old }
        requires room { length piece.old ≡ 65536 }
        ensures known { IfOk result (λ next. self.new.next ≡ Some next) }
        ensures looked { OnOk result (HasLooked (file_named (F.meaning files.old) (option_copied name.entry)) self.old self.new) }
        ensures read { OnOk result (ReadsOn (F.meaning files.old) (F.meaning files.new) (option_copied name.entry) self.old self.new) }
        ensures fault { IfErr result (IsUnreadable end (F.meaning files.old) (F.meaning files.new) (option_copied name.entry) self.old self.new) }
        ensures only { Touches (F.meaning files.old) (F.meaning files.new) (some_name (option_copied name.entry)) [] }
    {
        if let Some(next) = self.next {
            return Ok(next);
        }
        let Some(name) = name else {
            self.next = Some(Next::End);
            return Ok(Next::End);
        };
        let next = next_in(&mut self.reader, end, name, files, piece)?;
        self.next = Some(next);
        Ok(next)
    }

    /// Carries the record that stands next, of this origin, through the chain, and all that comes of it. After a fault
    /// it stands there still.
    pub(crate) fn carry<D: Device + Drop, F: Files, I: Idents>(
        &mut self,
        chain: &mut Chain<D>,
        origin: Origin,
        outs: Outs<'_>,
        files: &mut F,
        idents: &mut I,
    ) -> Result<Counts, ChainFault>
        requires waits { IsSome self.old.reader.found }
        requires apart { AreApart (name_in outs) }
        requires few { length chain.old.devices.items < 256 }
        ensures carried { let all = carry_captured (chain_of D.outcome D.measure chain.old.devices.items chain.old.left chain.old.right)
            origin (fresh (I.coming idents.old)) (packet_in self.old.reader.found) in
            IfOk result (λ counts. CarriesAll (name_in outs.entry) (F.meaning files.old) (F.meaning files.new) (I.coming idents.new) counts all) }
        ensures part { let all = carry_captured (chain_of D.outcome D.measure chain.old.devices.items chain.old.left chain.old.right)
            origin (fresh (I.coming idents.old)) (packet_in self.old.reader.found) in
            OnErr result (GrewByPart (name_in outs.entry) (F.meaning files.old) (F.meaning files.new) (text_of all.log)) }
        ensures source { OnOk result (self.new ≡ record { reader = self.old.reader; next = None; carried = origin.number }) }
        ensures cause { result ≡ Err ChainFault.WriteFault → WriteFailedIn (name_in outs.entry) (F.meaning files.old) (F.meaning files.new) }
        ensures only { Touches (F.meaning files.old) (F.meaning files.new) [] (names_in outs.entry) }
        ensures devices { chain.new.devices ≡ chain.old.devices }
        ensures left { chain.new.left ≡ chain.old.left }
        ensures right { chain.new.right ≡ chain.old.right }
    {
        let counts = chain.carry(origin, self.reader.link_packet(), outs, files, idents)?;
        self.next = None;
        self.carried = origin.number;
        Ok(counts)
    }
}

/// What stands next in a file, which is read on until this is known.
fn next_in<F: Files>(
    reader: &mut CaptureReader,
    end: End,
    name: &str,
    files: &mut F,
    piece: &mut [u8],
) -> Result<Next, RunFault>
    requires fed { IsTrue ((F.meaning files.old).told name.now) → fed reader.old ≤ length (held ((F.meaning files.old).contents name.now)) }
    requires few { fed reader.old ≤ 4294967296 }
    requires room { length piece.old ≡ 65536 }
    ensures found { IsTrue ((F.meaning files.old).told name.now)
        → IfOk result (StandsNext (held ((F.meaning files.old).contents name.now)) reader.old reader.new) }
    ensures gives { IfOk result (GivesNext reader.old reader.new) }
    ensures fails { IfOk result (λ next. FailsWhereItMay (file_named (F.meaning files.old) (Some name.now)) (Some next)) }
    ensures fault { IfErr result (IsUnreadIn end (F.meaning files.old) (F.meaning files.new) name.now (fed reader.new)) }
    ensures fed { IsTrue ((F.meaning files.old).told name.now) → fed reader.new ≤ length (held ((F.meaning files.old).contents name.now)) }
    ensures few { fed reader.new ≤ 4294967296 }
    ensures more { fed reader.old ≤ fed reader.new }
    ensures read { OnOk result (IsReadTo ((F.meaning files.old).given name.now) ((F.meaning files.new).given name.now) (fed reader.new)) }
    ensures near { IsTrue ((F.meaning files.old).told name.now) → (found : Record) (ends : ℕ) (rest : Records)
        → records_left (held ((F.meaning files.old).contents name.now)) reader.old ≡ one_more found ends rest
        → fed reader.old ≤ ends + 65536 → fed reader.new ≤ ends + 65536 }
    ensures only { Touches (F.meaning files.old) (F.meaning files.new) (name.now ∷ []) [] }
{
    match look(reader, files, name, piece) {
        Ok(Some(head)) => Ok(Next::Record(head)),
        Ok(None) => Ok(Next::End),
        Err(Stop::Bad(fault)) => Ok(Next::Fault {
            place: reader.place(),
            fault,
        }),
        Err(Stop::Failed) => Err(RunFault::ReadFault(end)),
        Err(Stop::TooLong) => Err(RunFault::TooLong(end)),
    }
}
