//! Both captures of a run.
ghost use Rattle.std.specs.Prelude.{◌≡◌, ◌+◌, ◌<◌, ◌≤◌, [], length, vec_len, IfErr, IfOk, IsSome, OnErr, OnOk, Err};
ghost use Rattle.siit_capture.specs.Readings.{nothing_fed};
ghost use Rattle.siit_chain.specs.Carried.{carry_captured, chain_of};
ghost use Rattle.siit_chain.specs.Carried as chains;
ghost use Rattle.siit_chain.specs.Log.{text_of};
ghost use Rattle.siit_chain.specs.Outputs.{name_in, names_in, AreApart, GrewByPart, WriteFailedIn};
ghost use Rattle.siit_run.specs.Runs.{going};
ghost use Rattle.siit_word.specs.Files.{Touches};
ghost use Rattle.siit_running.specs.Carrying.{packet_in, CarriesAll};
ghost use Rattle.siit_running.specs.Ends.{heads_judged, source_at, turns_of, carried_at, AreSources, HasBadHead, HasFault, HaveLooked, IsChosen, IsLookFault, ReadOn};
ghost use Rattle.siit_running.specs.Inputs.{input_name, names_of, AreTold};
ghost use Rattle.siit_running.specs.Sources.{new_source};

use crate::fault::RunFault;
use crate::inputs::Inputs;
use crate::next::earlier;
use crate::source::Source;
use siit_capture::CaptureReader;
use siit_carry::{Chain, ChainFault};
use siit_chain::{Counts, Device, End, Origin, Outs};
use siit_word::{Files, Idents, NoMemory};
use std::alloc::Global;

/// How many bytes are asked for at once.
const PIECE: usize = 65_536;

/// The memory that a run reads with: a reader of each capture, to which nothing was fed, and room for a piece.
#[derive(Drop)]
pub struct Readers {
    left: CaptureReader,
    right: CaptureReader,
    piece: Vec<u8>,
    ghost left_is_fresh: { left ≡ nothing_fed },
    ghost right_is_fresh: { right ≡ nothing_fed },
    ghost room: { vec_len piece ≡ 65536 },
}

impl Readers {
    /// Takes all the memory that a run reads with.
    pub fn new(alloc: Global) -> Result<Readers, NoMemory> {
        let left = CaptureReader::new(alloc)?;
        let right = CaptureReader::new(alloc)?;
        let piece = zeros(alloc)?;
        Ok(Readers { left, right, piece })
    }
}

// A function of its own, so that no proof has to look at so many zeros.
fn zeros(alloc: Global) -> Result<Vec<u8>, NoMemory>
    ensures { IfOk result (λ piece. vec_len piece ≡ 65536) }
{
    match vec![in alloc; 0u8; PIECE] {
        Ok(piece) => Ok(piece),
        Err(_) => Err(NoMemory),
    }
}

/// Both captures, of which some records were carried.
#[derive(Drop)]
pub(crate) struct Captures {
    pub left: Source,
    pub right: Source,
    pub piece: Vec<u8>,
}

impl Captures {
    /// Nothing was read yet.
    pub(crate) fn new(readers: Readers) -> Captures
        ensures left { result.left ≡ new_source }
        ensures right { result.right ≡ new_source }
        ensures room { vec_len result.piece ≡ 65536 }
    {
        let Readers { left, right, piece } = readers;
        Captures {
            left: Source::new(left),
            right: Source::new(right),
            piece,
        }
    }

    /// Judges the head of the left capture, and then that of the right one.
    pub(crate) fn judge_heads<F: Files>(
        &mut self,
        inputs: Inputs<'_>,
        files: &mut F,
    ) -> Result<(), RunFault>
        requires sources { AreSources (F.meaning files.old) (input_name inputs) self.old }
        requires room { vec_len self.old.piece ≡ 65536 }
        ensures looked { OnOk result (HaveLooked (F.meaning files.old) (input_name inputs.entry) self.old self.new) }
        ensures good { OnOk result (AreTold (F.meaning files.old) (input_name inputs.entry)
            → heads_judged (F.meaning files.old) (input_name inputs.entry) self.old ≡ going) }
        ensures read { OnOk result (ReadOn (F.meaning files.old) (F.meaning files.new) (input_name inputs.entry) self.old self.new) }
        ensures fault { IfErr result (IsLookFault (F.meaning files.old) (F.meaning files.new) (input_name inputs.entry) self.old self.new
            (HasBadHead (F.meaning files.old) (input_name inputs.entry) self.old)) }
        ensures room { vec_len self.new.piece ≡ 65536 }
        ensures only { Touches (F.meaning files.old) (F.meaning files.new) (names_of (input_name inputs.entry)) [] }
    {
        let left = self
            .left
            .look(End::Left, inputs.left, files, &mut self.piece)?;
        left.judge_head(End::Left)?;
        let right = self
            .right
            .look(End::Right, inputs.right, files, &mut self.piece)?;
        right.judge_head(End::Right)
    }

    /// The record that is carried next: the earlier of those that stand next in both captures, the left one at equal
    /// times. `None` where both captures have ended.
    pub(crate) fn next_origin<F: Files>(
        &mut self,
        inputs: Inputs<'_>,
        files: &mut F,
    ) -> Result<Option<Origin>, RunFault>
        requires sources { AreSources (F.meaning files.old) (input_name inputs) self.old }
        requires room { vec_len self.old.piece ≡ 65536 }
        ensures looked { OnOk result (HaveLooked (F.meaning files.old) (input_name inputs.entry) self.old self.new) }
        ensures chosen { IfOk result (IsChosen (F.meaning files.old) (input_name inputs.entry) self.old self.new) }
        ensures read { OnOk result (ReadOn (F.meaning files.old) (F.meaning files.new) (input_name inputs.entry) self.old self.new) }
        ensures fault { IfErr result (IsLookFault (F.meaning files.old) (F.meaning files.new) (input_name inputs.entry) self.old self.new
            (HasFault (F.meaning files.old) (input_name inputs.entry) self.old)) }
        ensures room { vec_len self.new.piece ≡ 65536 }
        ensures only { Touches (F.meaning files.old) (F.meaning files.new) (names_of (input_name inputs.entry)) [] }
    {
        let left = self
            .left
            .look(End::Left, inputs.left, files, &mut self.piece)?;
        let left = left.record(End::Left)?;
        let right = self
            .right
            .look(End::Right, inputs.right, files, &mut self.piece)?;
        let right = right.record(End::Right)?;
        Ok(earlier(left, right))
    }

    /// Carries the record of this origin, which stands next in its capture, and all that comes of it.
    pub(crate) fn carry<D: Device + Drop, F: Files, I: Idents>(
        &mut self,
        chain: &mut Chain<D>,
        origin: Origin,
        outs: Outs<'_>,
        files: &mut F,
        idents: &mut I,
    ) -> Result<Counts, ChainFault>
        requires waits { IsSome (source_at origin.end self.old).reader.found }
        requires apart { AreApart (name_in outs) }
        requires few { length chain.old.devices.items < 256 }
        ensures carried { let all = carry_captured (chain_of D.outcome D.measure chain.old.devices.items chain.old.left chain.old.right)
            origin (chains.fresh (I.coming idents.old)) (packet_in (source_at origin.end self.old).reader.found) in
            IfOk result (λ counts. CarriesAll (name_in outs.entry) (F.meaning files.old) (F.meaning files.new) (I.coming idents.new) counts all) }
        ensures part { let all = carry_captured (chain_of D.outcome D.measure chain.old.devices.items chain.old.left chain.old.right)
            origin (chains.fresh (I.coming idents.old)) (packet_in (source_at origin.end self.old).reader.found) in
            OnErr result (GrewByPart (name_in outs.entry) (F.meaning files.old) (F.meaning files.new) (text_of all.log)) }
        ensures captures { OnOk result (self.new ≡ carried_at origin.end origin.number self.old) }
        ensures cause { result ≡ Err ChainFault.WriteFault → WriteFailedIn (name_in outs.entry) (F.meaning files.old) (F.meaning files.new) }
        ensures only { Touches (F.meaning files.old) (F.meaning files.new) [] (names_in outs.entry) }
        ensures devices { chain.new.devices ≡ chain.old.devices }
        ensures left { chain.new.left ≡ chain.old.left }
        ensures right { chain.new.right ≡ chain.old.right }
    {
        match origin.end {
            End::Left => self.left.carry(chain, origin, outs, files, idents),
            End::Right => self.right.carry(chain, origin, outs, files, idents),
        }
    }
}
