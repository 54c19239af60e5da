//! The run.
ghost use Rattle.std.specs.Prelude.{◌≡◌, ◌<◌, ◌≤◌, ◌⊎◌, ℕ, [], ◌∷◌, ◌++◌, length, vec_len, IfErr, IfOk, IfSome, OnErr, OnOk, Err, List};
ghost use Rattle.siit_capture.specs.declared.form.CaptureFault.{CaptureFault};
ghost use Rattle.siit_chain.specs.Carried.{chain_of};
ghost use Rattle.siit_chain.specs.Counted.{added, counts_of};
ghost use Rattle.siit_chain.specs.Log.{begins, text_of, Entry};
ghost use Rattle.siit_chain.specs.Outputs.{name_in, names_in, only, AreApart, GrewBy, GrewByPart, WriteFailedIn};
ghost use Rattle.siit_chain.specs.Texts.{end_line};
ghost use Rattle.siit_chain.specs.declared.origin.End.{End};
ghost use Rattle.siit_chain.specs.declared.origin.End.TheVariants as ends;
ghost use Rattle.siit_chain.specs.declared.origin.Output.TheVariants as outputs;
ghost use Rattle.siit_run.specs.Runs.{finished, stopped};
ghost use Rattle.siit_word.specs.Files.{Touches};
ghost use Rattle.siit_running.specs.Answers.{totals_told, AreCounts, HasRun, IsFileFault, IsNotFarAhead, AreUnread};
ghost use Rattle.siit_running.specs.Ends.{HoldsAfterRun};
ghost use Rattle.siit_running.specs.Inputs.{input_name, names_of, started_run, whole_run, AreNoneOf, AreTold, IsTooLong, IsWithin, ReadFailedAt};
ghost use Rattle.siit_running.specs.Sources.{file_named, new_source, MayFailAt};

use crate::captures::{Captures, Readers};
use crate::fault::RunFault;
use crate::inputs::Inputs;
use siit_capture::capture_head;
use siit_carry::{Chain, write_text};
use siit_chain::{Counts, Device, Output, Outs, end_line};
use siit_word::{Failed, Files, Idents};

/// What a run counted: the records read from both captures, the packets that left at both ends, and the drops.
#[derive(Clone, Copy, Debug, PartialEq, Eq)]
pub struct RunCounts {
    pub left_read: u64,
    pub right_read: u64,
    pub written: Counts,
}

/// Carries the records of both captures through the chain. First the heads of the output captures are written, and the
/// heads of both captures are judged, the left one first. Then at each turn the earlier of the records that stand next
/// is carried to every end that comes of it, the left one at equal times. Behind both captures the end line is written.
///
/// The captures are read in pieces of 65,536 bytes, a piece only where the next record isn't whole in what was read.
/// What is written is appended: the caller has made the outputs, or lets them be made here.
pub fn run<D: Device + Drop, F: Files, I: Idents>(
    chain: &mut Chain<D>,
    readers: Readers,
    inputs: Inputs<'_>,
    outs: Outs<'_>,
    files: &mut F,
    idents: &mut I,
) -> Result<RunCounts, RunFault>
    requires apart { AreApart (name_in outs) }
    requires none_of { AreNoneOf (input_name inputs) (names_in outs) }
    requires few { length chain.old.devices.items < 256 }
    ensures ok { let whole = whole_run (chain_of D.outcome D.measure chain.old.devices.items chain.old.left chain.old.right)
        (I.coming idents.old) (F.meaning files.old) (input_name inputs.entry) in
        AreTold (F.meaning files.old) (input_name inputs.entry)
        → OnOk result (HasRun (name_in outs.entry) (F.meaning files.old) (F.meaning files.new) (I.coming idents.new) whole finished) }
    ensures counts { let whole = whole_run (chain_of D.outcome D.measure chain.old.devices.items chain.old.left chain.old.right)
        (I.coming idents.old) (F.meaning files.old) (input_name inputs.entry) in
        AreTold (F.meaning files.old) (input_name inputs.entry) → IfOk result (λ counts. AreCounts counts whole) }
    ensures within { AreTold (F.meaning files.old) (input_name inputs.entry)
        → OnOk result ((end : End) → IsWithin (F.meaning files.old) (input_name inputs.entry end)) }
    ensures bad { let whole = whole_run (chain_of D.outcome D.measure chain.old.devices.items chain.old.left chain.old.right)
        (I.coming idents.old) (F.meaning files.old) (input_name inputs.entry) in
        (end : End) (place : ℕ) (fault : CaptureFault) → result ≡ Err (RunFault.BadCapture end place fault)
        → AreTold (F.meaning files.old) (input_name inputs.entry)
        → HasRun (name_in outs.entry) (F.meaning files.old) (F.meaning files.new) (I.coming idents.new) whole (stopped end place fault) }
    ensures bad_place { (end : End) (place : ℕ) (fault : CaptureFault) → result ≡ Err (RunFault.BadCapture end place fault)
        → MayFailAt (file_named (F.meaning files.old) (input_name inputs.entry end)) place }
    ensures part { let whole = whole_run (chain_of D.outcome D.measure chain.old.devices.items chain.old.left chain.old.right)
        (I.coming idents.old) (F.meaning files.old) (input_name inputs.entry) in
        AreTold (F.meaning files.old) (input_name inputs.entry)
        → OnErr result (GrewByPart (name_in outs.entry) (F.meaning files.old) (F.meaning files.new) (text_of whole.trace.log)) }
    ensures ahead { let chain = chain_of D.outcome D.measure chain.old.devices.items chain.old.left chain.old.right in
        let start = started_run (I.coming idents.old) (F.meaning files.old) (input_name inputs.entry) in
        AreTold (F.meaning files.old) (input_name inputs.entry)
        → IfErr result (λ fault. IsFileFault fault → AreUnread (F.meaning files.old) (F.meaning files.new) (input_name inputs.entry)
        ⊎ IsNotFarAhead chain start (input_name inputs.entry) (name_in outs.entry) (F.meaning files.old) (F.meaning files.new)) }
    ensures read_fault { (end : End) → result ≡ Err (RunFault.ReadFault end)
        → ReadFailedAt (F.meaning files.old) (F.meaning files.new) (input_name inputs.entry end) }
    ensures write_fault { result ≡ Err RunFault.WriteFault → WriteFailedIn (name_in outs.entry) (F.meaning files.old) (F.meaning files.new) }
    ensures too_long { (end : End) → result ≡ Err (RunFault.TooLong end) → IsTooLong (F.meaning files.old) (input_name inputs.entry end) }
    ensures only { Touches (F.meaning files.old) (F.meaning files.new) (names_of (input_name inputs.entry)) (names_in outs.entry) }
    ensures devices { chain.new.devices ≡ chain.old.devices }
    ensures left { chain.new.left ≡ chain.old.left }
    ensures right { chain.new.right ≡ chain.old.right }
{
    let mut captures = Captures::new(readers);
    carry_captures(chain, &mut captures, inputs, outs, files, idents)
}

/// Writes the heads of the output captures, judges those of both captures, carries their records, and ends the report.
fn carry_captures<D: Device + Drop, F: Files, I: Idents>(
    chain: &mut Chain<D>,
    captures: &mut Captures,
    inputs: Inputs<'_>,
    outs: Outs<'_>,
    files: &mut F,
    idents: &mut I,
) -> Result<RunCounts, RunFault>
    requires new_left { captures.old.left ≡ new_source }
    requires new_right { captures.old.right ≡ new_source }
    requires room { vec_len captures.old.piece ≡ 65536 }
    requires apart { AreApart (name_in outs) }
    requires none_of { AreNoneOf (input_name inputs) (names_in outs) }
    requires few { length chain.old.devices.items < 256 }
    ensures ends { HoldsAfterRun (chain_of D.outcome D.measure chain.old.devices.items chain.old.left chain.old.right)
        (I.coming idents.old) (I.coming idents.new) (input_name inputs.entry) (name_in outs.entry) (F.meaning files.old) (F.meaning files.new) result }
    ensures only { Touches (F.meaning files.old) (F.meaning files.new) (names_of (input_name inputs.entry)) (names_in outs.entry) }
    ensures devices { chain.new.devices ≡ chain.old.devices }
    ensures left { chain.new.left ≡ chain.old.left }
    ensures right { chain.new.right ≡ chain.old.right }
{
    write_heads(&outs, files)?;
    captures.judge_heads(inputs, files)?;
    let mut written = Counts::none();
    while let Some(origin) = captures.next_origin(inputs, files)? {
        let more = captures.carry(chain, origin, outs, files, idents)?;
        written = sum(written, more);
    }
    let counts = RunCounts {
        left_read: captures.left.carried,
        right_read: captures.right.carried,
        written,
    };
    write_end(counts, &outs, files)?;
    Ok(counts)
}

/// Writes the heads of the output captures.
fn write_heads<F: Files>(outs: &Outs<'_>, files: &mut F) -> Result<(), Failed>
    requires { AreApart (name_in outs.now) }
    ensures ok { OnOk result (GrewBy (name_in outs.now) (F.meaning files.old) (F.meaning files.new) (text_of (begins ends.Left ∷ begins ends.Right ∷ []))) }
    ensures err { OnErr result (GrewByPart (name_in outs.now) (F.meaning files.old) (F.meaning files.new) (text_of (begins ends.Left ∷ begins ends.Right ∷ []))) }
    ensures cause { OnErr result (WriteFailedIn (name_in outs.now) (F.meaning files.old) (F.meaning files.new)) }
    ensures only { Touches (F.meaning files.old) (F.meaning files.new) [] (names_in outs.now) }
{
    let head = capture_head();
    write_text(files, outs, Output::Left, &head)?;
    write_text(files, outs, Output::Right, &head)
}

/// Writes the report's last line.
fn write_end<F: Files>(counts: RunCounts, outs: &Outs<'_>, files: &mut F) -> Result<(), Failed>
    requires { AreApart (name_in outs.now) }
    ensures ok { OnOk result (GrewBy (name_in outs.now) (F.meaning files.old) (F.meaning files.new) (only outputs.Report (end_line (totals_told counts)))) }
    ensures err { OnErr result (GrewByPart (name_in outs.now) (F.meaning files.old) (F.meaning files.new) (only outputs.Report (end_line (totals_told counts)))) }
    ensures cause { OnErr result (WriteFailedIn (name_in outs.now) (F.meaning files.old) (F.meaning files.new)) }
    ensures only { Touches (F.meaning files.old) (F.meaning files.new) [] (names_in outs.now) }
{
    let line = end_line(counts.left_read, counts.right_read, counts.written);
    write_text(files, outs, Output::Report, line.as_str().as_bytes())
}

/// The counts of what was written and of what was written after it.
fn sum(counts: Counts, more: Counts) -> Counts
    ensures { (log : List Entry) → more ≡ counts_of log → result ≡ added counts log }
{
    Counts {
        left: counts.left.saturating_add(more.left),
        right: counts.right.saturating_add(more.right),
        dropped: counts.dropped.saturating_add(more.dropped),
    }
}
