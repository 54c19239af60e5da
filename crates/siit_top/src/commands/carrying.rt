//! Captures that a command carries through a network, and the end line that it prints.
ghost use Rattle.std.specs.Prelude.{◌≡◌, ◌<◌, ◌++◌, All, OnErr, OnOk, length};
ghost use Rattle.siit_chain.specs.Outputs.{name_in, names_in, AreApart};
ghost use Rattle.siit_chain.specs.Texts.{end_line};
ghost use Rattle.siit_network.specs.Networks.{network};
ghost use Rattle.siit_roles.specs.Limits.{IsWithinLimits};
ghost use Rattle.siit_running.specs.Answers.{totals_told};
ghost use Rattle.siit_running.specs.Inputs.{input_name, names_of, AreNoneOf};
ghost use Rattle.siit_top.specs.Carried.{carried_status, EndsSo};
ghost use Rattle.siit_word.specs.Files.{Touches};

use crate::status::Status;
use siit_chain::{End, Outs, end_line};
use siit_network::carry_captures;
use siit_roles::ChainSettings;
use siit_running::{Inputs, RunCounts, RunFault};
use siit_word::{Files, Idents};
use std::alloc::{AllocError, Global};

/// Carries both captures through the network of these settings, into outputs that are made anew, and appends the end
/// line to `out`.
pub(crate) fn carry<F: Files, I: Idents>(
    alloc: Global,
    settings: ChainSettings,
    inputs: Inputs<'_>,
    outs: Outs<'_>,
    files: &mut F,
    idents: &mut I,
    out: &mut Vec<u8>,
) -> Result<(), RunFault>
    requires limits { All IsWithinLimits settings.devices }
    requires few { length settings.devices < 256 }
    requires apart { AreApart (name_in outs) }
    requires none_of { AreNoneOf (input_name inputs) (names_in outs) }
    ensures ends { EndsSo (record {
      network = network settings;
      captures = input_name inputs.entry;
      outputs = name_in outs.entry;
      before = F.meaning files.old;
      now = F.meaning files.new;
      coming_before = I.coming idents.old;
      coming_now = I.coming idents.new;
    }) out.old.items out.new.items result }
    ensures only { Touches (F.meaning files.old) (F.meaning files.new) (names_of (input_name inputs.entry)) (names_in outs.entry) }
{
    let counts = carry_captures(alloc, settings, inputs, outs, files, idents)?;
    match append_line(&counts, out) {
        Ok(()) => Ok(()),
        Err(AllocError) => Err(RunFault::NoMemory),
    }
}

/// Appends the end line of what was counted.
fn append_line(counts: &RunCounts, out: &mut Vec<u8>) -> Result<(), AllocError>
    ensures ok { OnOk result (out.new.items ≡ out.old.items ++ end_line (totals_told counts.now)) }
    ensures err { OnErr result (out.new.items ≡ out.old.items) }
{
    let line = end_line(counts.left_read, counts.right_read, counts.written);
    out.extend_from_slice(line.as_str().as_bytes())
}

/// The status once captures were carried, which these words name, that of the left and that of the right one.
pub(crate) fn carried_status(left: u8, right: u8, carried: Result<(), RunFault>) -> Status
    ensures { result ≡ carried_status left right carried }
{
    match carried {
        Ok(()) => Status::Ok,
        Err(RunFault::ReadFault(_)) => Status::ReadFault,
        Err(RunFault::WriteFault) => Status::WriteFault,
        Err(RunFault::BadCapture { end, place, fault }) => Status::BadCapture { end, place, fault },
        Err(RunFault::TooLong(End::Left)) => Status::TooLong { word: left },
        Err(RunFault::TooLong(End::Right)) => Status::TooLong { word: right },
        Err(RunFault::NoMemory) => Status::NoMemory,
    }
}
