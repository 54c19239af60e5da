//! Two captures, carried through the network that settings describe.
ghost use Rattle.std.specs.Prelude.{◌<◌, ◌++◌, length, All};
ghost use Rattle.siit_chain.specs.Outputs.{name_in, names_in, AreApart};
ghost use Rattle.siit_network.specs.Crossings.{HoldsAfter};
ghost use Rattle.siit_network.specs.Networks.{network};
ghost use Rattle.siit_roles.specs.Limits.{IsWithinLimits};
ghost use Rattle.siit_running.specs.Inputs.{input_name, names_of, AreNoneOf};
ghost use Rattle.siit_word.specs.Files.{Touches};

use crate::devices::chain_of;
use crate::outputs::create_outputs;
use siit_chain::Outs;
use siit_roles::ChainSettings;
use siit_running::{Inputs, Readers, RunCounts, RunFault, run};
use siit_word::{Files, Idents};
use std::alloc::Global;

/// Carries the records of both captures through the devices of these settings, in the order of their times, and writes
/// what comes of them to files that are made anew: the packets that leave at both ends, and the report.
///
/// All memory but that for packets which are cut again is taken first. Then the outputs are made, that of the left, of
/// the right, and that of the report; then it goes on as `siit_running::run` says.
pub fn carry_captures<F: Files, I: Idents>(
    alloc: Global,
    settings: ChainSettings,
    inputs: Inputs<'_>,
    outs: Outs<'_>,
    files: &mut F,
    idents: &mut I,
) -> Result<RunCounts, RunFault>
    requires limits { All IsWithinLimits settings.devices }
    requires few { length settings.devices < 256 }
    requires apart { AreApart (name_in outs) }
    requires none_of { AreNoneOf (input_name inputs) (names_in outs) }
    ensures ends { HoldsAfter (record {
      network = network settings;
      captures = input_name inputs.entry;
      outputs = name_in outs.entry;
      before = F.meaning files.old;
      now = F.meaning files.new;
      coming_before = I.coming idents.old;
      coming_now = I.coming idents.new;
    }) result }
    ensures only { Touches (F.meaning files.old) (F.meaning files.new) (names_of (input_name inputs.entry)) (names_in outs.entry) }
{
    let mut chain = chain_of(alloc, settings)?;
    let readers = Readers::new(alloc)?;
    create_outputs(files, outs)?;
    run(&mut chain, readers, inputs, outs, files, idents)
}
