//! A generated capture, carried through the network that settings describe.
ghost use Rattle.std.specs.Prelude.{◌≡◌, ◌<◌, ◌≤◌, length, All, [], IfErr, Some, None};
ghost use Rattle.std.specs.Option.{option_copied};
ghost use Rattle.siit_chain.specs.Outputs.{name_in, names_in, AreApart};
ghost use Rattle.siit_making.specs.Crossings.{generated_crossing, AreTexts, IsNoCaptureFault};
ghost use Rattle.siit_network.specs.Crossings.{HoldsAfter};
ghost use Rattle.siit_network.specs.Networks.{network};
ghost use Rattle.siit_roles.specs.Limits.{IsWithinLimits};
ghost use Rattle.siit_word.specs.Files.{IsNoneOf, Touches};

use crate::capture::GeneratedCapture;
use crate::texts::are_texts;
use crate::through::GeneratedFiles;
use siit_chain::Outs;
use siit_network::carry_captures;
use siit_roles::ChainSettings;
use siit_running::{Inputs, RunCounts, RunFault};
use siit_word::{Files, Idents};
use std::alloc::Global;

/// Carries the records of a generated capture from the left through the devices of these settings, as `carry_captures`
/// of `siit_network` carries a capture from a file, with nothing at the right. `name`, which is that of no output,
/// stands for the capture; what a file of this name holds is neither read nor written.
///
/// The capture is made as it is read, packet by packet.
pub fn carry_generated<F: Files, I: Idents>(
    alloc: Global,
    settings: ChainSettings,
    mut capture: GeneratedCapture,
    name: &str,
    outs: Outs<'_>,
    files: &mut F,
    idents: &mut I,
) -> Result<RunCounts, RunFault>
    requires limits { All IsWithinLimits settings.devices }
    requires few { length settings.devices < 256 }
    requires apart { AreApart (name_in outs) }
    requires none_of { IsNoneOf name.now (names_in outs) }
    ensures ends { HoldsAfter (generated_crossing (network settings) capture.count capture.seed name.now (name_in outs.entry)
        (F.meaning files.old) (F.meaning files.new) (I.coming idents.old) (I.coming idents.new)) result }
    ensures fault { IfErr result IsNoCaptureFault }
    ensures only { Touches (F.meaning files.old) (F.meaning files.new) [] (names_in outs.entry) }
{
    are_texts(outs);
    capture.start_over();
    let mut shown = GeneratedFiles {
        files,
        name,
        capture: &mut capture,
    };
    let inputs = Inputs {
        left: Some(name),
        right: None,
    };
    carry_shown(alloc, settings, name, inputs, outs, &mut shown, idents)
}

/// Carries the capture that these files show under this name, the left one of these captures and the only one.
fn carry_shown<F: Files, I: Idents>(
    alloc: Global,
    settings: ChainSettings,
    name: &str,
    inputs: Inputs<'_>,
    outs: Outs<'_>,
    files: &mut GeneratedFiles<'_, F>,
    idents: &mut I,
) -> Result<RunCounts, RunFault>
    requires limits { All IsWithinLimits settings.devices }
    requires few { length settings.devices < 256 }
    requires apart { AreApart (name_in outs) }
    requires none_of { IsNoneOf name.now (names_in outs) }
    requires shown { files.old.name.now ≡ name.now }
    requires left { option_copied inputs.left ≡ Some name.now }
    requires right { option_copied inputs.right ≡ None }
    requires texts { AreTexts (name_in outs) }
    requires most { files.old.capture.now.count ≤ 100000 }
    ensures ends { HoldsAfter (generated_crossing (network settings) files.old.capture.now.count files.old.capture.now.seed name.now (name_in outs.entry)
        (F.meaning files.old.files.now) (F.meaning files.new.files.now) (I.coming idents.old) (I.coming idents.new)) result }
    ensures fault { IfErr result IsNoCaptureFault }
    ensures only { Touches (F.meaning files.old.files.now) (F.meaning files.new.files.now) [] (names_in outs.entry) }
    ensures same_reference { files.new.files.ghost_name ≡ files.old.files.ghost_name }
{
    carry_captures(alloc, settings, inputs, outs, files, idents)
}
