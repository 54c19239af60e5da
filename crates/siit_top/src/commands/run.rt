//! The command `run`: two captures, carried through the network of a configuration.
ghost use Rattle.std.specs.Prelude.{◌≡◌, ◌∷◌, [], map, option_map};
ghost use Rattle.std.specs.String.{string_bytes};
ghost use Rattle.siit_chain.specs.Outputs.{name_in};
ghost use Rattle.siit_chain.specs.declared.origin.End.{End};
ghost use Rattle.siit_chain.specs.declared.origin.Output.{Output};
ghost use Rattle.siit_running.specs.Inputs.{input_name};
ghost use Rattle.siit_top.specs.CarryRun.{captures_of, outputs_of};
ghost use Rattle.siit_top.specs.Carried.{HaveOwnFiles};
ghost use Rattle.siit_top.specs.Promises.{Promise};
ghost use Rattle.siit_top.specs.Read.{command_read, files_read};
ghost use Rattle.siit_top.specs.Runs.{run_between};
ghost use Rattle.siit_top.specs.Words.{are_output_names, carry_run, carry_run_of};

use crate::commands::Command;
use crate::commands::carrying::{carried_status, carry};
use crate::commands::dns64::given_name;
use crate::commands::settings::{read_settings, unset_status};
use crate::status::Status;
use siit_chain::Outs;
use siit_command::is_output_name;
use siit_running::Inputs;
use siit_word::{Files, Idents};
use std::alloc::Global;

/// The words that name LEFT and RIGHT, counted from 0.
const LEFT_WORD: u8 = 2;

const RIGHT_WORD: u8 = 3;

/// The words that name files. A capture that is `-` has no records.
#[derive(Clone, Copy)]
pub(crate) struct RunFiles<'a> {
    pub configuration: &'a str,
    pub left: &'a str,
    pub right: &'a str,
    pub left_output: &'a str,
    pub right_output: &'a str,
    pub report: &'a str,
}

impl<'a> RunFiles<'a> {
    /// Whether each output has a name that it may have beside all other words.
    fn have_output_names(&self) -> bool
        ensures { result ≡ are_output_names
            (self.now.left_output.now ∷ self.now.right_output.now ∷ self.now.report.now ∷ [])
            (self.now.configuration.now ∷ self.now.left.now ∷ self.now.right.now ∷ []) }
    {
        let RunFiles {
            configuration,
            left,
            right,
            left_output,
            right_output,
            report,
        } = *self;
        is_output_name(
            left_output,
            &[right_output, report, configuration, left, right],
        ) && is_output_name(
            right_output,
            &[report, left_output, configuration, left, right],
        ) && is_output_name(
            report,
            &[right_output, left_output, configuration, left, right],
        )
    }
}

/// The command of the words `CONFIG LEFT RIGHT OUTLEFT OUTRIGHT REPORT`. No output is `-`, or another file of the line.
pub(crate) fn read_run(words: &[String]) -> Option<Command<'_>>
    ensures { option_map command_read result ≡ carry_run_of (map string_bytes words.now) }
{
    let [
        configuration,
        left,
        right,
        left_output,
        right_output,
        report,
    ] = words
    else {
        return None;
    };
    let names = RunFiles {
        configuration: configuration.as_str(),
        left: left.as_str(),
        right: right.as_str(),
        left_output: left_output.as_str(),
        right_output: right_output.as_str(),
        report: report.as_str(),
    };
    if !names.have_output_names() {
        return None;
    }
    let RunFiles {
        configuration,
        left,
        right,
        left_output,
        right_output,
        report,
    } = names;
    Some(Command::Run {
        configuration,
        left,
        right,
        left_output,
        right_output,
        report,
    })
}

/// The captures that are given.
fn inputs_of(names: RunFiles<'_>) -> Inputs<'_>
    ensures { (end : End) → input_name result end ≡ captures_of (files_read names.entry) end }
{
    Inputs {
        left: given_name(names.left),
        right: given_name(names.right),
    }
}

/// The outputs.
fn outs_of(names: RunFiles<'_>) -> Outs<'_>
    ensures { (output : Output) → name_in result output ≡ outputs_of (files_read names.entry) output }
{
    Outs {
        left: Some(names.left_output),
        right: Some(names.right_output),
        report: Some(names.report),
    }
}

/// Reads the configuration, carries both captures through its network into the outputs, and appends the end line to
/// `out`.
pub(crate) fn run<F: Files, I: Idents>(
    alloc: Global,
    names: RunFiles<'_>,
    files: &mut F,
    idents: &mut I,
    out: &mut Vec<u8>,
) -> Status
    requires { HaveOwnFiles (captures_of (files_read names)) (outputs_of (files_read names)) }
    ensures { Promise (carry_run (files_read names.entry))
        (run_between (F.meaning files.old) (F.meaning files.new) (I.coming idents.old) (I.coming idents.new)
        out.old.items out.new.items result) }
{
    let settings = match read_settings(alloc, files, names.configuration) {
        Ok(settings) => settings,
        Err(none) => return unset_status(none),
    };
    let carried = carry(
        alloc,
        settings,
        inputs_of(names),
        outs_of(names),
        files,
        idents,
        out,
    );
    carried_status(LEFT_WORD, RIGHT_WORD, carried)
}
