//! The commands: the words that each is, and what each does. A command has a file of its own.
ghost use Rattle.std.specs.Prelude.{◌≡◌, map, option_map};
ghost use Rattle.std.specs.String.{string_bytes};
ghost use Rattle.siit_top.specs.Promises.{HasOwnFiles, Promise};
ghost use Rattle.siit_top.specs.Read.{command_read};
ghost use Rattle.siit_top.specs.Runs.{run_between};
ghost use Rattle.siit_top.specs.Words.{command_of};

mod carrying;
mod discover;
mod dns64;
mod ends;
mod map;
mod run;
mod settings;
mod wkp;

use crate::commands::discover::{discover, read_discover};
use crate::commands::dns64::{dns64, given_name, read_dns64};
use crate::commands::map::{map, read_map};
use crate::commands::run::{RunFiles, read_run, run};
use crate::commands::wkp::{read_wkp, wkp};
use crate::status::Status;
use siit_command::Address;
use siit_rfc6052::Embed;
use siit_word::{Files, Idents};
use std::alloc::Global;

/// What the words ask.
#[derive(Clone, Copy)]
pub(crate) enum Command<'a> {
    /// Carry two captures through the network of a configuration.
    Run {
        configuration: &'a str,
        left: &'a str,
        right: &'a str,
        left_output: &'a str,
        right_output: &'a str,
        report: &'a str,
    },
    /// Carry the capture `input` through a translator under the well-known prefix, to `output`.
    Wkp {
        input: &'a String,
        output: &'a String,
    },
    /// Map an address at a device of a configuration, the first being 1.
    Map {
        configuration: &'a String,
        device: u64,
        address: Address,
    },
    /// Find the prefixes that a DNS answer shows.
    Discover {
        answer: &'a String,
    },
    /// Answer a DNS query for AAAA records from the responses, under a prefix.
    Dns64 {
        prefix: Embed,
        query: &'a str,
        aaaa: &'a str,
        a: &'a str,
        output: &'a str,
    },
}

/// The command that the words are, or none: its name, and the words of that command.
pub(crate) fn read_command(words: &[String]) -> Option<Command<'_>>
    ensures { option_map command_read result ≡ command_of (map string_bytes words.now) }
{
    let [name, words @ ..] = words else {
        return None;
    };
    match name.as_str() {
        "run" => read_run(words),
        "wkp" => read_wkp(words),
        "map" => read_map(words),
        "discover" => read_discover(words),
        "dns64" => read_dns64(words),
        _ => None,
    }
}

/// Does what a command asks, and appends what is printed to `out`.
pub(crate) fn perform<F: Files, I: Idents>(
    alloc: Global,
    command: Command<'_>,
    files: &mut F,
    idents: &mut I,
    out: &mut Vec<u8>,
) -> Status
    requires { HasOwnFiles (command_read command) }
    ensures { Promise (command_read command.entry)
        (run_between (F.meaning files.old) (F.meaning files.new) (I.coming idents.old) (I.coming idents.new)
        out.old.items out.new.items result) }
{
    match command {
        Command::Run {
            configuration,
            left,
            right,
            left_output,
            right_output,
            report,
        } => {
            let names = RunFiles {
                configuration,
                left,
                right,
                left_output,
                right_output,
                report,
            };
            run(alloc, names, files, idents, out)
        }
        Command::Wkp { input, output } => {
            wkp(alloc, input.as_str(), output.as_str(), files, idents, out)
        }
        Command::Map {
            configuration,
            device,
            address,
        } => Status::from(map(alloc, files, configuration.as_str(), device, address, out)),
        Command::Discover { answer } => Status::from(discover(alloc, files, answer.as_str(), out)),
        Command::Dns64 {
            prefix,
            query,
            aaaa,
            a,
            output,
        } => Status::from(dns64(
            alloc,
            files,
            prefix,
            query,
            aaaa,
            given_name(a),
            output,
            out,
        )),
    }
}
