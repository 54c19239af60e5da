//! The command `discover`: the translation prefixes that an answer about ipv4only.arpa shows (RFC 7050 section 3).
ghost use Rattle.std.specs.Prelude.{◌≡◌, ◌≢◌, ◌⊎◌, ℕ, ◌≤◌, ◌++◌, length, map, option_map, OnErr, OnOk};
ghost use Rattle.std.specs.String.{string_bytes};
ghost use Rattle.siit_discovery.specs.Discovery.{found};
ghost use Rattle.siit_discovery.specs.Seen.{prefix_seen};
ghost use Rattle.siit_top.specs.DiscoverRun.{decision_by, prefix_lines, Says};
ghost use Rattle.siit_top.specs.Ends.{discover_status};
ghost use Rattle.siit_top.specs.Promises.{Promise};
ghost use Rattle.siit_top.specs.Read.{command_read};
ghost use Rattle.siit_top.specs.Runs.{run_between};
ghost use Rattle.siit_top.specs.Words.{discover, discover_of};

use crate::commands::Command;
use crate::commands::ends::unread_status;
use crate::prefix_lines::lines_of;
use crate::status::Status;
use siit_addr::Prefix6;
use siit_command::{Unread, read_whole};
use siit_discovery::prefixes;
use siit_dns::DnsFault;
use siit_word::Files;
use std::alloc::{AllocError, Global};

/// The word that names ANSWER, counted from 0.
const ANSWER_WORD: u8 = 1;

/// The most bytes that a DNS message may have.
const MOST_MESSAGE: usize = 65_535;

/// How the command ended.
#[derive(Clone, Copy)]
pub(crate) enum DiscoverEnd {
    /// The lines were printed.
    Printed,
    /// ANSWER wasn't read to its end.
    Unread(Unread),
    /// ANSWER has this fault, which is never `NoMemory`.
    BadMessage(DnsFault),
    /// Memory was refused.
    NoMemory,
}

impl From<DiscoverEnd> for Status {
    ghost use Rattle.siit_top.specs.Ends.{discover_status};

    ghost from_gives = { λ end status. status ≡ discover_status end };

    fn from(end: DiscoverEnd) -> Status {
        match end {
            DiscoverEnd::Printed => Status::Ok,
            DiscoverEnd::Unread(unread) => unread_status(ANSWER_WORD, unread),
            DiscoverEnd::BadMessage(fault) => Status::BadMessage {
                word: ANSWER_WORD,
                fault,
            },
            DiscoverEnd::NoMemory => Status::NoMemory,
        }
    }
}

/// The command of the word `ANSWER`.
pub(crate) fn read_discover(words: &[String]) -> Option<Command<'_>>
    ensures { option_map command_read result ≡ discover_of (map string_bytes words.now) }
{
    let [answer] = words else {
        return None;
    };
    Some(Command::Discover { answer })
}

/// Finds the prefixes that the answer in the file shows, and appends their lines to `out`.
#[tactic(auto, using(crate::proofs::DiscoverRuns::discover_answered))]
pub(crate) fn discover<F: Files>(
    alloc: Global,
    files: &mut F,
    answer: &str,
    out: &mut Vec<u8>,
) -> DiscoverEnd
    ensures { (coming : ℕ → ℕ → ℕ) → Promise (discover answer.now)
        (run_between (F.meaning files.old) (F.meaning files.new) coming coming
        out.old.items out.new.items (discover_status result)) }
{
    match read_whole(alloc, files, answer, MOST_MESSAGE) {
        Ok(bytes) => show(alloc, &bytes, out),
        Err(unread) => DiscoverEnd::Unread(unread),
    }
}

// Shows the prefixes by the bytes of an answer.
fn show(alloc: Global, bytes: &[u8], out: &mut Vec<u8>) -> DiscoverEnd
    requires { length bytes.now ≤ 65535 }
    ensures says { (Says out.old.items out.new.items (discover_status result) (decision_by (found bytes.now)))
        ⊎ (discover_status result ≡ Status.NoMemory) }
    ensures out { discover_status result ≢ Status.Ok → out.new.items ≡ out.old.items }
{
    let found = match prefixes(alloc, bytes) {
        Ok(found) => found,
        Err(DnsFault::NoMemory) => return DiscoverEnd::NoMemory,
        Err(fault) => return DiscoverEnd::BadMessage(fault),
    };
    match append_lines(alloc, &found, out) {
        Ok(()) => DiscoverEnd::Printed,
        Err(AllocError) => DiscoverEnd::NoMemory,
    }
}

// Appends the lines of prefixes.
fn append_lines(alloc: Global, prefixes: &[Prefix6], out: &mut Vec<u8>) -> Result<(), AllocError>
    ensures ok { OnOk result (out.new.items ≡ out.old.items ++ prefix_lines (map prefix_seen prefixes.now)) }
    ensures err { OnErr result (out.new.items ≡ out.old.items) }
{
    let lines = lines_of(alloc, prefixes)?;
    out.extend_from_slice(lines.as_bytes())
}
