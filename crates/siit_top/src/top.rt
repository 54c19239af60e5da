//! The top call: the words, and the command that they are.
ghost use Rattle.std.specs.Prelude.{◌≡◌, ◌≢◌, ◌↔◌, map, None, IfSome};
ghost use Rattle.std.specs.String.{string_bytes};
ghost use Rattle.siit_top.specs.PairRun.{PairPromise};
ghost use Rattle.siit_top.specs.Promises.{IsComplete, Promise};
ghost use Rattle.siit_top.specs.Runs.{run_between};
ghost use Rattle.siit_top.specs.Words.{command_of};

use crate::commands::{perform, read_command};
use crate::status::Status;
use siit_delivery::pairs_deliver;
use siit_word::{Files, Idents};
use std::alloc::Global;

/// Does what the words ask, over these files, and appends what is printed to `out`. After each status but `Ok`, `out`
/// is as before. Where the words are no command, nothing is read, written or taken. There are five commands.
///
/// `run CONFIG LEFT RIGHT OUTLEFT OUTRIGHT REPORT`: the records of the captures LEFT and RIGHT are carried through the
/// chain of translators of the configuration CONFIG, in the order of their times. What leaves it at its ends is written
/// to OUTLEFT and OUTRIGHT, what is dropped to REPORT, and REPORT's last line, the counts, is printed. A capture `-`
/// has no records. CONFIG may have up to 1,048,576 bytes, a capture up to 4,294,967,296.
///
/// `wkp IN OUT`: the same with one plain translator under the well-known prefix 64:ff9b::/96 (RFC 6052 section 2.1): IN
/// is carried from the left, what leaves at the right is written to OUT, and there is no other file.
///
/// `map CONFIG DEVICE ADDRESS`: the address that an IPv4 or IPv6 address is mapped to at a device of the configuration
/// CONFIG, the first being 1, is printed. CONFIG may have up to 1,048,576 bytes.
///
/// `dns64 PREFIX QUERY AAAA A OUT`: the answer to the query QUERY for AAAA records (RFC 6147), by the response AAAA and
/// by the response A for IPv4 addresses, which isn't given where it is `-`, is written to OUT, and what was made is
/// printed. A message may have up to 65,535 bytes.
///
/// `discover ANSWER`: the translation prefixes that the DNS answer ANSWER about ipv4only.arpa shows (RFC 7050 section
/// 3) are printed, a line each. ANSWER may have up to 65,535 bytes.
pub fn siit_main<F: Files, I: Idents>(
    alloc: Global,
    words: &[String],
    files: &mut F,
    idents: &mut I,
    out: &mut Vec<u8>,
) -> Status
    ensures bad_words { (result ≡ Status.BadWords) ↔ (command_of (map string_bytes words.now) ≡ None) }
    ensures promise { IfSome (command_of (map string_bytes words.now)) (λ command. Promise command
        (run_between (F.meaning files.old) (F.meaning files.new) (I.coming idents.old) (I.coming idents.new)
        out.old.items out.new.items result)) }
    ensures complete { IfSome (command_of (map string_bytes words.now)) (λ command. IsComplete command
        (run_between (F.meaning files.old) (F.meaning files.new) (I.coming idents.old) (I.coming idents.new)
        out.old.items out.new.items result)) }
    ensures pair { IfSome (command_of (map string_bytes words.now)) (λ command. PairPromise command
        (run_between (F.meaning files.old) (F.meaning files.new) (I.coming idents.old) (I.coming idents.new)
        out.old.items out.new.items result)) }
    ensures untouched { result ≡ Status.BadWords → files.new ≡ files.old }
    ensures untaken { result ≡ Status.BadWords → idents.new ≡ idents.old }
    ensures silent { result ≢ Status.Ok → out.new.items ≡ out.old.items }
{
    // The law of what pairs deliver, for the clause `pair`. There is nothing to run.
    pairs_deliver();
    match read_command(words) {
        Some(command) => perform(alloc, command, files, idents, out),
        None => Status::BadWords,
    }
}

#[cfg(test)]
mod tests;
