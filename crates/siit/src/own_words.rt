//! The words that the program answers itself.
ghost use Rattle.siit.specs.OwnWords.{own_word_of};
ghost use Rattle.std.specs.Prelude.{◌≡◌, ◌∷◌, [], map};
ghost use Rattle.std.specs.String.{string_bytes};

/// How the program is called.
pub(crate) const USAGE: &str = "\
usage: siit run CONFIG LEFT RIGHT OUTLEFT OUTRIGHT REPORT
       siit wkp IN OUT
       siit map CONFIG DEVICE ADDRESS
       siit make N SEED CONFIG LEFT OUTLEFT OUTRIGHT REPORT
       siit dns64 PREFIX QUERY AAAA A OUT
       siit discover ANSWER
       siit --help | --version
";

const HELP: &str = "
siit translates captures between IPv4 and IPv6 without state (RFC 7915).

run       carries the captures LEFT and RIGHT through the devices of CONFIG.
          What leaves at their ends is written to OUTLEFT and OUTRIGHT, and
          a line for each packet that is dropped to REPORT. `-` for LEFT or
          RIGHT is a capture without packets.
wkp       carries the capture IN through one device under 64:ff9b::/96, from
          its IPv4 side to OUT.
map       prints what a device of CONFIG, the first being 1, maps an IPv4 or
          IPv6 address to.
make      writes N packets, made from the number SEED, to LEFT, and does with
          them what run does.
dns64     writes the answer to the DNS query QUERY to OUT, from the responses
          AAAA and A, with addresses under PREFIX. `-` for A is no response.
discover  prints the translation prefixes that ANSWER shows, a DNS answer
          about ipv4only.arpa.

An output is overwritten, unless another word names the same file.

Exit status: 0 done, 2 bad words, 3 bad configuration, 4 read fault,
5 write fault, 6 bad capture, 7 no memory, 8 file too long, 9 bad DNS message,
10 no device. Where it isn't 0, a line on standard output says which, and
standard error which file failed and why.
";

const VERSION: &str = "siit 0.1.0\n";

/// A word that the program answers itself, where it is the only one.
#[derive(Clone, Copy, Debug, PartialEq, Eq)]
pub(crate) enum OwnWord {
    Help,
    Version,
}

impl OwnWord {
    /// What is printed, one text behind the other.
    pub(crate) fn texts(self) -> [&'static str; 2] {
        match self {
            OwnWord::Help => [USAGE, HELP],
            OwnWord::Version => [VERSION, ""],
        }
    }
}

/// Which of them the words after the program's name are, or none.
pub(crate) fn own_word(words: &[String]) -> Option<OwnWord>
    ensures { result ≡ own_word_of (map string_bytes words.now) }
{
    match words {
        [word] => own_word_named(word.as_str()),
        _ => None,
    }
}

fn own_word_named(word: &str) -> Option<OwnWord>
    ensures { result ≡ own_word_of (word.now ∷ []) }
{
    if word == "--help" {
        Some(OwnWord::Help)
    } else if word == "--version" {
        Some(OwnWord::Version)
    } else {
        None
    }
}
