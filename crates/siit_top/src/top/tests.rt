//! Runs over files in memory.
use super::*;
use crate::{Status, status_line};
use siit_config::ConfigFault;
use siit_dns::DnsFault;
use siit_eamt::EamFault;
use siit_word::{Counter, MemFiles};
use std::alloc::{AllocError, Global};
use std::process::Abort;

/// The exit status of a run over these files, and what the program prints.
fn ran(rt: &impl Abort, alloc: Global, words: &[&str], files: &mut MemFiles) -> (u8, Vec<u8>) {
    let mut owned = Vec::new(alloc);
    for word in words {
        let word = String::from_str(alloc, word).expect(rt, "memory");
        assert!(rt; owned.push(word).is_ok());
    }
    let mut out = Vec::new(alloc);
    let status = siit_main(alloc, &owned, files, &mut Counter::new(), &mut out);
    if status == Status::Ok {
        return (status.code(), out);
    }
    assert!(rt; out.is_empty());
    let line = status_line(alloc, &status).expect(rt, "memory");
    (status.code(), line)
}

/// What a configuration is.
#[derive(Clone, Copy)]
enum Configuration {
    /// A border relay and an edge relay (RFC 7755, RFC 7756) with one table.
    Relays,
    /// The same, and the border has a pool (RFC 6791).
    Pool,
    /// Eight plain translators.
    Eight,
    /// The customer side of 464XLAT (RFC 6877).
    Customer,
    /// A symmetric chain of one device, with these lines more.
    Plain(&'static str),
    /// This text.
    Text(&'static str),
    /// So many spaces.
    Spaces(usize),
}

const BORDER: &str = "left = 4
[[device]]
role = \"border\"
prefix = \"64:ff9b::/96\"
eam = [[\"192.0.2.1/32\", \"2001:db8:6464::1/128\"]]
address4 = \"192.0.2.254\"
address6 = \"2001:db8:ffff::1\"
";

const POOL: &str = "pool4 = [\"192.0.2.250\", \"192.0.2.251\"]
";

const EDGE: &str = "[[device]]
role = \"edge\"
prefix = \"64:ff9b::/96\"
eam = [[\"192.0.2.1/32\", \"2001:db8:6464::1/128\"]]
address4 = \"192.0.2.253\"
address6 = \"2001:db8:ffff::2\"
";

/// The first device of eight has the number 1 in its addresses, and so on.
fn eight(alloc: Global) -> Result<Vec<u8>, AllocError> {
    let mut bytes = text(alloc, "left = 4\n", "")?;
    for number in 1..9u8 {
        let device = format!(in alloc;
            "[[device]]
role = \"plain\"
prefix = \"64:ff9b::/96\"
address4 = \"203.0.113.{number}\"
address6 = \"2001:db8:ffff::{number}\"
"
        )?;
        bytes.extend_from_slice(device.as_bytes())?;
    }
    Ok(bytes)
}

fn bytes_in(alloc: Global, configuration: Configuration) -> Result<Vec<u8>, AllocError> {
    match configuration {
        Configuration::Relays => text(alloc, BORDER, EDGE),
        Configuration::Pool => {
            let mut bytes = text(alloc, BORDER, POOL)?;
            bytes.extend_from_slice(EDGE.as_bytes())?;
            Ok(bytes)
        }
        Configuration::Eight => eight(alloc),
        Configuration::Customer => text(
            alloc,
            "left = 4
[[device]]
role = \"customer\"
prefix = \"2001:db8:64:64::/64\"
local4 = \"192.168.1.0/24\"
local_prefix6 = \"2001:db8:c1a7::/96\"
address4 = \"192.168.1.1\"
address6 = \"2001:db8:ffff::1\"
",
            "",
        ),
        Configuration::Plain(lines) => text(
            alloc,
            "left = 4
symmetric = true
[[device]]
role = \"plain\"
prefix = \"64:ff9b::/96\"
address4 = \"192.0.2.254\"
address6 = \"2001:db8:ffff::1\"
",
            lines,
        ),
        Configuration::Text(lines) => text(alloc, "", lines),
        Configuration::Spaces(count) => vec![in alloc; b' '; count],
    }
}

fn text(alloc: Global, first: &str, rest: &str) -> Result<Vec<u8>, AllocError> {
    let mut bytes = Vec::new(alloc);
    bytes.extend_from_slice(first.as_bytes())?;
    bytes.extend_from_slice(rest.as_bytes())?;
    Ok(bytes)
}

/// A configuration, a device, an address, the exit status, and what is printed.
const MAPPED: &[(Configuration, &str, &str, u8, &str)] = &[
    (
        Configuration::Relays,
        "1",
        "10.0.0.1",
        0,
        "10.0.0.1 refused WkpNonGlobal\n",
    ),
    (
        Configuration::Relays,
        "1",
        "8.8.8.8",
        0,
        "8.8.8.8 64:ff9b::808:808 prefix\n",
    ),
    (
        Configuration::Relays,
        "1",
        "192.0.2.1",
        0,
        "192.0.2.1 2001:db8:6464::1 eam 1\n",
    ),
    (
        Configuration::Relays,
        "2",
        "2001:DB8:6464:0::1",
        0,
        "2001:db8:6464::1 192.0.2.1 eam 1\n",
    ),
    (
        Configuration::Relays,
        "2",
        "2001:db8::1",
        0,
        "2001:db8::1 refused NoMapping\n",
    ),
    (
        Configuration::Customer,
        "1",
        "192.168.1.10",
        0,
        "192.168.1.10 2001:db8:c1a7::c0a8:10a local\n",
    ),
    (
        Configuration::Customer,
        "1",
        "2001:db8:64:64:c6:2900:400:0",
        0,
        "2001:db8:64:64:c6:2900:400:0 198.41.0.4 prefix\n",
    ),
    (
        Configuration::Customer,
        "1",
        "2001:db8:c1a7::808:808",
        0,
        "2001:db8:c1a7::808:808 refused LocalMismatch\n",
    ),
    (
        Configuration::Relays,
        "3",
        "8.8.8.8",
        10,
        "siit: no device\n",
    ),
    (
        Configuration::Relays,
        "0",
        "8.8.8.8",
        10,
        "siit: no device\n",
    ),
    (
        Configuration::Relays,
        "18446744073709551615",
        "::1",
        10,
        "siit: no device\n",
    ),
    (
        Configuration::Relays,
        "18446744073709551616",
        "::1",
        2,
        "siit: bad words\n",
    ),
    (
        Configuration::Relays,
        "01",
        "8.8.8.8",
        2,
        "siit: bad words\n",
    ),
    (
        Configuration::Relays,
        "+1",
        "8.8.8.8",
        2,
        "siit: bad words\n",
    ),
    (
        Configuration::Relays,
        "1",
        "192.168.1.300",
        2,
        "siit: bad words\n",
    ),
    (
        Configuration::Spaces(1_048_577),
        "1",
        "::1",
        8,
        "siit: too long: word 1\n",
    ),
    (
        Configuration::Spaces(1_048_576),
        "1",
        "::1",
        3,
        "siit: bad config: device 0: missing left\n",
    ),
    (
        Configuration::Text("="),
        "1",
        "::1",
        3,
        "siit: bad config: not toml\n",
    ),
    (
        Configuration::Text("left = 4\ndevice = []"),
        "1",
        "::1",
        3,
        "siit: bad config: chain length\n",
    ),
    (
        Configuration::Plain("tos = 0"),
        "1",
        "::1",
        3,
        "siit: bad config: device 1: wrong kind tos\n",
    ),
    (
        Configuration::Plain("pool4 = []"),
        "1",
        "::1",
        3,
        "siit: bad config: device 1: bad value pool4\n",
    ),
    (
        Configuration::Plain("mtu4 = 67"),
        "1",
        "::1",
        3,
        "siit: bad config: device 1: bad value mtu4\n",
    ),
    (
        Configuration::Plain("color = 1"),
        "1",
        "::1",
        3,
        "siit: bad config: device 1: unknown color\n",
    ),
    (
        Configuration::Plain("mtu6 = 1300\nlowest_mtu6 = 1400"),
        "1",
        "::1",
        3,
        "siit: bad config: device 1: mtu order\n",
    ),
    (
        Configuration::Plain("eam = [[\"192.0.2.1/32\", \"2001:db8::g\"]]"),
        "1",
        "::1",
        3,
        "siit: bad config: device 1: bad eam 0\n",
    ),
    (
        Configuration::Plain("eam = [[\"192.0.2.1/24\", \"2001:db8::/120\"]]"),
        "1",
        "::1",
        3,
        "siit: bad config: device 1: eam 0: HostBits\n",
    ),
    (
        Configuration::Plain("eam = [[\"192.0.2.0/24\", \"2001:db8::/121\"]]"),
        "1",
        "::1",
        3,
        "siit: bad config: device 1: eam 0: SuffixTooLong\n",
    ),
    (
        Configuration::Plain(
            "eam = [[\"192.0.2.1/32\", \"2001:db8:a::/128\"], [\"192.0.2.1/32\", \"2001:db8:b::/128\"]]",
        ),
        "1",
        "::1",
        3,
        "siit: bad config: device 1: eam 1: Twice4 0\n",
    ),
    (
        Configuration::Plain(
            "eam = [[\"192.0.2.1/32\", \"2001:db8:a::/128\"], [\"192.0.2.2/32\", \"2001:db8:a::/128\"]]",
        ),
        "1",
        "::1",
        3,
        "siit: bad config: device 1: eam 1: Twice6 0\n",
    ),
    (
        Configuration::Plain(
            "eam = [[\"198.51.100.0/24\", \"2001:db8:a::/120\"], [\"198.51.100.7/32\", \"2001:db8:b::7/128\"]]",
        ),
        "1",
        "::1",
        3,
        "siit: bad config: device 1: not symmetric\n",
    ),
];

/// The exit status of `map c DEVICE ADDRESS` over a configuration, and what the program prints.
fn mapped(
    rt: &impl Abort,
    alloc: Global,
    configuration: &[u8],
    device: &str,
    address: &str,
) -> (u8, Vec<u8>) {
    let mut files = MemFiles::new(alloc);
    files.put("c", configuration).expect(rt, "memory");
    ran(rt, alloc, &["map", "c", device, address], &mut files)
}

#[test]
fn maps_addresses(rt: HostRuntime) {
    for &(configuration, device, address, code, line) in MAPPED {
        let bytes = bytes_in(rt.alloc(), configuration).expect(&rt, "memory");
        let (status, printed) = mapped(&rt, rt.alloc(), &bytes, device, address);
        assert_eq!(rt; printed.as_slice(), line.as_bytes());
        assert_eq!(rt; status, code);
    }
}

#[test]
fn prints_what_no_short_run_ends_with(rt: HostRuntime) {
    let too_many = ConfigFault::Eam {
        device: 8,
        fault: EamFault::TooMany,
    };
    let answer_too_long = Status::BadMessage {
        word: 4,
        fault: DnsFault::AnswerTooLong,
    };
    let not_query = Status::BadMessage {
        word: 2,
        fault: DnsFault::NotQuery,
    };
    let rows: [(Status, u8, &[u8]); 5] = [
        (Status::Ok, 0, b""),
        (Status::NoMemory, 7, b"siit: no memory\n"),
        (
            Status::BadConfig(too_many),
            3,
            b"siit: bad config: device 8: too many\n",
        ),
        (not_query, 9, b"siit: bad message: word 2: not query\n"),
        (
            answer_too_long,
            9,
            b"siit: bad message: word 4: answer too long\n",
        ),
    ];
    for (status, code, text) in rows {
        let line = status_line(rt.alloc(), &status).expect(&rt, "memory");
        assert_eq!(rt; line.as_slice(), text);
        assert_eq!(rt; status.code(), code);
    }
}

/// An answer about ipv4only.arpa with 2001:db8:64:64:c0:0:aa00:0 and 2001:db8:64:64:c0:0:ab00:0.
const SHOWN: &[u8] =
    b"\x00\x07\x81\x80\x00\x01\x00\x02\x00\x00\x00\x00\x08ipv4only\x04arpa\x00\x00\x1c\x00\x01\xc0\x0c\x00\x1c\x00\x01\x00\x01Q\x80\x00\x10\x20\x01\x0d\xb8\x00d\x00d\x00\xc0\x00\x00\xaa\x00\x00\x00\xc0\x0c\x00\x1c\x00\x01\x00\x01Q\x80\x00\x10\x20\x01\x0d\xb8\x00d\x00d\x00\xc0\x00\x00\xab\x00\x00\x00";

/// How many bytes of it ANSWER has, its flags, the exit status, and what is printed.
const ANSWERS: &[(usize, u8, u8, &str)] = &[
    (87, 0x81, 0, "2001:db8:64:64::/64\n"),
    (87, 0x01, 9, "siit: bad message: word 1: not answer\n"),
    (11, 0x81, 9, "siit: bad message: word 1: at 0\n"),
    (0, 0x81, 9, "siit: bad message: word 1: at 0\n"),
];

/// The exit status of `discover answer` over this answer, and what the program prints.
fn discovered(rt: &impl Abort, alloc: Global, answer: &[u8]) -> (u8, Vec<u8>) {
    let mut files = MemFiles::new(alloc);
    files.put("answer", answer).expect(rt, "memory");
    ran(rt, alloc, &["discover", "answer"], &mut files)
}

#[test]
fn shows_prefixes(rt: HostRuntime) {
    for &(len, flags, code, line) in ANSWERS {
        let mut answer = Vec::new(rt.alloc());
        for &byte in SHOWN.iter().take(len) {
            assert!(rt; answer.push(byte).is_ok());
        }
        if let Some(byte) = answer.get_mut(2) {
            *byte = flags;
        }
        let (status, printed) = discovered(&rt, rt.alloc(), &answer);
        assert_eq!(rt; printed.as_slice(), line.as_bytes());
        assert_eq!(rt; status, code);
    }
}

/// A query for the IPv6 addresses of a.example, a response to it with none, one with 192.0.2.33 to the query for IPv4
/// addresses, and the answer that is made under 2001:db8:122:344::/96.
const QUERY: &[u8] =
    b"\x12\x34\x01\x00\x00\x01\x00\x00\x00\x00\x00\x00\x01a\x07example\x00\x00\x1c\x00\x01";

const RESPONSE: &[u8] =
    b"\x12\x34\x81\x80\x00\x01\x00\x00\x00\x00\x00\x00\x01a\x07example\x00\x00\x1c\x00\x01";

const ADDRESS: &[u8] =
    b"\x12\x34\x81\x80\x00\x01\x00\x01\x00\x00\x00\x00\x01a\x07example\x00\x00\x01\x00\x01\x01a\x07example\x00\x00\x01\x00\x01\x00\x00\x0e\x10\x00\x04\xc0\x00\x02\x21";

const MADE: &[u8] =
    b"\x12\x34\x81\x80\x00\x01\x00\x01\x00\x00\x00\x00\x01a\x07example\x00\x00\x1c\x00\x01\x01a\x07example\x00\x00\x1c\x00\x01\x00\x00\x02\x58\x00\x10\x20\x01\x0d\xb8\x01\x22\x03\x44\x00\x00\x00\x00\xc0\x00\x02\x21";

#[test]
fn answers_queries(rt: HostRuntime) {
    let mut files = MemFiles::new(rt.alloc());
    files.put("q", QUERY).expect(&rt, "memory");
    files.put("r", RESPONSE).expect(&rt, "memory");
    files.put("a", ADDRESS).expect(&rt, "memory");
    let words = ["dns64", "2001:db8:122:344::/96", "q", "r", "a", "out"];
    let (status, printed) = ran(&rt, rt.alloc(), &words, &mut files);
    assert_eq!(rt; status, 0);
    assert_eq!(rt; printed.as_slice(), "made 1\n".as_bytes());
    assert!(rt; files.bytes_of("out") == Some(MADE));
    let words = ["dns64", "2001:db8:122:344::/96", "r", "r", "a", "out"];
    let (status, printed) = ran(&rt, rt.alloc(), &words, &mut files);
    assert_eq!(rt;
        printed.as_slice(),
        "siit: bad message: word 2: not query\n".as_bytes()
    );
    assert_eq!(rt; status, 9);
}

mod carried;
