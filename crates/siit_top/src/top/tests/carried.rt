//! Runs that carry captures. What is expected was computed by `examples/translator.py`.
use super::*;
use std::test::Fail;

/// A packet or a frame in hexadecimal digits, and how many zeros follow.
type Packet = (&'static str, usize);

/// Captures of which each record has the time 1 s 5 us, what leaves at both ends, the drops, and the end line.
#[derive(Clone, Copy)]
struct Carried {
    configuration: Configuration,
    link: u8,
    left: &'static [Packet],
    right: Option<&'static [Packet]>,
    to_left: &'static [Packet],
    to_right: &'static [Packet],
    drops: &'static str,
    line: &'static str,
}

const CARRIED: &[Carried] = &[
    // A packet that a border and an edge carry (RFC 7755, RFC 7756), and the number that the edge hands out.
    Carried {
        configuration: Configuration::Relays,
        link: 101,
        left: &[(
            "45000028 00014000 400668be 08080808 c0000201 c0000050 00000001 00000000 50022000 fd7f0000",
            0,
        )],
        right: None,
        to_left: &[],
        to_right: &[(
            "45000028 00010000 3e06aabe 08080808 c0000201 c0000050 00000001 00000000 50022000 fd7f0000",
            0,
        )],
        drops: "",
        line: "end 1 0 0 1 0\n",
    },
    // A wrong checksum stays as it is.
    Carried {
        configuration: Configuration::Relays,
        link: 101,
        left: &[(
            "45000028 00014000 400668be 08080808 c0000201 c0000050 00000001 00000000 50022000 12340000",
            0,
        )],
        right: None,
        to_left: &[],
        to_right: &[(
            "45000028 00010000 3e06aabe 08080808 c0000201 c0000050 00000001 00000000 50022000 12340000",
            0,
        )],
        drops: "",
        line: "end 1 0 0 1 0\n",
    },
    // UDP without a checksum, whole, and as first fragments.
    Carried {
        configuration: Configuration::Relays,
        link: 101,
        left: &[
            (
                "45000020 00000000 4011a8bc 08080808 c0000201 10000035 000c0000 61626364",
                0,
            ),
            (
                "45000024 00002000 401188b8 08080808 c0000201 10000035 000c0000 61626364 00000000",
                0,
            ),
            (
                "45000020 00002000 401188bc 08080808 c0000201 10000035 000c0000 61626364",
                0,
            ),
        ],
        right: None,
        to_left: &[],
        to_right: &[],
        drops: "L 1 1 22 UdpZero4 silent\nL 2 1 21 UdpZeroFragment4 silent\nL 3 1 14 FragmentShape4 silent\n",
        line: "end 3 0 0 0 3\n",
    },
    // A packet that is cut for the IPv6 side.
    Carried {
        configuration: Configuration::Relays,
        link: 101,
        left: &[(
            "450005dc abcd0000 4011f732 08080808 c0000201 10000035 05c81234",
            1472,
        )],
        right: None,
        to_left: &[],
        to_right: &[
            (
                "450004e4 abcd2000 3e11da2a 08080808 c0000201 10000035 05c81234",
                1224,
            ),
            ("4500010c abcd009a 3e11fd68 08080808 c0000201", 248),
        ],
        drops: "",
        line: "end 1 0 0 2 0\n",
    },
    // A packet that may not be cut, and its answer.
    Carried {
        configuration: Configuration::Relays,
        link: 101,
        left: &[(
            "450005dc 00004000 4006630b 08080808 c0000201 c0000050 00000001 00000000 50022000 fd7f0000",
            1460,
        )],
        right: None,
        to_left: &[(
            "45000240 00000000 4001a5af c00002fe 08080808 0304c95f 000005c8 450005dc 00004000 4006630b 08080808 c0000201 c0000050 00000001 00000000 50022000 fd7f0000",
            508,
        )],
        to_right: &[],
        drops: "L 1 1 36 TooBig4 icmp4/3/4\n",
        line: "end 1 0 1 0 1\n",
    },
    // Fragments with a gap between them.
    Carried {
        configuration: Configuration::Relays,
        link: 101,
        left: &[
            (
                "45000334 01022000 400684b1 08080808 c0000201 c0000050 00000001 00000000 50022000 fd7f0000",
                780,
            ),
            ("450000dc 010200c8 4006a641 08080808 c0000201", 200),
        ],
        right: None,
        to_left: &[],
        to_right: &[
            (
                "45000334 01022000 3e0686b1 08080808 c0000201 c0000050 00000001 00000000 50022000 fd7f0000",
                780,
            ),
            ("450000dc 010200c8 3e06a841 08080808 c0000201", 200),
        ],
        drops: "",
        line: "end 2 0 0 2 0\n",
    },
    // An ICMP error about an ICMP error, and one whose pointer has no row.
    Carried {
        configuration: Configuration::Relays,
        link: 101,
        left: &[
            (
                "4500004c 00000000 4001a8a0 08080808 c0000201 0303fcfc 00000000 45000030 00004000 400168bc c0000201 08080808 0301fcfe 00000000 45000028 00014000 400668be 08080808 c0000201",
                0,
            ),
            (
                "45000038 00000000 4001a8b4 08080808 c0000201 0c002fae 04000000 45000028 00014000 400668be 08080808 c0000201 c0000050 00000001",
                0,
            ),
        ],
        right: None,
        to_left: &[],
        to_right: &[],
        drops: "L 1 1 33 NestedTwice4 silent\nL 2 1 26 IcmpPointer4 silent\n",
        line: "end 2 0 0 0 2\n",
    },
    // An ICMP error and its quote.
    Carried {
        configuration: Configuration::Relays,
        link: 101,
        left: &[(
            "45000038 00000000 4001a8b4 08080808 c0000201 0303dba2 00000000 45000028 00004000 3f1169b4 c0000201 08080808 00351000 00141111",
            0,
        )],
        right: None,
        to_left: &[],
        to_right: &[(
            "45000038 00010000 3e01aab3 08080808 c0000201 0303dba2 00000000 45000028 00000000 3f11a9b4 c0000201 08080808 00351000 00141111",
            0,
        )],
        drops: "",
        line: "end 1 0 0 1 0\n",
    },
    // A packet whose life ends at the second device. The answer has the address of the first one.
    Carried {
        configuration: Configuration::Relays,
        link: 101,
        left: &[(
            "45000028 00014000 0206a6be 08080808 c0000201 c0000050 00000001 00000000 50022000 fd7f0000",
            0,
        )],
        right: None,
        to_left: &[(
            "45000044 00010000 3f01a8aa c00002fe 08080808 0b00c72b 00000000 45000028 00000000 0106e7bf 08080808 c0000201 c0000050 00000001 00000000 50022000 fd7f0000",
            0,
        )],
        to_right: &[],
        drops: "L 1 2 58 Expired6 icmp6/3/0\n",
        line: "end 1 0 1 0 1\n",
    },
    // The same where the first device has a pool (RFC 6791).
    Carried {
        configuration: Configuration::Pool,
        link: 101,
        left: &[(
            "45000028 00014000 0206a6be 08080808 c0000201 c0000050 00000001 00000000 50022000 fd7f0000",
            0,
        )],
        right: None,
        to_left: &[(
            "45000044 00010000 3f01a8ad c00002fb 08080808 0b00c72b 00000000 45000028 00000000 0106e7bf 08080808 c0000201 c0000050 00000001 00000000 50022000 fd7f0000",
            0,
        )],
        to_right: &[],
        drops: "L 1 2 58 Expired6 icmp6/3/0\n",
        line: "end 1 0 1 0 1\n",
    },
    // A source route that has come to its end, and one that has not.
    Carried {
        configuration: Configuration::Relays,
        link: 101,
        left: &[
            (
                "47000030 00014000 4006d5aa 08080808 c0000201 83070801 02030400 c0000050 00000001 00000000 50022000 fd7f0000",
                0,
            ),
            (
                "47000030 00014000 4006d9aa 08080808 c0000201 83070401 02030400 c0000050 00000001 00000000 50022000 fd7f0000",
                0,
            ),
        ],
        right: None,
        to_left: &[(
            "4500004c 00000000 4001a7a3 c00002fe 08080808 0305cf26 00000000 47000030 00014000 4006d9aa 08080808 c0000201 83070401 02030400 c0000050 00000001 00000000 50022000 fd7f0000",
            0,
        )],
        to_right: &[(
            "45000028 00010000 3e06aabe 08080808 c0000201 c0000050 00000001 00000000 50022000 fd7f0000",
            0,
        )],
        drops: "L 2 1 16 SourceRoute4 icmp4/3/5\n",
        line: "end 2 0 1 1 1\n",
    },
    // ICMPv6 over IPv4, and a private address under the well-known prefix.
    Carried {
        configuration: Configuration::Relays,
        link: 101,
        left: &[
            (
                "4500001c 00000000 403aa897 08080808 c0000201 00000000 00000000",
                0,
            ),
            (
                "45000028 00000000 4006aece 0a000001 c0000201 c0000050 00000001 00000000 50022000 fd7f0000",
                0,
            ),
        ],
        right: None,
        to_left: &[
            (
                "45000038 00000000 4001a7b7 c00002fe 08080808 030dfcf2 00000000 4500001c 00000000 403aa897 08080808 c0000201 00000000 00000000",
                0,
            ),
            (
                "45000044 00000000 4001adba c00002fe 0a000001 030dcf1e 00000000 45000028 00000000 4006aece 0a000001 c0000201 c0000050 00000001 00000000 50022000 fd7f0000",
                0,
            ),
        ],
        to_right: &[],
        drops: "L 1 1 18 ProtocolClash4 icmp4/3/13\nL 2 1 29 SourceMap4 icmp4/3/13\n",
        line: "end 2 0 2 0 2\n",
    },
    // Frames: ARP, one behind a VLAN tag, a padded one, and one of the other family.
    Carried {
        configuration: Configuration::Relays,
        link: 1,
        left: &[
            (
                "00000000 00000000 00000000 08060000 00000000 00000000 00000000 00000000 00000000 00000000 0000",
                0,
            ),
            (
                "00000000 00000000 00000000 81000001 08004500 00280001 40004006 68be0808 0808c000 0201c000 00500000 00010000 00005002 2000fd7f 0000",
                0,
            ),
            (
                "00000000 00000000 00000000 08004500 00280001 40004006 68be0808 0808c000 0201c000 00500000 00010000 00005002 2000fd7f 00000000 00000000",
                0,
            ),
            (
                "00000000 00000000 00000000 86dd6000 00000014 063f0064 ff9b0000 00000000 00000808 08082001 0db86464 00000000 00000000 0001c000 00500000 00010000 00005002 20002d63 0000",
                0,
            ),
        ],
        right: None,
        to_left: &[],
        to_right: &[
            (
                "45000028 00010000 3e06aabe 08080808 c0000201 c0000050 00000001 00000000 50022000 fd7f0000",
                0,
            ),
            (
                "45000028 00020000 3e06aabd 08080808 c0000201 c0000050 00000001 00000000 50022000 fd7f0000",
                0,
            ),
        ],
        drops: "L 1 0 1 NotIp silent\nL 4 0 2 OtherFamily silent\n",
        line: "end 4 0 0 2 2\n",
    },
    // Both captures at one time, the left one first at each turn.
    Carried {
        configuration: Configuration::Relays,
        link: 101,
        left: &[
            (
                "45000028 00014000 400668be 08080808 c0000201 c0000050 00000001 00000000 50022000 fd7f0000",
                0,
            ),
            (
                "45000028 00014000 0206a6be 08080808 c0000201 c0000050 00000001 00000000 50022000 fd7f0000",
                0,
            ),
        ],
        right: Some(&[
            (
                "45000028 00074000 400668b8 c0000201 08080808 0050c000 00000000 00000002 50122000 fd6d0000",
                0,
            ),
            ("45000028 00014000 400668be", 0),
        ]),
        to_left: &[
            (
                "45000044 00010000 3f01a8aa c00002fe 08080808 0b00c72b 00000000 45000028 00000000 0106e7bf 08080808 c0000201 c0000050 00000001 00000000 50022000 fd7f0000",
                0,
            ),
            (
                "45000028 00020000 3e06aabd c0000201 08080808 0050c000 00000000 00000002 50122000 fd6d0000",
                0,
            ),
        ],
        to_right: &[(
            "45000028 00010000 3e06aabe 08080808 c0000201 c0000050 00000001 00000000 50022000 fd7f0000",
            0,
        )],
        drops: "L 2 2 58 Expired6 icmp6/3/0\nR 2 2 10 Short4 silent\n",
        line: "end 2 2 2 1 2\n",
    },
    // The longest chain.
    Carried {
        configuration: Configuration::Eight,
        link: 101,
        left: &[(
            "45000028 00010000 400668be 08080808 01010101 c0000050 00000001 00000000 50022000 bd7f0000",
            0,
        )],
        right: None,
        to_left: &[],
        to_right: &[(
            "45000028 00010000 380670be 08080808 01010101 c0000050 00000001 00000000 50022000 bd7f0000",
            0,
        )],
        drops: "",
        line: "end 1 0 0 1 0\n",
    },
    // The answer of the last device has an address that a device on its way back can't map.
    Carried {
        configuration: Configuration::Eight,
        link: 101,
        left: &[(
            "45000028 00010000 0806a0be 08080808 01010101 c0000050 00000001 00000000 50022000 bd7f0000",
            0,
        )],
        right: None,
        to_left: &[],
        to_right: &[],
        drops: "L 1 8 58 Expired6 icmp6/3/0\nL 1 6 29 SourceMap4 silent\n",
        line: "end 1 0 0 0 2\n",
    },
];

/// Appends bytes that are written in hexadecimal digits.
fn push_hex(bytes: &mut Vec<u8>, text: &str) -> Result<(), Fail> {
    let mut high = None;
    for &digit in text.as_bytes() {
        let value = match digit {
            b'0'..=b'9' => digit - b'0',
            b'a'..=b'f' => digit - b'a' + 10,
            _ => continue,
        };
        high = match high {
            None => Some(value),
            Some(first) => {
                bytes.push(value.wrapping_add(u8::wrapping_mul(first, 16)))?;
                None
            }
        };
    }
    Ok(())
}

/// Appends a record of this time.
fn push_record(bytes: &mut Vec<u8>, alloc: Global, time: &str, packet: Packet) -> Result<(), Fail> {
    let (digits, zeros) = packet;
    let mut data = Vec::new(alloc);
    push_hex(&mut data, digits)?;
    for _ in 0..zeros {
        data.push(0)?;
    }
    let len = (data.len() as u64).to_le_bytes();
    push_hex(bytes, time)?;
    bytes.extend_from_slice(&len[..4])?;
    bytes.extend_from_slice(&len[..4])?;
    bytes.extend_from_slice(&data)?;
    Ok(())
}

/// A capture with microseconds, little-endian, as it is read.
fn capture(alloc: Global, link: u8, packets: &[Packet]) -> Result<Vec<u8>, Fail> {
    let mut bytes = Vec::new(alloc);
    push_hex(&mut bytes, "d4c3b2a1 02000400 00000000 00000000 00000400")?;
    bytes.extend_from_slice(&[link, 0, 0, 0])?;
    for &packet in packets {
        push_record(&mut bytes, alloc, "01000000 05000000", packet)?;
    }
    Ok(bytes)
}

/// The capture with nanoseconds that is written.
fn written(alloc: Global, packets: &[Packet]) -> Result<Vec<u8>, Fail> {
    let mut bytes = Vec::new(alloc);
    push_hex(
        &mut bytes,
        "4d3cb2a1 02000400 00000000 00000000 00000400 65000000",
    )?;
    for &packet in packets {
        push_record(&mut bytes, alloc, "01000000 88130000", packet)?;
    }
    Ok(bytes)
}

/// The files of a run: the configuration `c`, and the captures `l` and `r`.
fn files_with(
    alloc: Global,
    configuration: Configuration,
    left: &[u8],
    right: &[u8],
) -> Result<MemFiles, Fail> {
    let mut files = MemFiles::new(alloc);
    files.put("c", &bytes_in(alloc, configuration)?)?;
    files.put("l", left)?;
    files.put("r", right)?;
    Ok(files)
}

#[test]
fn carries_captures(rt: HostRuntime) -> Result<(), Fail> {
    let alloc = rt.alloc();
    for &row in CARRIED {
        let left = capture(alloc, row.link, row.left)?;
        let right = capture(alloc, 101, row.right.unwrap_or(&[]))?;
        let mut files = files_with(alloc, row.configuration, &left, &right)?;
        let right_name = if row.right.is_some() { "r" } else { "-" };
        let words = ["run", "c", "l", right_name, "o", "p", "q"];
        let (status, printed) = ran(&rt, alloc, &words, &mut files);
        assert_eq!(rt; printed.as_slice(), row.line.as_bytes());
        assert_eq!(rt; status, 0);
        let report = text(alloc, row.drops, row.line)?;
        assert_eq!(rt; files.bytes_of("q").unwrap_or(&[]), report.as_slice());
        let to_left = written(alloc, row.to_left)?;
        assert_eq!(rt; files.bytes_of("o").unwrap_or(&[]), to_left.as_slice());
        let to_right = written(alloc, row.to_right)?;
        assert_eq!(rt; files.bytes_of("p").unwrap_or(&[]), to_right.as_slice());
    }
    Ok(())
}

/// The first packet of `wkp`, TCP from 8.8.8.8 to 1.1.1.1, and what comes of it.
const PACKET: Packet = (
    "45000028 00010000 400668be 08080808 01010101 c0000050 00000001 00000000 50022000 bd7f0000",
    0,
);

const TRANSLATED: Packet = (
    "60000000 0014063f 0064ff9b 00000000 00000000 08080808 0064ff9b 00000000 00000000 01010101 c0000050 00000001 00000000 50022000 bd7f0000",
    0,
);

/// How many bytes of a capture with that packet and one that is cut IN has, the exit status, what is printed, and what
/// OUT holds.
const CUT: &[(usize, u8, &str, &[Packet])] = &[
    (80, 0, "end 1 0 0 1 0\n", &[TRANSLATED]),
    (24, 0, "end 0 0 0 0 0\n", &[]),
    (
        90,
        6,
        "siit: bad capture: left at 80: CutRecord\n",
        &[TRANSLATED],
    ),
    (0, 6, "siit: bad capture: left at 0: CutRecord\n", &[]),
];

#[test]
fn carries_a_capture(rt: HostRuntime) -> Result<(), Fail> {
    let alloc = rt.alloc();
    let whole = capture(alloc, 101, &[PACKET, PACKET])?;
    for &(len, code, line, to_right) in CUT {
        let mut files = MemFiles::new(alloc);
        files.put("-", whole.get(..len).unwrap_or(&[]))?;
        let (status, printed) = ran(&rt, alloc, &["wkp", "-", "out"], &mut files);
        assert_eq!(rt; printed.as_slice(), line.as_bytes());
        assert_eq!(rt; status, code);
        let expected = written(alloc, to_right)?;
        assert_eq!(rt; files.bytes_of("out").unwrap_or(&[]), expected.as_slice());
    }
    Ok(())
}

/// The words of a run, the calls that fail, the exit status, what is printed, and how many bytes the outputs have.
///
/// CONFIG is read by two calls, then the outputs are made, their heads are written, and LEFT is read.
type Stop = (
    &'static [&'static str],
    &'static [u64],
    u8,
    &'static str,
    [Option<usize>; 3],
);

const STOPS: &[Stop] = &[
    (
        &["run", "c", "l", "-", "o", "o", "r"],
        &[],
        2,
        "siit: bad words\n",
        [None; 3],
    ),
    (
        &["run", "c", "none", "-", "o", "p", "q"],
        &[],
        4,
        "siit: read fault\n",
        [Some(24), Some(24), Some(0)],
    ),
    (
        &["run", "none", "l", "-", "o", "p", "q"],
        &[],
        4,
        "siit: read fault\n",
        [None; 3],
    ),
    (
        &["run", "l", "l", "-", "o", "p", "q"],
        &[],
        3,
        "siit: bad config: not toml\n",
        [None; 3],
    ),
    (
        &["run", "c", "c", "-", "o", "p", "q"],
        &[],
        6,
        "siit: bad capture: left at 0: BadMagic\n",
        [Some(24), Some(24), Some(0)],
    ),
    (
        &["run", "c", "l", "r", "o", "p", "q"],
        &[],
        6,
        "siit: bad capture: right at 24: RecordTooLong\n",
        [Some(24), Some(24), Some(0)],
    ),
    (
        &["run", "c", "-", "-", "o", "p", "q"],
        &[],
        0,
        "end 0 0 0 0 0\n",
        [Some(24), Some(24), Some(14)],
    ),
    (
        &["run", "c", "l", "l", "o", "p", "q"],
        &[],
        0,
        "end 1 1 1 1 2\n",
        [Some(108), Some(108), Some(82)],
    ),
    (
        &["run", "c", "l", "-", "o", "p", "q"],
        &[0],
        4,
        "siit: read fault\n",
        [None; 3],
    ),
    (
        &["run", "c", "l", "-", "o", "p", "q"],
        &[3],
        5,
        "siit: write fault\n",
        [Some(0), None, None],
    ),
    (
        &["run", "c", "l", "-", "o", "p", "q"],
        &[5],
        5,
        "siit: write fault\n",
        [Some(0), Some(0), Some(0)],
    ),
];

#[test]
fn stops_with_its_status(rt: HostRuntime) -> Result<(), Fail> {
    let alloc = rt.alloc();
    let left = capture(alloc, 101, &[PACKET])?;
    let right = capture(alloc, 101, &[])?;
    let mut long = text(alloc, "", "")?;
    long.extend_from_slice(&right)?;
    push_hex(&mut long, "01000000 05000000 01000400 01000400")?;
    for &(words, fails, code, line, lens) in STOPS {
        let mut files = files_with(alloc, Configuration::Relays, &left, &long)?;
        files.fail_at(fails)?;
        let (status, printed) = ran(&rt, alloc, words, &mut files);
        assert_eq!(rt; printed.as_slice(), line.as_bytes());
        assert_eq!(rt; status, code);
        for (name, len) in [("o", lens[0]), ("p", lens[1]), ("q", lens[2])] {
            assert!(rt; files.bytes_of(name).map(|held| held.len()) == len);
        }
    }
    Ok(())
}

/// Whether a file holds nothing, or a part of these bytes, from their start.
fn is_part(held: Option<&[u8]>, whole: &[u8]) -> bool {
    match held {
        Some(bytes) => whole.starts_with(bytes),
        None => true,
    }
}

// Ten packets are carried to the right, and ten are answered by the second device. The whole run makes 40 calls: two
// that read CONFIG, three that make the outputs, two that write heads, two that read LEFT, and those that write.
#[test]
fn keeps_parts_at_every_fault(rt: HostRuntime) -> Result<(), Fail> {
    let alloc = rt.alloc();
    let mut packets = Vec::new(alloc);
    for _ in 0..10 {
        packets.push(CARRIED[0].left[0])?;
        packets.push(CARRIED[8].left[0])?;
    }
    let left = capture(alloc, 101, &packets)?;
    let words = ["run", "c", "l", "-", "o", "p", "q"];
    let mut whole = files_with(alloc, Configuration::Relays, &left, &[])?;
    let (status, _) = ran(&rt, alloc, &words, &mut whole);
    assert_eq!(rt; status, 0);
    for call in 0..41u64 {
        let mut files = files_with(alloc, Configuration::Relays, &left, &[])?;
        files.fail_at(&[call])?;
        let (status, _) = ran(&rt, alloc, &words, &mut files);
        if call < 40 {
            assert!(rt; status == 4 || status == 5);
        } else {
            assert_eq!(rt; status, 0);
        }
        for name in ["o", "p", "q"] {
            assert!(rt; is_part(files.bytes_of(name), whole.bytes_of(name).unwrap_or(&[])));
        }
    }
    Ok(())
}
