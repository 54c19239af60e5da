//! A capture that is read in pieces of several sizes.
ghost use Rattle.std.specs.Prelude.{◌≡◌, ◌≤◌, ◌<◌, ◌^◌, length, OnOk};
ghost use Rattle.siit_capture.specs.Readings.{HasNoRecord, WaitsForBytes, fed, records_fed};

use crate::{CaptureReader, Head};
use siit_rules::Family;
use std::alloc::Global;
use std::test::Fail;

// As tcpdump writes it: an ARP frame, a TCP packet behind a VLAN tag, the same in a padded frame, an IPv6 packet of
// whose frame 100 bytes more weren't captured.
static ETHERNET: [u8; 302] = [
    0xd4, 0xc3, 0xb2, 0xa1, 2, 0, 4, 0, 0, 0, 0, 0, 0, 0, 0, 0, 0, 0, 4, 0, 1, 0, 0, 0, 1, 0, 0, 0,
    5, 0, 0, 0, 0x2a, 0, 0, 0, 0x2a, 0, 0, 0, 2, 0, 0, 0, 0, 1, 2, 0, 0, 0, 0, 2, 8, 6, 0, 1, 8, 0,
    6, 4, 0, 1, 2, 0, 0, 0, 0, 2, 0xc0, 0, 2, 1, 0, 0, 0, 0, 0, 0, 0xc0, 0, 2, 2, 1, 0, 0, 0, 0x3f,
    0x42, 0x0f, 0, 0x3a, 0, 0, 0, 0x3a, 0, 0, 0, 2, 0, 0, 0, 0, 1, 2, 0, 0, 0, 0, 2, 0x81, 0, 0, 5,
    8, 0, 0x45, 0, 0, 0x28, 0, 1, 0x40, 0, 0x40, 6, 0x68, 0xbe, 8, 8, 8, 8, 0xc0, 0, 2, 1, 0xc0, 0,
    0, 0x50, 0, 0, 0, 1, 0, 0, 0, 0, 0x50, 2, 0x20, 0, 0xfd, 0x7f, 0, 0, 2, 0, 0, 0, 0, 0, 0, 0,
    0x3c, 0, 0, 0, 0x3c, 0, 0, 0, 2, 0, 0, 0, 0, 1, 2, 0, 0, 0, 0, 2, 8, 0, 0x45, 0, 0, 0x28, 0, 1,
    0x40, 0, 0x40, 6, 0x68, 0xbe, 8, 8, 8, 8, 0xc0, 0, 2, 1, 0xc0, 0, 0, 0x50, 0, 0, 0, 1, 0, 0, 0,
    0, 0x50, 2, 0x20, 0, 0xfd, 0x7f, 0, 0, 0, 0, 0, 0, 0, 0, 0xff, 0xff, 0xff, 0xff, 7, 0, 0, 0,
    0x36, 0, 0, 0, 0x9a, 0, 0, 0, 2, 0, 0, 0, 0, 1, 2, 0, 0, 0, 0, 2, 0x86, 0xdd, 0x60, 0, 0, 0, 0,
    0, 0x3b, 0x40, 0x20, 1, 0x0d, 0xb8, 0x64, 0x64, 0, 0, 0, 0, 0, 0, 0, 0, 0, 1, 0, 0x64, 0xff,
    0x9b, 0, 0, 0, 0, 0, 0, 0, 0, 8, 8, 8, 8,
];

#[derive(Clone, Copy, Debug, PartialEq, Eq)]
struct Row {
    head: Head,
    data: usize,
    packet: Option<(Family, usize)>,
}

// Adds a row for each record that is whole in what was fed.
fn read_rows(reader: &mut CaptureReader, rows: &mut Vec<Row>) -> Result<(), Fail>
    ensures waits { OnOk result (WaitsForBytes (records_fed reader.new)) }
    ensures at_rest { OnOk result (HasNoRecord (records_fed reader.new)) }
    ensures fed { OnOk result (fed reader.new ≡ fed reader.old) }
{
    while let Some(head) = reader.next()? {
        rows.push(Row {
            head,
            data: reader.data().len(),
            packet: reader
                .link_packet()
                .map(|(family, bytes)| (family, bytes.len())),
        })?;
    }
    Ok(())
}

// The rows of a capture that is fed in pieces of this size.
fn rows_of(alloc: Global, capture: &[u8], size: usize) -> Result<Vec<Row>, Fail>
    requires some { 0 < size }
    requires few { size ≤ 65536 }
    requires fits { length capture.now < 2 ^ 64 }
{
    let mut reader = CaptureReader::new(alloc)?;
    let mut rows = Vec::new(alloc);
    let mut at = 0;
    while at < capture.len() {
        let end = capture.len().min(at + size);
        reader.feed(&capture[at..end]);
        read_rows(&mut reader, &mut rows)?;
        at = end;
    }
    reader.finish()?;
    Ok(rows)
}

#[test]
fn an_ethernet_capture_is_read_in_any_pieces(rt: HostRuntime) -> Result<(), Fail> {
    let row = |number, place, seconds, nanos, data, packet| Row {
        head: Head {
            number,
            place,
            seconds,
            nanos,
        },
        data,
        packet,
    };
    let expected = [
        row(1, 24, 1, 5_000, 42, None),
        row(2, 82, 1, 999_999_000, 58, Some((Family::Four, 40))),
        row(3, 156, 2, 0, 60, Some((Family::Four, 46))),
        row(4, 232, u32::MAX, 7_000, 54, Some((Family::Six, 40))),
    ];
    for size in [302, 1, 7] {
        let rows = rows_of(rt.alloc(), &ETHERNET, size)?;
        assert_eq!(rt; rows.as_slice(), expected.as_slice());
    }
    Ok(())
}
