//! Worked datagrams at a pair.
ghost use Rattle.siit_roles.specs.Limits.{IsWithinLimits};
ghost use Rattle.std.specs.Prelude.{◌≤◌, All, IfOk};

use crate::same;
use siit_addr::{Addr4, Addr6, Prefix4, Prefix6};
use siit_eamt::{Eam, Eamt};
use siit_map::Mapping;
use siit_rfc6052::Embed;
use siit_roles::{ChainSettings, Pool4, Role, Settings};
use siit_rules::Family;
use siit_views::PacketBuf;
use std::alloc::{AllocError, Global};
use std::test::Fail;

/// Bytes before and after, and whether they are one datagram: TCP as it was translated by hand, with another last byte,
/// and with one hop too few; nothing; a port unreachable with its quote, and with the quote as it was sent.
const ROWS: &[(&str, &str, bool)] = &[
    (
        "45000028 00014000 400668be 08080808 c0000201 c0000050 00000001 00000000 50022000 fd7f0000",
        "45000028 00010000 3e06aabe 08080808 c0000201 c0000050 00000001 00000000 50022000 fd7f0000",
        true,
    ),
    (
        "45000028 00014000 400668be 08080808 c0000201 c0000050 00000001 00000000 50022000 fd7f0000",
        "45000028 00010000 3e06aabe 08080808 c0000201 c0000050 00000001 00000000 50022000 fd7f0001",
        false,
    ),
    (
        "45000028 00014000 400668be 08080808 c0000201 c0000050 00000001 00000000 50022000 fd7f0000",
        "45000028 00010000 3f06a9be 08080808 c0000201 c0000050 00000001 00000000 50022000 fd7f0000",
        false,
    ),
    (
        "",
        "45000028 00010000 3e06aabe 08080808 c0000201 c0000050 00000001 00000000 50022000 fd7f0000",
        false,
    ),
    (
        "45000038 00010000 4001a8b3 08080808 c0000201 0303dba2 00000000 45000028 00004000 3f1169b4 \
         c0000201 08080808 00351000 00141111",
        "45000038 00070000 3e01aaad 08080808 c0000201 0303dba2 00000000 45000028 00000000 3f11a9b4 \
         c0000201 08080808 00351000 00141111",
        true,
    ),
    (
        "45000038 00010000 4001a8b3 08080808 c0000201 0303dba2 00000000 45000028 00004000 3f1169b4 \
         c0000201 08080808 00351000 00141111",
        "45000038 00070000 3e01aaad 08080808 c0000201 0303dba2 00000000 45000028 00004000 3f1169b4 \
         c0000201 08080808 00351000 00141111",
        false,
    ),
];

/// The bytes of hexadecimal digits, with spaces between them.
fn bytes_of(alloc: Global, text: &str) -> Result<Vec<u8>, AllocError> {
    let mut bytes = Vec::new(alloc);
    let mut high = None;
    for c in text.chars() {
        let Some(digit) = c.to_digit(16) else {
            continue;
        };
        match high {
            None => high = Some(digit),
            Some(other) => {
                bytes.push((other % 16 * 16 + digit % 16) as u8)?;
                high = None;
            }
        }
    }
    Ok(bytes)
}

fn prefix(x: u128, len: u8) -> Prefix6
    requires { len ≤ 128 }
{
    Prefix6 {
        addr: Addr6(x),
        len,
    }
}

/// 192.0.2.1 as 2001:db8:6464::1, and all else under the well-known prefix.
fn table(alloc: Global) -> Result<Mapping, Fail> {
    let server = Eam {
        p4: Prefix4 {
            addr: Addr4(0xc000_0201),
            len: 32,
        },
        p6: prefix(0x2001_0db8_6464_0000_0000_0000_0000_0001, 128),
    };
    let eamt = Eamt::build(alloc, &[server])?;
    let embed = Embed::new(prefix(0x0064_ff9b_0000_0000_0000_0000_0000_0000, 96))?;
    Ok(Mapping::table(eamt, embed))
}

/// The settings of a device with that table, all else by default.
fn settings(alloc: Global, role: Role, address4: u32) -> Result<Settings, Fail>
    ensures { IfOk result IsWithinLimits }
{
    Ok(Settings {
        role,
        mapping: table(alloc)?,
        address4: Addr4(address4),
        address6: Addr6(0x2001_0db8_ffff_0000_0000_0000_0000_0001),
        pool4: Pool4::new(vec![in alloc; Addr4(address4)]?),
        mtu4: 1500,
        mtu6: 1500,
        lowest: 1280,
        tos_zero: false,
        udp_compute: false,
        hairpin: false,
    })
}

/// A border and an edge with one table.
fn pair(alloc: Global) -> Result<ChainSettings, Fail>
    ensures { IfOk result (λ chain. All IsWithinLimits chain.devices) }
{
    let border = settings(alloc, Role::Border, 0xc000_02fe)?;
    let edge = settings(alloc, Role::Edge, 0xc000_02fd)?;
    Ok(ChainSettings::new(Family::Four, vec![in alloc; border, edge]?))
}

#[test]
fn worked_datagrams_are_compared(rt: HostRuntime) -> Result<(), Fail> {
    let chain = pair(rt.alloc())?;
    let mut work = PacketBuf::new(rt.alloc())?;
    for (before, after, answer) in ROWS {
        let before = bytes_of(rt.alloc(), before)?;
        let after = bytes_of(rt.alloc(), after)?;
        assert_eq!(rt; same(&chain, &before, &after, &mut work), *answer);
    }
    Ok(())
}
