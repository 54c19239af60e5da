//! Configurations that are read from text.
use crate::{ConfigFault, read_config};
use arrayvec::ArrayString;
use siit_addr::{Addr4, Addr6};
use siit_eamt::EamFault;
use siit_roles::Role;
use siit_rules::Family;
use std::alloc::{AllocError, Global};
use std::test::Fail;

/// The usual lines of the top level.
const TOP: &[(&str, &str)] = &[("left", "left = 4"), ("device", "device = [{}]")];

/// The usual lines of a symmetric chain of one plain device.
const PLAIN: &[(&str, &str)] = &[
    ("left", "left = 4"),
    ("symmetric", "symmetric = true"),
    ("device", "[[device]]"),
    ("role", "role = \"plain\""),
    ("prefix", "prefix = \"64:ff9b::/96\""),
    ("address4", "address4 = \"192.0.2.254\""),
    ("address6", "address6 = \"2001:db8:ffff::1\""),
];

/// The usual lines of a chain of one customer.
const CUSTOMER: &[(&str, &str)] = &[
    ("left", "left = 4"),
    ("device", "[[device]]"),
    ("role", "role = \"customer\""),
    ("prefix", "prefix = \"2001:db8:64:64::/64\""),
    ("local4", "local4 = \"192.168.1.0/24\""),
    ("local_prefix6", "local_prefix6 = \"2001:db8:c1a7::/96\""),
    ("address4", "address4 = \"192.168.1.1\""),
    ("address6", "address6 = \"2001:db8:ffff::1\""),
];

/// Where a key stands.
#[derive(Clone, Copy)]
enum Level {
    Top,
    Plain,
    Customer,
}

fn usual_lines(level: Level) -> (u8, &'static [(&'static str, &'static str)]) {
    match level {
        Level::Top => (0, TOP),
        Level::Plain => (1, PLAIN),
        Level::Customer => (1, CUSTOMER),
    }
}

/// What is wrong.
#[derive(Clone, Copy)]
enum Wrong {
    Nothing,
    NotToml,
    Missing,
    WrongKind,
    BadValue,
    Unknown,
    ChainLength,
    MtuOrder,
    BadEam,
    Twice,
    NotSymmetric,
}

/// The fault of a key, or of the whole. The second entry of a table is at fault.
fn fault(device: u8, wrong: Wrong, key: ArrayString<64>) -> Option<ConfigFault> {
    match wrong {
        Wrong::Nothing => None,
        Wrong::NotToml => Some(ConfigFault::NotToml),
        Wrong::Missing => Some(ConfigFault::Missing { device, key }),
        Wrong::WrongKind => Some(ConfigFault::WrongKind { device, key }),
        Wrong::BadValue => Some(ConfigFault::BadValue { device, key }),
        Wrong::Unknown => Some(ConfigFault::Unknown { device, key }),
        Wrong::ChainLength => Some(ConfigFault::ChainLength),
        Wrong::MtuOrder => Some(ConfigFault::MtuOrder { device }),
        Wrong::BadEam => Some(ConfigFault::BadEam { device, entry: 1 }),
        Wrong::Twice => Some(ConfigFault::Eam {
            device,
            fault: EamFault::Twice4(1, 0),
        }),
        Wrong::NotSymmetric => Some(ConfigFault::NotSymmetric { device }),
    }
}

/// A configuration of usual lines, one of them written so in place of its own.
fn with_line(
    alloc: Global,
    usual: &[(&str, &str)],
    key: &str,
    line: &str,
) -> Result<String, AllocError> {
    let mut text = String::new(alloc);
    for (name, usual_line) in usual {
        if *name != key {
            text.push_str(usual_line)?;
            text.push_str("\n")?;
        }
    }
    text.push_str(line)?;
    Ok(text)
}

/// Where a key stands, the key, what is written in its place, and what is wrong.
const FAULTS: &[(Level, &str, &str, Wrong)] = &[
    (Level::Top, "left", "", Wrong::Missing),
    (Level::Top, "left", "left = \"4\"", Wrong::WrongKind),
    (Level::Top, "left", "left = 5", Wrong::BadValue),
    (Level::Top, "symmetric", "symmetric = 1", Wrong::WrongKind),
    (Level::Top, "device", "", Wrong::Missing),
    (Level::Top, "device", "device = [1]", Wrong::WrongKind),
    (Level::Top, "device", "device = []", Wrong::ChainLength),
    (Level::Top, "color", "color = 1", Wrong::Unknown),
    (Level::Top, "", "=", Wrong::NotToml),
    (Level::Plain, "role", "", Wrong::Missing),
    (Level::Plain, "role", "role = 1", Wrong::WrongKind),
    (Level::Plain, "role", "role = \"Plain\"", Wrong::BadValue),
    (Level::Plain, "prefix", "", Wrong::Missing),
    (Level::Plain, "prefix", "prefix = 1", Wrong::WrongKind),
    (
        Level::Plain,
        "prefix",
        "prefix = \"2001:db8::/44\"",
        Wrong::BadValue,
    ),
    (
        Level::Plain,
        "local4",
        "local4 = \"192.168.1.0/24\"",
        Wrong::Unknown,
    ),
    (Level::Plain, "address4", "", Wrong::Missing),
    (
        Level::Plain,
        "address4",
        "address4 = true",
        Wrong::WrongKind,
    ),
    (
        Level::Plain,
        "address4",
        "address4 = \"192.0.2.256\"",
        Wrong::BadValue,
    ),
    (Level::Plain, "address6", "", Wrong::Missing),
    (Level::Plain, "address6", "address6 = []", Wrong::WrongKind),
    (
        Level::Plain,
        "address6",
        "address6 = \"1::2::3\"",
        Wrong::BadValue,
    ),
    (Level::Plain, "pool4", "pool4 = [1]", Wrong::WrongKind),
    (Level::Plain, "pool4", "pool4 = []", Wrong::BadValue),
    (Level::Plain, "mtu4", "mtu4 = \"1500\"", Wrong::WrongKind),
    (Level::Plain, "mtu4", "mtu4 = 67", Wrong::BadValue),
    (Level::Plain, "mtu6", "mtu6 = 1500.0", Wrong::WrongKind),
    (Level::Plain, "mtu6", "mtu6 = 65536", Wrong::BadValue),
    (
        Level::Plain,
        "lowest_mtu6",
        "lowest_mtu6 = false",
        Wrong::WrongKind,
    ),
    (
        Level::Plain,
        "lowest_mtu6",
        "lowest_mtu6 = 1279",
        Wrong::BadValue,
    ),
    (Level::Plain, "tos", "tos = 0", Wrong::WrongKind),
    (Level::Plain, "tos", "tos = \"keep\"", Wrong::BadValue),
    (Level::Plain, "udp_zero", "udp_zero = 0", Wrong::WrongKind),
    (
        Level::Plain,
        "udp_zero",
        "udp_zero = \"copy\"",
        Wrong::BadValue,
    ),
    (Level::Plain, "hairpin", "hairpin = 1", Wrong::WrongKind),
    (
        Level::Plain,
        "eam",
        "eam = [[\"192.0.2.1/32\"]]",
        Wrong::WrongKind,
    ),
    (Level::Plain, "color", "color = 1", Wrong::Unknown),
    (
        Level::Plain,
        "mtu6",
        "mtu6 = 1300\nlowest_mtu6 = 1400",
        Wrong::MtuOrder,
    ),
    (
        Level::Plain,
        "eam",
        "eam = [[\"192.0.2.1/32\", \"2001:db8:a::/128\"], [\"192.0.2.2\", \"2001:db8:b::/128\"]]",
        Wrong::BadEam,
    ),
    (
        Level::Plain,
        "eam",
        "eam = [[\"192.0.2.1/32\", \"2001:db8:a::/128\"], [\"192.0.2.1/32\", \"2001:db8:b::/128\"]]",
        Wrong::Twice,
    ),
    (
        Level::Plain,
        "eam",
        "eam = [[\"198.51.100.0/24\", \"2001:db8:a::/120\"], [\"198.51.100.7/32\", \"2001:db8:b::7/128\"]]",
        Wrong::NotSymmetric,
    ),
    (
        Level::Plain,
        "eam",
        "eam = [[\"192.0.2.1/32\", \"2001:db8:a::/128\"]]",
        Wrong::Nothing,
    ),
    (Level::Customer, "local4", "", Wrong::Missing),
    (Level::Customer, "local4", "local4 = 4", Wrong::WrongKind),
    (
        Level::Customer,
        "local4",
        "local4 = \"192.168.1.1/24\"",
        Wrong::BadValue,
    ),
    (Level::Customer, "local_prefix6", "", Wrong::Missing),
    (
        Level::Customer,
        "local_prefix6",
        "local_prefix6 = 6",
        Wrong::WrongKind,
    ),
    (
        Level::Customer,
        "local_prefix6",
        "local_prefix6 = \"64:ff9b::/96\"",
        Wrong::BadValue,
    ),
    (
        Level::Customer,
        "local_prefix6",
        "local_prefix6 = \"2001:db8:64:64::/96\"",
        Wrong::BadValue,
    ),
    (Level::Customer, "hairpin", "hairpin = true", Wrong::Unknown),
    (Level::Customer, "eam", "eam = []", Wrong::Unknown),
];

#[test]
fn faults_are_told(rt: HostRuntime) -> Result<(), Fail> {
    for &(level, key, line, wrong) in FAULTS {
        let (device, usual) = usual_lines(level);
        let text = with_line(rt.alloc(), usual, key, line)?;
        let name = ArrayString::from(key).ok().ok_or("a short key")?;
        assert_eq!(rt;
            read_config(rt.alloc(), text.as_bytes()).err(),
            fault(device, wrong, name),
            "{line}"
        );
    }
    Ok(())
}

/// A border relay and an edge relay with one table.
const RELAYS: &str = "left = 4
[[device]]
role = \"border\"
prefix = \"64:ff9b::/96\"
eam = [[\"192.0.2.1/32\", \"2001:db8:6464::1/128\"]]
address4 = \"192.0.2.254\"
address6 = \"2001:db8:ffff::1\"
pool4 = [\"192.0.2.250\", \"192.0.2.251\"]
[[device]]
role = \"edge\"
prefix = \"64:ff9b::/96\"
eam = [[\"192.0.2.1/32\", \"2001:db8:6464::1/128\"]]
address4 = \"192.0.2.253\"
address6 = \"2001:db8:ffff::2\"
udp_zero = \"compute\"
mtu4 = 576
";

#[test]
fn a_pair_is_read(rt: HostRuntime) -> Result<(), Fail> {
    let chain = read_config(rt.alloc(), RELAYS.as_bytes())
        .ok()
        .ok_or("a pair")?;
    let [border, edge] = chain.devices() else {
        return Err("two devices".into());
    };
    assert!(rt;
        chain.left() == Family::Four && border.role == Role::Border && edge.role == Role::Edge
    );
    assert!(rt;
        border.address4 == Addr4(0xc000_02fe)
            && edge.address6 == Addr6(0x2001_0db8_ffff_0000_0000_0000_0000_0002)
    );
    assert!(rt; (border.mtu4, border.mtu6, border.lowest, edge.mtu4) == (1500, 1500, 1280, 576));
    assert!(rt; border.hairpin && !edge.hairpin && edge.udp_compute && !border.udp_compute);
    assert!(rt; edge.mapping.entries().len() == 1);
    assert!(rt; border.pool4.addresses() == [Addr4(0xc000_02fa), Addr4(0xc000_02fb)].as_slice());
    assert!(rt; edge.pool4.addresses() == [Addr4(0xc000_02fd)].as_slice());
    Ok(())
}

#[test]
fn a_customer_is_read(rt: HostRuntime) -> Result<(), Fail> {
    let text = with_line(rt.alloc(), CUSTOMER, "tos", "tos = \"zero\"")?;
    let chain = read_config(rt.alloc(), text.as_bytes())
        .ok()
        .ok_or("a customer")?;
    let [device] = chain.devices() else {
        return Err("one device".into());
    };
    assert!(rt; device.role == Role::Customer && device.tos_zero && !device.hairpin);
    Ok(())
}
