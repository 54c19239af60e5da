//! The line that `map` prints: an address, what it is mapped to at a device, and how.
ghost use Rattle.std.specs.Prelude.{◌≡◌, ◌<◌, ◌++◌, [], ◌∷◌, IfOk, codes};
ghost use Rattle.std.specs.String.{string_bytes};
ghost use Rattle.siit_command.specs.Addresses.{address_read};
ghost use Rattle.siit_top.specs.MapLine.{map_line, means_text, refusal_name};

use siit_addr::{Addr4, Addr6, write_addr4, write_addr6};
use siit_command::Address;
use siit_eamt::Steps;
use siit_map::{MapRefusal, Mapping, Means};
use std::alloc::{AllocError, Global};
use std::marker::Brand;
use std::sync::ledger::{Blank, Ledger};

/// The line of an address at a device. Its steps aren't counted.
pub(crate) fn line_of(
    alloc: Global,
    mapping: &Mapping,
    address: Address,
) -> Result<String, AllocError>
    ensures { IfOk result (λ line. string_bytes line ≡ map_line mapping.now (address_read address)) }
{
    line_by::<Brand>(alloc, mapping, address, Blank::new(1))
}

// How an address is mapped, as it is printed.
fn means_text(alloc: Global, means: Means) -> Result<String, AllocError>
    ensures { IfOk result (λ text. string_bytes text ≡ means_text means) }
{
    match means {
        Means::Eam(entry) => {
            let place = u64::from(entry) + 1;
            format!(in alloc; "eam {place}")
        }
        Means::Prefix => String::from_str(alloc, "prefix"),
        Means::Local => String::from_str(alloc, "local"),
    }
}

// Why an address isn't mapped, as it is printed.
fn refusal_name(refusal: MapRefusal) -> &'static str
    ensures { result.now ≡ refusal_name refusal }
{
    match refusal {
        MapRefusal::NoMapping => "NoMapping",
        MapRefusal::WkpNonGlobal => "WkpNonGlobal",
        MapRefusal::LocalMismatch => "LocalMismatch",
    }
}

fn mapped_line(alloc: Global, from: &str, to: &str, means: &str) -> Result<String, AllocError>
    ensures { IfOk result (λ line. string_bytes line
        ≡ from.now ++ codes " " ++ (to.now ++ codes " " ++ means.now) ++ 10 ∷ []) }
{
    format!(in alloc; "{from} {to} {means}\n")
}

fn refused_line(alloc: Global, from: &str, refusal: &str) -> Result<String, AllocError>
    ensures { IfOk result (λ line. string_bytes line
        ≡ from.now ++ codes " " ++ (codes "refused " ++ refusal.now) ++ 10 ∷ []) }
{
    format!(in alloc; "{from} refused {refusal}\n")
}

// The line of an IPv4 address.
fn line4<L: Ledger>(
    alloc: Global,
    mapping: &Mapping,
    a: Addr4,
    steps: &mut Steps<L>,
) -> Result<String, AllocError>
    ensures { IfOk result (λ line. string_bytes line ≡ map_line mapping.now (address_read (Address.Four a))) }
{
    let from = write_addr4(a);
    match mapping.to6(a, steps) {
        Ok((x, means)) => {
            let to = write_addr6(x);
            let means = means_text(alloc, means)?;
            mapped_line(alloc, from.as_str(), to.as_str(), means.as_str())
        }
        Err(refusal) => refused_line(alloc, from.as_str(), refusal_name(refusal)),
    }
}

// The line of an IPv6 address.
fn line6<L: Ledger>(
    alloc: Global,
    mapping: &Mapping,
    x: Addr6,
    steps: &mut Steps<L>,
) -> Result<String, AllocError>
    ensures { IfOk result (λ line. string_bytes line ≡ map_line mapping.now (address_read (Address.Six x))) }
{
    let from = write_addr6(x);
    match mapping.to4(x, steps) {
        Ok((a, means)) => {
            let to = write_addr4(a);
            let means = means_text(alloc, means)?;
            mapped_line(alloc, from.as_str(), to.as_str(), means.as_str())
        }
        Err(refusal) => refused_line(alloc, from.as_str(), refusal_name(refusal)),
    }
}

// The line of an address, whose steps are counted by this ledger.
fn line_by<L: Ledger>(
    alloc: Global,
    mapping: &Mapping,
    address: Address,
    blank: Blank,
) -> Result<String, AllocError>
    requires name { blank.name ≡ L.name }
    requires parts { blank.parts ≡ L.parts }
    requires some { 0 < blank.parts }
    ensures { IfOk result (λ line. string_bytes line ≡ map_line mapping.now (address_read address)) }
{
    let mut steps = Steps::<L>::new(blank);
    match address {
        Address::Four(a) => line4(alloc, mapping, a, &mut steps),
        Address::Six(x) => line6(alloc, mapping, x, &mut steps),
    }
}
