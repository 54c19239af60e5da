//! What the new header says that the old one doesn't: addresses, type of service and identification (RFC 7915 section
//! 5.1, RFC 6791 section 3.2).
ghost use Rattle.siit_arrival6.specs.Arrived.{HasSource4, arrival_of};
ghost use Rattle.siit_departure4.specs.Parts.{head_by};
ghost use Rattle.siit_device.specs.Addresses.{to4};
ghost use Rattle.siit_device.specs.Arrival6.{arrived_fragment, is_error6};
ghost use Rattle.siit_device.specs.Backward.{head4_for, is_number_used};
ghost use Rattle.siit_model.specs.Ipv6.{ipv6_fields};
ghost use Rattle.siit_quoted.specs.Quotes.{written_class};
ghost use Rattle.siit_roles.specs.Limits.{IsWithinLimits};
ghost use Rattle.siit_roles.specs.Pool.{pool_source};
ghost use Rattle.siit_upper.specs.Walks.{fragment_in};
ghost use Rattle.siit_v6to4.specs.To4.{identification};
ghost use Rattle.std.specs.Prelude.{◌≡◌, ◌≤◌, length, true, Some, None, IfSome};

use siit_addr::Addr4;
use siit_arrival6::Arrived6;
use siit_roles::Settings;
use siit_upper::FragInfo;
use siit_v6to4::Head64;
use siit_views::Ipv6Header;

/// What the new header says, by the packet as it arrived.
pub(crate) fn new_head(
    settings: &Settings,
    bytes: &[u8],
    arrived: &Arrived6,
    src: Option<Addr4>,
    dst: Addr4,
    ident: u16,
) -> Head64
    requires header { 40 ≤ length bytes.now }
    requires limits { IsWithinLimits settings.now }
    requires source { HasSource4 settings.now (ipv6_fields bytes.now).source src }
    requires sourceless { src ≡ None → is_error6 (arrived_fragment (arrival_of bytes.now arrived.now)) ≡ true }
    requires destination { to4 settings.now (ipv6_fields bytes.now).destination ≡ dst.0 }
    ensures { let arrival = arrival_of bytes.now arrived.now
        in head_by result arrival ≡ head4_for settings.now (identification arrival.walked.fragment ident) (arrived_fragment arrival) }
{
    Head64 {
        src: source(settings, src, identification(arrived.walk.frag, ident)),
        dst,
        tos: new_tos(settings, bytes),
        ident,
    }
}

/// The source: the one that was found, or that of the pool for a packet of this identification.
fn source(settings: &Settings, src: Option<Addr4>, identification: u16) -> Addr4
    requires pool { 1 ≤ length settings.now.pool4 }
    ensures found { IfSome src (λ address. result ≡ address) }
    ensures pooled { src ≡ None → pool_source settings.now.pool4 identification ≡ Some result }
{
    match src {
        Some(address) => address,
        None => settings.pool4.source(identification),
    }
}

/// The identification: the low bits of that of a Fragment header, or the number that was handed in.
fn identification(frag: Option<FragInfo>, number: u16) -> u16
    ensures { result ≡ identification (fragment_in frag) number }
{
    match frag {
        Some(frag) => (frag.id % 0x1_0000) as u16,
        None => number,
    }
}

/// Whether the number that was handed in is the identification: no Fragment header brings one.
pub(crate) fn is_number_used(frag: Option<FragInfo>) -> bool
    ensures { result ≡ is_number_used (fragment_in frag) }
{
    match frag {
        Some(_) => false,
        None => true,
    }
}

/// The type of service: the traffic class, or 0 where the settings say so.
fn new_tos(settings: &Settings, bytes: &[u8]) -> u8
    requires { 40 ≤ length bytes.now }
    ensures { result ≡ written_class settings.now.tos_zero (ipv6_fields bytes.now).class }
{
    if settings.tos_zero {
        0
    } else {
        Ipv6Header::new(bytes).class()
    }
}
