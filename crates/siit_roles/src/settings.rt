//! The settings of a device.
use crate::pool::Pool4;
use crate::role::Role;
use siit_addr::{Addr4, Addr6};
use siit_map::Mapping;

/// The settings of one device. The ranges named here are those that a configuration accepts.
#[derive(Drop)]
pub struct Settings {
    pub role: Role,
    /// Which address of the other family an address has.
    pub mapping: Mapping,
    /// The source of ICMPv4 errors that the device makes.
    pub address4: Addr4,
    /// The source of ICMPv6 errors that the device makes.
    pub address6: Addr6,
    /// The sources of translated ICMPv6 errors whose own source has no mapping (RFC 6791), 1 to 256 addresses.
    pub pool4: Pool4,
    /// The MTU of the IPv4 side in bytes, 68 (RFC 791 section 3.2) to 65,535.
    pub mtu4: u16,
    /// The MTU of the IPv6 side in bytes, 1,280 (RFC 8200 section 5) to 65,535.
    pub mtu6: u16,
    /// The greatest size in bytes of an IPv6 packet that is sent whole where the IPv4 sender lets it be cut, 1,280 to
    /// `mtu6` (RFC 7915 section 4, lowest-ipv6-mtu).
    pub lowest: u16,
    /// Whether the TOS octet and the traffic class become 0 in place of being copied (RFC 7915 sections 4.1 and 5.1).
    pub tos_zero: bool,
    /// Whether the checksum of an IPv4 UDP packet that has none is computed (RFC 7915 section 4.5). If not, the packet
    /// is dropped.
    pub udp_compute: bool,
    /// Whether an IPv6 packet goes back to the IPv6 side where its destination, under the translation prefix, holds an
    /// IPv4 address that has an entry (hairpinning, RFC 7757 section 4.2). For the roles plain and border.
    pub hairpin: bool,
}
