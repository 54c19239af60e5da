//! The upper part of a packet: the walk over the extension headers before it, views of its header, and its moved
//! checksum.
#![tactic(auto)]

mod laws;
mod moves;
mod protocols;
mod view;
mod walk;

pub use laws::{
    echo_is_moved_between, fragment_header_is_read, fragment_is_read6, icmp_is_moved_between,
    plain_is_read6, tcp_is_moved_between, udp_is_moved_between, walks_have_room,
};
pub use moves::{move_echo, move_icmp, move_tcp, move_udp};
pub use protocols::{FRAGMENT, ICMP, ICMPV6, TCP, UDP};
pub use view::{IcmpView, TcpView, UdpView, checksum_place, icmp_view, tcp_view, udp_view};
pub use walk::{FragInfo, Walk, walk_ext};
