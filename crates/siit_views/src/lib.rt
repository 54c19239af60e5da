//! The buffer that holds a packet, and typed views of the IPv4 and IPv6 packet in some bytes.
#![tactic(auto)]

mod buffer;
mod header4;
mod header6;
mod ipv4;
mod ipv6;
mod laws;
mod parts;
mod replace;
mod split;
mod within;
mod writers;

pub use buffer::PacketBuf;
pub use header4::{Ipv4Header, Lengths4, check4, read4};
pub use header6::{Ipv6Header, check6, read6};
pub use ipv4::{Ipv4View, view4};
pub use ipv6::{Ipv6View, view6};
pub use laws::{read_is_good4, read_is_good6};
pub use parts::{FragView, frag_view};
pub use replace::replace_front;
pub use within::{remove_within, replace_within};
pub use writers::{Fields4, Fields6, fragment_header, ipv4_header, ipv6_header};
