//! IPv4 texts.
ghost use Rattle.std.specs.Prelude.{◌≡◌, option_map};
ghost use Rattle.siit_addr.specs.Texts.{ipv4_of_text, octet_of};

use crate::addr::Addr4;
use crate::digits::read_decimal_up_to;
use crate::split::in_four;

/// The address that an IPv4 text writes.
pub(crate) fn read_ipv4(text: &[u8]) -> Option<Addr4>
    ensures { option_map (λ a. a.0) result ≡ ipv4_of_text text.now }
{
    let (first, second, third, fourth) = in_four(text)?;
    Some(Addr4(u32::from_be_bytes([
        read_octet(first)?,
        read_octet(second)?,
        read_octet(third)?,
        read_octet(fourth)?,
    ])))
}

fn read_octet(text: &[u8]) -> Option<u8>
    ensures { result ≡ octet_of text.now }
{
    read_decimal_up_to(text, 255)
}
