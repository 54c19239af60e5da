//! Fields of headers, big-endian as RFC 791 and RFC 8200 send them.
ghost use Rattle.siit_model.specs.Bytes.{field16, field32, with_field16, with_field32};
ghost use Rattle.std.specs.Prelude.{◌≡◌, ◌+◌, ◌≤◌, length};

use byteorder::{BigEndian, ByteOrder};

/// The 16-bit field at a place, big-endian.
pub fn get16(bytes: &[u8], at: usize) -> u16
    requires { at + 2 ≤ length bytes.now }
    ensures { result ≡ field16 bytes.now at }
{
    BigEndian::read_u16(&bytes[at..])
}

/// The 32-bit field at a place, big-endian.
pub fn get32(bytes: &[u8], at: usize) -> u32
    requires { at + 4 ≤ length bytes.now }
    ensures { result ≡ field32 bytes.now at }
{
    BigEndian::read_u32(&bytes[at..])
}

/// Writes the 16-bit field at a place, big-endian. All other bytes stay.
pub fn put16(bytes: &mut [u8], at: usize, value: u16)
    requires { at + 2 ≤ length bytes.old }
    ensures { bytes.new ≡ with_field16 bytes.old at value }
{
    BigEndian::write_u16(&mut bytes[at..], value);
}

/// Writes the 32-bit field at a place, big-endian. All other bytes stay.
pub fn put32(bytes: &mut [u8], at: usize, value: u32)
    requires { at + 4 ≤ length bytes.old }
    ensures { bytes.new ≡ with_field32 bytes.old at value }
{
    BigEndian::write_u32(&mut bytes[at..], value);
}

#[cfg(test)]
mod tests {
    use super::*;

    // The first bytes of a TCP header: ports 49152 and 80, sequence number 1.
    #[test]
    fn fields_are_big_endian(rt: HostRuntime) {
        let mut header = [0xc0, 0x00, 0x00, 0x50, 0x00, 0x00, 0x00, 0x01];
        assert_eq!(rt; get16(&header, 2), 80);
        assert_eq!(rt; get32(&header, 4), 1);
        put16(&mut header, 0, 443);
        put32(&mut header, 4, 0x1234_5678);
        assert_eq!(rt; header, [0x01, 0xbb, 0x00, 0x50, 0x12, 0x34, 0x56, 0x78]);
    }
}
