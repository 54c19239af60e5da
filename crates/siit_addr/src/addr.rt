//! Addresses and prefixes as numbers.
ghost use Rattle.std.specs.Prelude.{◌≡◌, ◌≤◌, ◌-◌, ◌/◌, ◌^◌};
ghost use Rattle.siit_addr.specs.Addresses.{agree, is_clear_behind, is_non_global_number, overlap};

/// An IPv4 address, its first octet the highest byte.
#[derive(Clone, Copy, Debug, PartialEq, Eq, PartialOrd, Ord, Hash)]
pub struct Addr4(pub u32);

/// An IPv6 address, its first octet the highest byte.
#[derive(Clone, Copy, Debug, PartialEq, Eq, PartialOrd, Ord, Hash)]
pub struct Addr6(pub u128);

/// The source and the destination of an IPv4 packet.
#[derive(Clone, Copy, Debug, PartialEq, Eq)]
pub struct Addresses4 {
    pub src: Addr4,
    pub dst: Addr4,
}

/// The source and the destination of an IPv6 packet.
#[derive(Clone, Copy, Debug, PartialEq, Eq)]
pub struct Addresses6 {
    pub src: Addr6,
    pub dst: Addr6,
}

/// An IPv4 address and how many of its leading bits count, 0 to 32.
#[derive(Clone, Copy, Debug, PartialEq, Eq, PartialOrd, Ord, Hash)]
pub struct Prefix4 {
    pub addr: Addr4,
    pub len: u8,
    ghost in_range: { len ≤ 32 },
}

/// An IPv6 address and how many of its leading bits count, 0 to 128.
#[derive(Clone, Copy, Debug, PartialEq, Eq, PartialOrd, Ord, Hash)]
pub struct Prefix6 {
    pub addr: Addr6,
    pub len: u8,
    ghost in_range: { len ≤ 128 },
}

impl Prefix4 {
    /// Whether the address begins with the prefix's bits, of which there are as many as its length says.
    pub fn holds(&self, a: Addr4) -> bool
        ensures { result ≡ agree 32 self.now.len a.0 self.now.addr.0 }
    {
        let behind = u32::from(32 - self.len);
        u64::from(a.0) >> behind == u64::from(self.addr.0) >> behind
    }

    /// Whether some address begins with the bits of both prefixes. Bits past a length count for nothing.
    pub fn overlaps(&self, other: &Prefix4) -> bool
        ensures { result ≡ overlap 32 self.now.len self.now.addr.0 other.now.len other.now.addr.0 }
    {
        if self.len <= other.len {
            self.holds(other.addr)
        } else {
            other.holds(self.addr)
        }
    }

    /// Whether no bit of the prefix's address past its length is set.
    pub fn is_clean(&self) -> bool
        ensures { result ≡ is_clear_behind 32 self.now.len self.now.addr.0 }
    {
        let behind = u32::from(32 - self.len);
        u64::from(self.addr.0) % (1u64 << behind) == 0
    }
}

impl Prefix6 {
    /// Whether the address begins with the prefix's bits, of which there are as many as its length says.
    pub fn holds(&self, a: Addr6) -> bool
        ensures { result ≡ agree 128 self.now.len a.0 self.now.addr.0 }
    {
        first_bits(a.0, self.len) == first_bits(self.addr.0, self.len)
    }

    /// Whether some address begins with the bits of both prefixes. Bits past a length count for nothing.
    pub fn overlaps(&self, other: &Prefix6) -> bool
        ensures { result ≡ overlap 128 self.now.len self.now.addr.0 other.now.len other.now.addr.0 }
    {
        if self.len <= other.len {
            self.holds(other.addr)
        } else {
            other.holds(self.addr)
        }
    }

    /// Whether no bit of the prefix's address past its length is set.
    pub fn is_clean(&self) -> bool
        ensures { result ≡ is_clear_behind 128 self.now.len self.now.addr.0 }
    {
        // A length of 0 would need a shift by all 128 bits.
        if self.len == 0 {
            return self.addr.0 == 0;
        }
        self.addr.0 % (1u128 << u32::from(128 - self.len)) == 0
    }
}

// The number that the first len bits of a 128-bit number are.
fn first_bits(bits: u128, len: u8) -> u128
    requires { len ≤ 128 }
    ensures { result ≡ bits / 2 ^ (128 - len) }
{
    bits.checked_shr(u32::from(128 - len)).unwrap_or(0)
}

/// Whether the address lies in one of the ranges that are not global: 0.0.0.0/8 (this network), 10.0.0.0/8,
/// 172.16.0.0/12 and 192.168.0.0/16 (private, RFC 1918), 127.0.0.0/8 (loopback), 169.254.0.0/16 (link-local, RFC 3927),
/// 192.0.0.0/24 (protocol assignments, RFC 6890), 192.0.2.0/24, 198.51.100.0/24 and 203.0.113.0/24 (documentation, RFC
/// 5737), 198.18.0.0/15 (benchmarking, RFC 2544), 224.0.0.0/4 (multicast, RFC 5771) and 240.0.0.0/4 (reserved, RFC 1112
/// section 4). The list is this project's own: the shared range 100.64.0.0/10 (RFC 6598) counts as global.
pub fn is_non_global(a: Addr4) -> bool
    ensures { result ≡ is_non_global_number a.0 }
{
    let [first, second, third, _] = a.0.to_be_bytes();
    match (first, second, third) {
        (0 | 10 | 127 | 224..=255, _, _) => true,
        (169, 254, _) | (192, 168, _) | (198, 18 | 19, _) => true,
        (172, 16..=31, _) => true,
        (192, 0, 0 | 2) | (198, 51, 100) | (203, 0, 113) => true,
        _ => false,
    }
}
