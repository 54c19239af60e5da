//! Which ICMP messages are errors.
ghost use Rattle.siit_icmp.specs.Errors as model;
ghost use Rattle.std.specs.Prelude.{◌≡◌};

/// Whether ICMPv4 messages of this type are errors: Destination Unreachable, Source Quench, Redirect, Time Exceeded,
/// Parameter Problem (RFC 1122 section 3.2.2).
pub fn is_error_kind4(kind: u8) -> bool
    ensures { result ≡ model.is_error_kind4 kind }
{
    matches!(kind, 3 | 4 | 5 | 11 | 12)
}

/// Whether ICMPv6 messages of this type are errors (RFC 4443 section 2.1).
pub fn is_error_kind6(kind: u8) -> bool
    ensures { result ≡ model.is_error_kind6 kind }
{
    kind < 128
}
