//! Types and codes of ICMP messages (RFC 7915 sections 4.2 and 5.2).
ghost use Rattle.std.specs.Prelude.{◌≡◌, option_map};
ghost use Rattle.siit_icmp.specs.Icmp.{icmp_to_4, icmp_to_6, new};
ghost use Rattle.siit_icmp.specs.declared.kinds.Rest.TheVariants.{Same};
ghost use Rattle.siit_icmp.specs.Parts.{any_code_to_4, any_code_to_6, echo_row_to_4, echo_row_to_6, error_row_to_4, error_row_to_6, one_code_to_4, one_code_to_6, pair_of};

use siit_rules::{Rule, cases};

/// What bytes 4 to 7 of a translated ICMP message hold.
#[derive(Clone, Copy, Debug, PartialEq, Eq)]
pub enum Rest {
    /// What they held.
    Same,
    /// Zeros.
    Zero,
    /// The MTU, in as many bytes as its family has for it.
    Mtu,
    /// The pointer, in as many bytes as its family has for it.
    Pointer,
    /// A pointer to the next header of IPv6, at 6.
    PointerSix,
    /// The length octet of the new message, and zeros (RFC 4884 section 4).
    Length,
}

/// The type and code of a translated ICMP message, and what bytes 4 to 7 hold.
#[derive(Clone, Copy, Debug, PartialEq, Eq)]
pub struct NewKind {
    /// The type.
    pub kind: u8,
    /// The code.
    pub code: u8,
    /// What bytes 4 to 7 hold.
    pub rest: Rest,
}

/// A table of the pairs of a type and a code, written as `type/code`. A pair is the number 256 * type + code.
macro_rules! messages {
    ($($($kind:literal/$code:literal),+ => $new_kind:literal/$new_code:literal;)*) => {
        cases! { $($(256 * $kind + $code),+ => 256 * $new_kind + $new_code;)* }
    };
}

/// The ICMPv6 type and code for those of an ICMPv4 message (RFC 7915 section 4.2). Refuses `IcmpType4` where no message
/// of the type is translated, and `IcmpCode4` where others of the type are.
pub fn type46(kind: u8, code: u8) -> Result<NewKind, Rule>
    ensures { result ≡ icmp_to_6 kind code }
{
    if let Some(kind) = echo46(kind) {
        return Ok(echo(kind, code));
    }
    if let Some(new) = any_code46(kind, code) {
        return Ok(new);
    }
    one_code46(kind, code).ok_or(match kind {
        3 | 12 => Rule::IcmpCode4,
        _ => Rule::IcmpType4,
    })
}

/// The ICMPv4 type and code for those of an ICMPv6 message (RFC 7915 section 5.2). Refuses `IcmpType6` where no message
/// of the type is translated, and `IcmpCode6` where others of the type are.
pub fn type64(kind: u8, code: u8) -> Result<NewKind, Rule>
    ensures { result ≡ icmp_to_4 kind code }
{
    if let Some(kind) = echo64(kind) {
        return Ok(echo(kind, code));
    }
    if let Some(new) = any_code64(kind, code) {
        return Ok(new);
    }
    one_code64(kind, code).ok_or(match kind {
        1 | 4 => Rule::IcmpCode6,
        _ => Rule::IcmpType6,
    })
}

/// The ICMPv6 type of an ICMPv4 echo request or reply (RFC 7915 section 4.2). None of every other message.
pub fn echo46(kind: u8) -> Option<u8>
    ensures { result ≡ echo_row_to_6 kind }
{
    match kind {
        8 => Some(128),
        0 => Some(129),
        _ => None,
    }
}

/// The ICMPv4 type of an ICMPv6 echo request or reply (RFC 7915 section 5.2). None of every other message.
pub fn echo64(kind: u8) -> Option<u8>
    ensures { result ≡ echo_row_to_4 kind }
{
    match kind {
        128 => Some(8),
        129 => Some(0),
        _ => None,
    }
}

/// An echo message of this type, which keeps its code, its identifier and its sequence number.
fn echo(kind: u8, code: u8) -> NewKind
    ensures { result ≡ new kind code Same }
{
    NewKind {
        kind,
        code,
        rest: Rest::Same,
    }
}

/// The errors of ICMPv4 that are translated whatever their code is.
fn any_code46(kind: u8, code: u8) -> Option<NewKind>
    ensures { result ≡ any_code_to_6 kind code }
{
    match kind {
        11 => Some(NewKind {
            kind: 3,
            code,
            rest: Rest::Length,
        }),
        _ => None,
    }
}

/// The errors of ICMPv6 that are translated whatever their code is.
fn any_code64(kind: u8, code: u8) -> Option<NewKind>
    ensures { result ≡ any_code_to_4 kind code }
{
    match kind {
        2 => Some(NewKind {
            kind: 3,
            code: 4,
            rest: Rest::Mtu,
        }),
        3 => Some(NewKind {
            kind: 11,
            code,
            rest: Rest::Length,
        }),
        _ => None,
    }
}

/// The messages of ICMPv4 whose code decides.
fn one_code46(kind: u8, code: u8) -> Option<NewKind>
    ensures { result ≡ one_code_to_6 kind code }
{
    let new = pair46(kind, code)?;
    Some(new_error6((new / 256) as u8, (new % 256) as u8))
}

/// The messages of ICMPv6 whose code decides.
fn one_code64(kind: u8, code: u8) -> Option<NewKind>
    ensures { result ≡ one_code_to_4 kind code }
{
    let new = pair64(kind, code)?;
    Some(new_error4((new / 256) as u8, (new % 256) as u8))
}

fn pair46(kind: u8, code: u8) -> Option<u16>
    ensures { result ≡ option_map pair_of (one_code_to_6 kind code) }
{
    let pairs = messages! {
        3/0, 3/1 => 1/0;
        3/2 => 4/1;
        3/3 => 1/4;
        3/4 => 2/0;
        3/5, 3/6, 3/7, 3/8 => 1/0;
        3/9, 3/10 => 1/1;
        3/11, 3/12 => 1/0;
        3/13, 3/15 => 1/1;
        12/0, 12/2 => 4/0;
    };
    pairs.find(256 * u16::from(kind) + u16::from(code))
}

fn pair64(kind: u8, code: u8) -> Option<u16>
    ensures { result ≡ option_map pair_of (one_code_to_4 kind code) }
{
    let pairs = messages! {
        1/0 => 3/1;
        1/1 => 3/10;
        1/2, 1/3 => 3/1;
        1/4 => 3/3;
        4/0 => 12/0;
        4/1 => 3/2;
    };
    pairs.find(256 * u16::from(kind) + u16::from(code))
}

/// An ICMPv6 error, with what bytes 4 to 7 hold by its type and code.
fn new_error6(kind: u8, code: u8) -> NewKind
    ensures { result ≡ error_row_to_6 kind code }
{
    let rest = match (kind, code) {
        (2, _) => Rest::Mtu,
        (4, 0) => Rest::Pointer,
        (4, _) => Rest::PointerSix,
        _ => Rest::Length,
    };
    NewKind { kind, code, rest }
}

/// An ICMPv4 error likewise.
fn new_error4(kind: u8, code: u8) -> NewKind
    ensures { result ≡ error_row_to_4 kind code }
{
    let rest = match (kind, code) {
        (12, _) => Rest::Pointer,
        (_, 2) => Rest::Zero,
        _ => Rest::Length,
    };
    NewKind { kind, code, rest }
}
