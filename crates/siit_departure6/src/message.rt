//! The message of an ICMP error, with its quote and its checksum (RFC 7915 sections 4.2 and 4.3).
ghost use Rattle.siit_arrival4.specs.Arrived.{HasError4};
ghost use Rattle.siit_departure6.specs.Kept.{IsKept, blanked};
ghost use Rattle.siit_departure6.specs.Parts.{message_to_6};
ghost use Rattle.siit_device.specs.Forward.{rest_to_6};
ghost use Rattle.siit_device.specs.Arrival4.{quoted_part4};
ghost use Rattle.siit_model.specs.Bytes.{bytes16, field16, with_field16};
ghost use Rattle.siit_model.specs.Checksum.{moved, residue};
ghost use Rattle.siit_quoted.specs.Errors.{body_to_6};
ghost use Rattle.siit_quoted.specs.Refusals.{quote_refusal4};
ghost use Rattle.siit_quoted.specs.Sums.{IsDifference};
ghost use Rattle.std.specs.Prelude.{◌≡◌, ◌≤◌, ◌+◌, ◌%◌, ◌∷◌, ◌++◌, length, take, drop, None};

use crate::kept::{Kept, kept_of};
use crate::rest::{rest_for, with_octet};
use siit_addr::Addresses6;
use siit_arrival4::Error4;
use siit_checksum::{pseudo_sum6, shift, sum_of};
use siit_icmp::NewKind;
use siit_quoted::{Sums, quote_sums46, quote46};
use siit_roles::Settings;
use siit_upper::ICMPV6;
use siit_views::{PacketBuf, replace_front};
use siit_word::{get16, put16};

/// How many bytes of an ICMP message stand before its body.
const HEADER: usize = 8;

/// What is known of a translated message before its quote is rewritten.
#[derive(Clone, Copy)]
struct Draft {
    /// What is kept of the old message.
    kept: Kept,
    /// Bytes 4 to 7, but for a length octet.
    rest: [u8; 4],
    /// The old checksum.
    sum: u16,
    /// The residues of what goes, the old head but its checksum among it, and of what comes in the body.
    sums: Sums,
}

/// Makes the buffer hold the ICMPv6 error for the ICMPv4 error that stands from `at` on. What stands before it is gone.
pub fn translate_message(
    settings: &Settings,
    buf: &mut PacketBuf,
    at: usize,
    new: Addresses6,
    error: &Error4,
)
    requires header { at ≤ 60 }
    requires inside { at + 8 ≤ length buf.old.bytes }
    requires most { length buf.old.bytes ≤ 65535 }
    requires error { HasError4 settings.now (drop at buf.old.bytes) error.now }
    requires mtu { 1280 ≤ settings.now.mtu6 }
    requires room { 40 ≤ buf.old.front }
    ensures bytes { buf.new.bytes ≡ message_to_6 settings.now new error.now (drop at buf.old.bytes) }
    ensures short { length buf.new.bytes ≤ 1240 }
    ensures front { buf.old.front + at ≤ buf.new.front + 40 }
{
    let draft = draft_of(settings, &buf.bytes()[at..], error);
    buf.cut_end(at + draft.kept.len);
    let body = at + HEADER;
    let octet = quote46(buf, body, draft.kept.ext, error.quote, settings.tos_zero);
    let rest = with_octet(error.new.rest, draft.rest, octet);
    let len = buf.bytes().len() - at;
    let pseudo = pseudo_sum6(new.src.0, new.dst.0, ICMPV6, len as u32);
    let head = new_head(error.new, rest, draft.sum, draft.sums, pseudo);
    replace_front(buf, body, &head);
}

/// What is known of a message whose quote is accepted.
fn draft_of(settings: &Settings, message: &[u8], error: &Error4) -> Draft
    requires header { 8 ≤ length message.now }
    requires most { length message.now ≤ 65535 }
    requires error { HasError4 settings.now message.now error.now }
    requires mtu { 1280 ≤ settings.now.mtu6 }
    ensures kept { IsKept error.now.new.kind message.now result.kept }
    ensures rest { result.rest ≡ rest_to_6 settings.now error.now.new.rest 0 message.now }
    ensures sum { result.sum ≡ field16 message.now 2 }
    ensures sums { let body = body_to_6 error.now.quote.src.0 error.now.quote.dst.0 settings.now.tos_zero error.now.new.kind message.now
        in IsDifference (blanked message.now) body.bytes result.sums.gone result.sums.come }
{
    let kept = kept_of(message, error.new.kind);
    Draft {
        kept,
        rest: rest_for(settings, error.new.rest, message),
        sum: get16(message, 2),
        sums: sums_of(message, kept, error, settings.tos_zero),
    }
}

/// The residues of what goes, with the old head but its checksum, and of what comes in the body.
fn sums_of(message: &[u8], kept: Kept, error: &Error4, tos_zero: bool) -> Sums
    requires header { 8 ≤ length message.now }
    requires kept { IsKept error.now.new.kind message.now kept }
    requires accepted { quote_refusal4 (quoted_part4 message.now) ≡ None }
    ensures { let body = body_to_6 error.now.quote.src.0 error.now.quote.dst.0 tos_zero error.now.new.kind message.now
        in IsDifference (blanked message.now) body.bytes result.gone result.come }
{
    let body = quote_sums46(&message[HEADER..kept.len], kept.ext, error.quote, tos_zero);
    let head = blank_sum(message);
    let behind = sum_of(&message[kept.len..]);
    let gone = u32::from(head) + u32::from(body.gone) + u32::from(behind);
    Sums {
        gone: (gone % 65535) as u16,
        come: body.come,
    }
}

/// The residue of the first 8 bytes of a message, its checksum counted as zero.
fn blank_sum(message: &[u8]) -> u16
    requires { 8 ≤ length message.now }
    ensures { result ≡ residue (with_field16 (take 8 message.now) 2 0) }
{
    let mut head = [0u8; HEADER];
    head.copy_from_slice(&message[..HEADER]);
    put16(&mut head, 2, 0);
    sum_of(&head)
}

/// The first 8 bytes of the translated message: its checksum is the old one, `sum`, moved by all that goes and comes
/// (RFC 1624). `pseudo` is the residue of the pseudo-header, which ICMPv4 hasn't.
fn new_head(new: NewKind, rest: [u8; 4], sum: u16, sums: Sums, pseudo: u16) -> [u8; HEADER]
    ensures { let blank = new.kind ∷ new.code ∷ 0 ∷ 0 ∷ rest
        in result ≡ new.kind ∷ new.code ∷ bytes16 (moved sum sums.gone ((pseudo + residue blank + sums.come) % 65535)) ++ rest }
{
    let mut head = [0u8; HEADER];
    head[0] = new.kind;
    head[1] = new.code;
    head[4..].copy_from_slice(&rest);
    let come = u32::from(pseudo) + u32::from(sum_of(&head)) + u32::from(sums.come);
    put16(&mut head, 2, shift(sum, sums.gone, (come % 65535) as u16));
    head
}
