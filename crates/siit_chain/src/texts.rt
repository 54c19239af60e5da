//! The lines of the report, written without memory.
ghost use Rattle.std.specs.Prelude.{◌≡◌, ◌+◌, ◌<◌, ◌≤◌, ◌++◌, ◌∷◌, [], codes};
ghost use Rattle.std.specs.Fmt.{decimal};
ghost use Rattle.arrayvec.specs.ArrayString.{array_string_len};
ghost use Rattle.siit_rules.specs.Rows.{row_of};
ghost use Rattle.siit_chain.specs.Texts.{answer_text, end_letter, end_line, report_line};

use crate::origin::{Counts, End, Origin};
use arrayvec::ArrayString;
use siit_rules::{Answer, Rule};

/// The line of a drop: capture, record, device, the rule's number and name, and what was sent back. Device 0 stands for
/// the capture itself.
#[tactic(auto, using(std::proofs::Common::append_assoc), unfolding(crate::specs::Texts::report_line))]
pub fn report_line(origin: &Origin, device: u8, rule: Rule, answered: bool) -> ArrayString<144>
    ensures { result.bytes ≡ report_line origin.now device rule answered }
{
    let mut line = ArrayString::new();
    line.push_str(end_letter(origin.end));
    push_field(&mut line, origin.number);
    push_field(&mut line, u64::from(device));
    push_field(&mut line, u64::from(rule.number()));
    line.push_str(" ");
    push_name(&mut line, rule);
    line.push_str(" ");
    push_answer(
        &mut line,
        if answered {
            rule.answer()
        } else {
            Answer::Silent
        },
    );
    line.push_str("\n");
    line
}

/// The report's last line: how many records were read from the left and from the right, how many packets left at the
/// left and at the right, and how many were dropped.
#[tactic(auto, using(std::proofs::Common::append_assoc), unfolding(crate::specs::Texts::end_line))]
pub fn end_line(left_read: u64, right_read: u64, counts: Counts) -> ArrayString<144>
    ensures { result.bytes ≡ end_line (record {
      left_read = left_read;
      right_read = right_read;
      left = counts.left;
      right = counts.right;
      dropped = counts.dropped;
    }) }
{
    let mut line = ArrayString::new();
    line.push_str("end");
    push_field(&mut line, left_read);
    push_field(&mut line, right_read);
    push_field(&mut line, counts.left);
    push_field(&mut line, counts.right);
    push_field(&mut line, counts.dropped);
    line.push_str("\n");
    line
}

/// The capture that a record is of.
fn end_letter(end: End) -> &'static str
    ensures { result.now ≡ end_letter end }
{
    match end {
        End::Left => "L",
        End::Right => "R",
    }
}

/// Writes a rule's name, of at most 17 letters.
#[tactic(auto, using(crate::proofs::Names::name_length))]
fn push_name(line: &mut ArrayString<144>, rule: Rule)
    requires room { array_string_len line.old + 17 ≤ 144 }
    ensures bytes { line.new.bytes ≡ line.old.bytes ++ (row_of rule).name }
    ensures len { array_string_len line.new ≤ array_string_len line.old + 17 }
{
    line.push_str(rule.name());
}

/// Writes what was sent back.
fn push_answer(line: &mut ArrayString<144>, answer: Answer)
    requires room { array_string_len line.old + 48 ≤ 144 }
    ensures bytes { line.new.bytes ≡ line.old.bytes ++ answer_text answer }
    ensures len { array_string_len line.new ≤ array_string_len line.old + 48 }
{
    match answer {
        Answer::Silent => line.push_str("silent"),
        Answer::Icmp4 { kind, code } => {
            line.push_str("icmp4/");
            push_pair(line, kind, code);
        }
        Answer::Icmp6 { kind, code } => {
            line.push_str("icmp6/");
            push_pair(line, kind, code);
        }
    }
}

/// Writes a type and a code.
fn push_pair(line: &mut ArrayString<144>, kind: u8, code: u8)
    requires room { array_string_len line.old + 41 ≤ 144 }
    ensures bytes { line.new.bytes ≡ line.old.bytes ++ (decimal kind ++ codes "/" ++ decimal code) }
    ensures len { array_string_len line.new ≤ array_string_len line.old + 41 }
{
    push_number(line, u64::from(kind));
    line.push_str("/");
    push_number(line, u64::from(code));
}

/// Writes a space and a number.
fn push_field(line: &mut ArrayString<144>, number: u64)
    requires room { array_string_len line.old + 21 ≤ 144 }
    ensures bytes { line.new.bytes ≡ line.old.bytes ++ (codes " " ++ decimal number) }
    ensures len { array_string_len line.new ≤ array_string_len line.old + 21 }
{
    line.push_str(" ");
    push_number(line, number);
}

/// Writes a number in decimal digits, at most 20.
#[tactic(auto, using(crate::proofs::Decimals::number_rules))]
fn push_number(line: &mut ArrayString<144>, number: u64)
    requires room { array_string_len line.old + 20 ≤ 144 }
    ensures bytes { line.new.bytes ≡ line.old.bytes ++ decimal number }
    ensures len { array_string_len line.new ≤ array_string_len line.old + 20 }
{
    if number < 10 {
        push_digit(line, number);
    } else {
        push_number(line, number / 10);
        push_digit(line, number % 10);
    }
}

/// Writes one decimal digit.
fn push_digit(line: &mut ArrayString<144>, digit: u64)
    requires digit { digit < 10 }
    requires room { array_string_len line.old + 1 ≤ 144 }
    ensures { line.new.bytes ≡ line.old.bytes ++ (48 + digit) ∷ [] }
{
    line.push(char::from(b'0' + digit as u8));
}
