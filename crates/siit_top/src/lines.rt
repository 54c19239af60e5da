//! The lines that the program prints.
ghost use Rattle.std.specs.Prelude.{◌≡◌, IfOk, string_bytes};
ghost use Rattle.siit_top.specs.Texts.{bad_capture_text, bad_config_text, bad_message_text, end_name, fault_name, message_fault_text, status_text, too_long_text};

use crate::status::Status;
use siit_capture::CaptureFault;
use siit_chain::End;
use siit_command::config_text;
use siit_config::ConfigFault;
use siit_dns::DnsFault;
use siit_word::NoMemory;
use std::alloc::{AllocError, Global};

/// The line that is printed for a status, with its line feed. For `Ok`, which prints a command's own text, no bytes.
pub fn status_line(alloc: Global, status: &Status) -> Result<Vec<u8>, NoMemory>
    ensures { IfOk result (λ line. line.items ≡ status_text status.now) }
{
    match line_of(alloc, status) {
        Ok(line) => Ok(line.into_bytes()),
        Err(AllocError) => Err(NoMemory),
    }
}

fn line_of(alloc: Global, status: &Status) -> Result<String, AllocError>
    ensures { IfOk result (λ line. string_bytes line ≡ status_text status.now) }
{
    match *status {
        Status::Ok => Ok(String::new(alloc)),
        Status::BadWords => String::from_str(alloc, "siit: bad words\n"),
        Status::BadConfig(fault) => bad_config_line(alloc, &fault),
        Status::ReadFault => String::from_str(alloc, "siit: read fault\n"),
        Status::WriteFault => String::from_str(alloc, "siit: write fault\n"),
        Status::BadCapture { end, place, fault } => bad_capture_line(alloc, end, place, fault),
        Status::NoMemory => String::from_str(alloc, "siit: no memory\n"),
        Status::TooLong { word } => too_long_line(alloc, word),
        Status::BadMessage { word, fault } => bad_message_line(alloc, word, fault),
        Status::NoDevice => String::from_str(alloc, "siit: no device\n"),
    }
}

// The name of an end, as it is printed.
fn end_name(end: End) -> &'static str
    ensures { result.now ≡ end_name end }
{
    match end {
        End::Left => "left",
        End::Right => "right",
    }
}

// The name of a capture's fault, as it is printed.
fn fault_name(fault: CaptureFault) -> &'static str
    ensures { result.now ≡ fault_name fault }
{
    match fault {
        CaptureFault::BadMagic => "BadMagic",
        CaptureFault::BadVersion => "BadVersion",
        CaptureFault::BadLinkType => "BadLinkType",
        CaptureFault::RecordTooLong => "RecordTooLong",
        CaptureFault::BadTime => "BadTime",
        CaptureFault::CutRecord => "CutRecord",
    }
}

#[tactic(auto, using(std::proofs::Common::append_assoc))]
fn bad_capture_line(
    alloc: Global,
    end: End,
    place: u64,
    fault: CaptureFault,
) -> Result<String, AllocError>
    ensures { IfOk result (λ line. string_bytes line ≡ bad_capture_text end place fault) }
{
    let end = end_name(end);
    let mut line = format!(in alloc; "siit: bad capture: {end} at {place}: ")?;
    line.push_str(fault_name(fault))?;
    line.push('\n')?;
    Ok(line)
}

fn bad_config_line(alloc: Global, fault: &ConfigFault) -> Result<String, AllocError>
    ensures { IfOk result (λ line. string_bytes line ≡ bad_config_text fault.now) }
{
    let text = config_text(alloc, fault)?;
    let mut line = String::from_str(alloc, "siit: bad config: ")?;
    line.push_str(text.as_str())?;
    line.push('\n')?;
    Ok(line)
}

#[tactic(auto, using(std::proofs::Common::append_assoc))]
fn too_long_line(alloc: Global, word: u8) -> Result<String, AllocError>
    ensures { IfOk result (λ line. string_bytes line ≡ too_long_text word) }
{
    format!(in alloc; "siit: too long: word {word}\n")
}

#[tactic(auto, using(std::proofs::Common::append_assoc))]
fn bad_message_line(alloc: Global, word: u8, fault: DnsFault) -> Result<String, AllocError>
    ensures { IfOk result (λ line. string_bytes line ≡ bad_message_text word fault) }
{
    let text = message_fault_text(alloc, fault)?;
    let mut line = format!(in alloc; "siit: bad message: word {word}: ")?;
    line.push_str(text.as_str())?;
    line.push('\n')?;
    Ok(line)
}

// What is wrong with a DNS message, as it is printed.
fn message_fault_text(alloc: Global, fault: DnsFault) -> Result<String, AllocError>
    ensures { IfOk result (λ text. string_bytes text ≡ message_fault_text fault) }
{
    match fault {
        DnsFault::Bad(place) => format!(in alloc; "at {place}"),
        DnsFault::NotQuery => String::from_str(alloc, "not query"),
        DnsFault::NotAnswer => String::from_str(alloc, "not answer"),
        DnsFault::AnswerTooLong => String::from_str(alloc, "answer too long"),
        DnsFault::NoMemory => Ok(String::new(alloc)),
    }
}
