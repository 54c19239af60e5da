//! DNS64: AAAA records made from A records (RFC 6147 section 5).
ghost use Rattle.std.specs.Prelude.{◌≡◌, ◌≤◌, IfErr, IfOk, length, option_map};
ghost use Rattle.std.specs.Option.{ForSome};
ghost use Rattle.siit_dns64.specs.Answers.{flags_of};
ghost use Rattle.siit_dns64.specs.Body.{IsCounted, answer_with};
ghost use Rattle.siit_dns64.specs.Dns64.{IsRefusal, Gives, answer_by, dns64, passed_on, that_fits};

use crate::aaaa::{answers_itself, code_of, greatest_ttl};
use crate::answered::Answered;
use crate::body::{Body, write_body};
use crate::fault::Dns64Fault;
use crate::judged::{bit, read_query, read_response};
use crate::written::{header, push_question};
use siit_dns::kinds::{A, AAAA};
use siit_dns::{DnsFault, Message};
use siit_rfc6052::Embed;
use std::alloc::Global;

/// The most bytes that a message has.
const LONGEST: usize = 65_535;

/// How many bytes the header of a message has, and the fields behind the name of its question.
const HEADER: usize = 12;

const QUESTION_FIELDS: usize = 4;

/// The answer to a query for AAAA records (RFC 6147 section 5), from the AAAA response to it and the response to the
/// query for A records of the same name, under these prefixes. Messages have at most 65,535 bytes. They are judged in
/// the order of the parameters, each wholly before the next.
pub fn synthesize(
    alloc: Global,
    query: &[u8],
    aaaa: &[u8],
    a: Option<&[u8]>,
    prefixes: &[Embed],
) -> Result<Answered, Dns64Fault>
    requires query { length query.now ≤ 65535 }
    requires aaaa { length aaaa.now ≤ 65535 }
    requires a { ForSome a (λ bytes. length bytes.now ≤ 65535) }
    ensures answer { let a = option_map (λ bytes. bytes.now) a.entry in
        IfOk result (λ answered. dns64 query.now aaaa.now a prefixes.now ≡ Ok answered) }
    ensures refused { let a = option_map (λ bytes. bytes.now) a.entry in
        IfErr result (λ fault. IsRefusal fault (dns64 query.now aaaa.now a prefixes.now)) }
{
    judge(alloc, query, aaaa, a, prefixes)
}

/// The answer to messages that are judged in their order.
fn judge(
    alloc: Global,
    query: &[u8],
    aaaa: &[u8],
    a: Option<&[u8]>,
    prefixes: &[Embed],
) -> Result<Answered, Dns64Fault>
    requires query { length query.now ≤ 65535 }
    requires aaaa { length aaaa.now ≤ 65535 }
    requires a { ForSome a (λ bytes. length bytes.now ≤ 65535) }
    ensures { Gives result (dns64 query.now aaaa.now (option_map (λ bytes. bytes.now) a.entry) prefixes.now) }
{
    let asked = read_query(query)?;
    let question = asked.question();
    let six = read_response(1, &question.name, AAAA, aaaa)?;
    let Some(bytes) = a else {
        return pass_on(alloc, &asked, aaaa);
    };
    let four = read_response(2, &question.name, A, bytes)?;
    answer(alloc, &asked, aaaa, &six, &four, prefixes)
}

/// The answer by messages that are wanted.
fn answer(
    alloc: Global,
    asked: &Message,
    aaaa: &[u8],
    six: &Message,
    four: &Message,
    prefixes: &[Embed],
) -> Result<Answered, Dns64Fault>
    ensures { Gives result (answer_by asked.now aaaa.now six.now (Some four.now) prefixes.now) }
{
    if answers_itself(six) || code_of(four) != 0 {
        return pass_on(alloc, asked, aaaa);
    }
    let body = write_body(alloc, four, greatest_ttl(six), prefixes)?;
    if body.made == 0 {
        return pass_on(alloc, asked, aaaa);
    }
    make(alloc, asked, four, &body)
}

/// The AAAA response as it is, with the query's identifier.
fn pass_on(alloc: Global, asked: &Message, aaaa: &[u8]) -> Result<Answered, Dns64Fault>
    ensures { Gives result (Ok (passed_on asked.now aaaa.now)) }
{
    let mut bytes = Vec::new(alloc);
    bytes.extend_from_slice(&asked.id().to_be_bytes())?;
    if let Some(rest) = aaaa.get(2..) {
        bytes.extend_from_slice(rest)?;
    }
    Ok(Answered { bytes, made: 0 })
}

/// The message that is made of a body.
fn make(alloc: Global, asked: &Message, four: &Message, body: &Body) -> Result<Answered, Dns64Fault>
    requires { IsCounted body.now }
    ensures { Gives result (that_fits (answer_with asked.now four.now body.now)) }
{
    let question = asked.question();
    let len = HEADER + question.name.len() + QUESTION_FIELDS + body.bytes.len();
    if len > LONGEST {
        return Err(Dns64Fault {
            which: 2,
            fault: DnsFault::AnswerTooLong,
        });
    }
    let mut bytes = Vec::new(alloc);
    bytes.extend_from_slice(&header(
        asked.id(),
        answer_flags(asked.flags(), four.flags()),
        body.answers as u16,
        body.authorities as u16,
        body.additionals as u16,
    ))?;
    push_question(&mut bytes, &question)?;
    bytes.extend_from_slice(body.bytes.as_slice())?;
    Ok(Answered {
        bytes,
        made: body.made as u32,
    })
}

/// The flags of the answer: QR 1, RD and CD of the query, and RA of the A response.
fn answer_flags(query: u16, a: u16) -> u16
    ensures { result ≡ flags_of query a }
{
    (1 << 15) + (bit(8, query) << 8) + (bit(7, a) << 7) + (bit(4, query) << 4)
}
