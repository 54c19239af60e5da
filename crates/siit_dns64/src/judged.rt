//! The messages that are wanted, and those that are refused.
ghost use Rattle.std.specs.Prelude.{◌≡◌, ◌<◌, ◌≤◌, length};
ghost use Rattle.siit_dns.specs.Messages.{message_of};
ghost use Rattle.siit_dns64.specs.Answers.{bit};
ghost use Rattle.siit_dns64.specs.Dns64.{is_query, is_response, wanted};

use crate::fault::Dns64Fault;
use siit_dns::kinds::{AAAA, IN};
use siit_dns::{DnsFault, Message, Name, same_name};

/// The bit of the flags that a response has (RFC 1035 section 4.1.1).
const QR: u32 = 15;

/// A bit of the flags, 0 being the lowest.
pub(crate) fn bit(n: u32, flags: u16) -> u16
    requires { n < 16 }
    ensures { result ≡ bit n flags }
{
    (flags >> n) % 2
}

/// The query: a query for AAAA records of class 1.
pub(crate) fn read_query(bytes: &[u8]) -> Result<Message<'_>, Dns64Fault>
    requires { length bytes.now ≤ 65535 }
    ensures { result ≡ wanted 0 DnsFault.NotQuery is_query (message_of bytes.now) }
{
    let message = match Message::read(bytes) {
        Ok(message) => message,
        Err(fault) => return Err(Dns64Fault { which: 0, fault }),
    };
    if is_query(&message) {
        Ok(message)
    } else {
        Err(Dns64Fault {
            which: 0,
            fault: DnsFault::NotQuery,
        })
    }
}

/// A response to the question for records of a type under a name, of class 1.
pub(crate) fn read_response<'a>(
    which: u8,
    name: &Name,
    kind: u16,
    bytes: &'a [u8],
) -> Result<Message<'a>, Dns64Fault>
    requires { length bytes.now ≤ 65535 }
    ensures { result ≡ wanted which DnsFault.NotAnswer (is_response name.now.items kind) (message_of bytes.now) }
{
    let message = match Message::read(bytes) {
        Ok(message) => message,
        Err(fault) => return Err(Dns64Fault { which, fault }),
    };
    if is_response(name, kind, &message) {
        Ok(message)
    } else {
        Err(Dns64Fault {
            which,
            fault: DnsFault::NotAnswer,
        })
    }
}

fn is_query(message: &Message) -> bool
    ensures { result ≡ is_query message.now }
{
    let question = message.question();
    bit(QR, message.flags()) == 0 && question.class == IN && question.kind == AAAA
}

fn is_response(name: &Name, kind: u16, message: &Message) -> bool
    ensures { result ≡ is_response name.now.items kind message.now }
{
    let question = message.question();
    bit(QR, message.flags()) == 1
        && same_name(&question.name, name)
        && question.class == IN
        && question.kind == kind
}
