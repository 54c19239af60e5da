//! The sections of the records that are still to come (RFC 1035 section 4.1).
ghost use Rattle.std.specs.Prelude.{◌≡◌, ◌≤◌, ◌++◌, [], IsNone, length, option_to_list};
ghost use Rattle.siit_model.specs.Bytes.{field16};
ghost use Rattle.siit_dns.specs.Messages.{sections_of};
ghost use Rattle.siit_dns.specs.Sections.{sections_left};

use siit_word::get16;

/// The sections of the records of a message, by the counts of its header.
pub(crate) fn sections_in(bytes: &[u8]) -> Sections
    requires { 12 ≤ length bytes.now }
    ensures { sections_left result ≡ sections_of (field16 bytes.now 6) (field16 bytes.now 8) (field16 bytes.now 10) }
{
    Sections {
        answers: get16(bytes, 6),
        authorities: get16(bytes, 8),
        additionals: get16(bytes, 10),
    }
}

/// How many records each section still has.
#[derive(Clone, Copy, Debug)]
pub(crate) struct Sections {
    pub answers: u16,
    pub authorities: u16,
    pub additionals: u16,
}

impl Sections {
    /// The section of the next record: 0 for answer, 1 for authority, 2 for additional.
    pub fn next(&mut self) -> Option<u8>
        ensures next { sections_left self.old ≡ option_to_list result ++ sections_left self.new }
        ensures none { IsNone result → sections_left self.old ≡ [] }
    {
        if self.answers > 0 {
            self.answers -= 1;
            return Some(0);
        }
        if self.authorities > 0 {
            self.authorities -= 1;
            return Some(1);
        }
        if self.additionals > 0 {
            self.additionals -= 1;
            return Some(2);
        }
        None
    }
}
