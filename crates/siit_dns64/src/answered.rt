//! An answer, and how many records were made for it.
ghost use Rattle.std.specs.Prelude.{◌≡◌};

use std::marker::Model;

/// The answer to a query.
#[derive(Drop)]
pub struct Answered {
    pub(crate) bytes: Vec<u8>,
    pub(crate) made: u32,
}

impl Model for Answered {
    ghost use Rattle.siit_dns64.specs.Answers.{Answer};

    ghost Value = { Answer };

    ghost view = { λ a. record { bytes = a.bytes.items; made = a.made } };
}

impl Answered {
    /// The bytes of the message.
    pub fn bytes(&self) -> &[u8]
        ensures { result.now ≡ self.now.bytes }
    {
        self.bytes.as_slice()
    }

    /// How many of its records are made from A records: 0 where the AAAA response is passed on.
    pub fn made(&self) -> u32
        ensures { result ≡ self.now.made }
    {
        self.made
    }
}
