//! What the commands of this project's programs are made of: the words that they are given, files that they read
//! whole, and the texts of a configuration's faults.
#![tactic(auto)]

mod config_texts;
mod reading;
mod words;

ghost use Rattle.siit_command.specs.Examples.{WordExamples};

pub use config_texts::config_text;
pub use reading::{Unread, read_whole};
pub use words::{Address, is_output_name, read_address, read_number};

/// Words that are numbers, addresses and names of outputs, and words that are none.
pub fn word_examples()
    ensures { WordExamples }
{}
