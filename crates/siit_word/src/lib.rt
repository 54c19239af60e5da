//! Fields of several bytes, and the outside as traits: files, and the identifications that a device hands out.
#![tactic(auto)]

mod fields;
mod files;
mod idents;
mod memory;

pub use fields::{get16, get32, put16, put32};
pub use files::{Failed, Files, NoMemory, append_all};
pub use idents::{Counter, Idents, ListIdents};
pub use memory::MemFiles;
