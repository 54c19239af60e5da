//! The captures that a run carries.

/// The names of the files that hold the captures of both ends. A capture without a name has no records.
#[derive(Clone, Copy)]
pub struct Inputs<'a> {
    pub left: Option<&'a str>,
    pub right: Option<&'a str>,
}
