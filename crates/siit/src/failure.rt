//! Why a call on a file failed, as the program says it.
use std::alloc::{AllocError, AllocFailed, Global};
use std::io::ErrorKind;
use std::{fmt, io};

/// What was to be done with a file.
#[derive(Clone, Copy, Debug, PartialEq, Eq)]
pub(crate) enum Action {
    Reading,
    Making,
    Writing,
}

/// Why it couldn't be done.
#[derive(Drop)]
pub(crate) enum Cause {
    /// The system refused, or memory was refused.
    Error(io::Error),
    /// It is the file that this other word names.
    IsAlso(String),
}

/// A call on a file that failed.
#[derive(Drop)]
pub(crate) struct Failure {
    action: Action,
    name: String,
    cause: Cause,
}

impl From<io::Error> for Cause {
    fn from(error: io::Error) -> Cause {
        Cause::Error(error)
    }
}

impl From<AllocError> for Cause {
    fn from(error: AllocError) -> Cause {
        Cause::Error(io::Error::from(error))
    }
}

impl<T: Drop> From<AllocFailed<T>> for Cause {
    fn from(error: AllocFailed<T>) -> Cause {
        Cause::from(AllocError::from(error))
    }
}

impl Failure {
    /// None where memory for the name is refused.
    pub(crate) fn new(alloc: Global, action: Action, name: &str, cause: Cause) -> Option<Failure> {
        let name = String::from_str(alloc, name).ok()?;
        Some(Failure {
            action,
            name,
            cause,
        })
    }
}

impl fmt::Display for Failure {
    fn fmt<W: fmt::Write>(&self, f: &mut fmt::Formatter<W>) -> fmt::Result {
        write!(f, "{} {}: ", self.action, self.name)?;
        match &self.cause {
            Cause::Error(error) => write_error(f, self.action, error),
            Cause::IsAlso(other) => write!(f, "it is the same file as {other}"),
        }
    }
}

impl fmt::Display for Action {
    fn fmt<W: fmt::Write>(&self, f: &mut fmt::Formatter<W>) -> fmt::Result {
        f.write_str(match self {
            Action::Reading => "reading",
            Action::Making => "making",
            Action::Writing => "writing",
        })
    }
}

fn write_error<W: fmt::Write>(
    f: &mut fmt::Formatter<W>,
    action: Action,
    error: &io::Error,
) -> fmt::Result {
    match (error.kind(), action) {
        (ErrorKind::NotFound, Action::Reading) => f.write_str("no such file"),
        (ErrorKind::NotFound, _) => f.write_str("no such folder"),
        (ErrorKind::StorageFull, _) => f.write_str("no space left"),
        (ErrorKind::Uncategorized, _) => write!(f, "{error}"),
        (kind, _) => write!(f, "{kind}"),
    }
}

#[cfg(test)]
mod tests {
    use super::*;
    use std::test::Fail;

    fn line(alloc: Global, action: Action, cause: Cause) -> Result<String, AllocError> {
        match Failure::new(alloc, action, "a.pcap", cause) {
            Some(failure) => format!(in alloc; "{failure}"),
            None => Err(AllocError),
        }
    }

    // The text of each kind of failure.
    #[test]
    fn failures_are_said_in_a_line(rt: HostRuntime) -> Result<(), Fail> {
        let alloc = rt.alloc();
        let missing = Cause::Error(io::Error::from(ErrorKind::NotFound));
        let text = line(alloc, Action::Reading, missing)?;
        assert_eq!(rt; text.as_str(), "reading a.pcap: no such file");
        let no_folder = Cause::Error(io::Error::from(ErrorKind::NotFound));
        let text = line(alloc, Action::Making, no_folder)?;
        assert_eq!(rt; text.as_str(), "making a.pcap: no such folder");
        let full = Cause::Error(io::Error::from(ErrorKind::StorageFull));
        let text = line(alloc, Action::Writing, full)?;
        assert_eq!(rt; text.as_str(), "writing a.pcap: no space left");
        let folder = Cause::Error(io::Error::from(ErrorKind::IsADirectory));
        let text = line(alloc, Action::Reading, folder)?;
        assert_eq!(rt; text.as_str(), "reading a.pcap: is a directory");
        let twin = Cause::IsAlso(String::from_str(alloc, "b.pcap")?);
        let text = line(alloc, Action::Making, twin)?;
        assert_eq!(rt;
            text.as_str(),
            "making a.pcap: it is the same file as b.pcap"
        );
        Ok(())
    }
}
