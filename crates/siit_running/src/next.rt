//! What stands next in a capture.
ghost use Rattle.std.specs.Prelude.{◌≡◌};
ghost use Rattle.siit_running.specs.Turns.{head_judged, next_told, earlier_of, head_origin, is_before};

use crate::fault::RunFault;
use siit_capture::{CaptureFault, Head};
use siit_chain::{End, Origin};

/// What stands next in a capture.
#[derive(Clone, Copy)]
pub(crate) enum Next {
    /// A record, by its head.
    Record(Head),
    /// Nothing: the capture ends here.
    End,
    /// A fault at this place, in bytes from the capture's start.
    Fault { place: u64, fault: CaptureFault },
}

impl Next {
    /// Refuses a capture whose head has a fault: it is the one at place 0.
    pub(crate) fn judge_head(self, end: End) -> Result<(), RunFault>
        ensures { result ≡ head_judged end self }
    {
        match self {
            Next::Fault { place: 0, fault } => Err(RunFault::BadCapture {
                end,
                place: 0,
                fault,
            }),
            _ => Ok(()),
        }
    }

    /// The head of the record that stands next, `None` at the end. A fault is the answer to the run.
    pub(crate) fn record(self, end: End) -> Result<Option<Head>, RunFault>
        ensures { result ≡ next_told end self }
    {
        match self {
            Next::Record(head) => Ok(Some(head)),
            Next::End => Ok(None),
            Next::Fault { place, fault } => Err(RunFault::BadCapture { end, place, fault }),
        }
    }
}

/// Of the records that stand next in both captures the earlier one, the left one at equal times.
pub(crate) fn earlier(left: Option<Head>, right: Option<Head>) -> Option<Origin>
    ensures { result ≡ earlier_of left right }
{
    let Some(head) = left else {
        return right.map(|other| origin(End::Right, other));
    };
    match right {
        Some(other) if is_before(other, head) => Some(origin(End::Right, other)),
        _ => Some(origin(End::Left, head)),
    }
}

/// Whether a record's time is before that of another.
fn is_before(head: Head, other: Head) -> bool
    ensures { result ≡ is_before head other }
{
    if head.seconds == other.seconds {
        head.nanos < other.nanos
    } else {
        head.seconds < other.seconds
    }
}

fn origin(end: End, head: Head) -> Origin
    ensures { result ≡ head_origin end head }
{
    Origin {
        end,
        number: head.number,
        seconds: head.seconds,
        nanos: head.nanos,
    }
}
