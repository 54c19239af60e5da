//! Where packets come from, what they leave as, and the files that take it.
ghost use Rattle.std.specs.Prelude.{◌≡◌, ℕ, List, [], ◌∷◌, Bool};
ghost use Rattle.std.specs.Option.{option_copied};
ghost use Rattle.siit_chain.specs.Carried.{other_end};
ghost use Rattle.siit_chain.specs.Counted.{added, counts_of};
ghost use Rattle.siit_chain.specs.Log.{drops, leaves, output_at};
ghost use Rattle.siit_chain.specs.Outputs.{name_in};
ghost use Rattle.siit_chain.specs.declared.origin.Origin.{Origin};
ghost use Rattle.siit_rules.specs.declared.rule.Rule.{Rule};

/// An end of a chain, and a side of a device.
#[derive(Clone, Copy, Debug, PartialEq, Eq)]
pub enum End {
    Left,
    Right,
}

/// The record of a capture that a packet came from: whose capture, the record's number in it from 1, and its time.
#[derive(Clone, Copy, Debug, PartialEq, Eq)]
pub struct Origin {
    pub end: End,
    pub number: u64,
    pub seconds: u32,
    pub nanos: u32,
}

/// One of the three texts that a run writes: the packets that leave at the left, those that leave at the right, and the
/// report.
#[derive(Clone, Copy, Debug, PartialEq, Eq)]
pub enum Output {
    Left,
    Right,
    Report,
}

/// The names of the files that take the texts. A text without a name is written nowhere.
#[derive(Clone, Copy)]
pub struct Outs<'a> {
    pub left: Option<&'a str>,
    pub right: Option<&'a str>,
    pub report: Option<&'a str>,
}

/// How many packets left a chain at its ends, and how many were dropped. Each number stands still at its type's last
/// value.
#[derive(Clone, Copy, Debug, PartialEq, Eq)]
pub struct Counts {
    pub left: u64,
    pub right: u64,
    pub dropped: u64,
}

impl End {
    /// The other end.
    pub fn other(self) -> End
        ensures { result ≡ other_end self }
    {
        match self {
            End::Left => End::Right,
            End::Right => End::Left,
        }
    }

    /// The text that takes the packets that leave at this end.
    pub fn output(self) -> Output
        ensures { result ≡ output_at self }
    {
        match self {
            End::Left => Output::Left,
            End::Right => Output::Right,
        }
    }
}

impl<'a> Outs<'a> {
    /// The name of the file that takes a text, if any.
    pub fn name_of(&self, output: Output) -> Option<&'a str>
        ensures { option_copied result ≡ name_in self.now output }
    {
        match output {
            Output::Left => self.left,
            Output::Right => self.right,
            Output::Report => self.report,
        }
    }
}

impl Counts {
    /// Nothing was written yet.
    pub fn none() -> Counts
        ensures { result ≡ counts_of [] }
    {
        Counts {
            left: 0,
            right: 0,
            dropped: 0,
        }
    }

    /// One packet more left at an end.
    pub fn count_packet(&mut self, end: End)
        ensures { (origin : Origin) (packet : List ℕ) → self.new ≡ added self.old (leaves origin end packet ∷ []) }
    {
        match end {
            End::Left => self.left = self.left.saturating_add(1),
            End::Right => self.right = self.right.saturating_add(1),
        }
    }

    /// One packet more was dropped.
    pub fn count_drop(&mut self)
        ensures { (origin : Origin) (device : ℕ) (rule : Rule) (answered : Bool) → self.new ≡ added self.old (drops origin device rule answered ∷ []) }
    {
        self.dropped = self.dropped.saturating_add(1);
    }
}
