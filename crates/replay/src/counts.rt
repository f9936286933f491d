//! What comes of the records, counted for each call.
use crate::call::Call;
use std::fmt;

/// What comes of one record.
#[derive(Clone, Copy)]
pub(crate) struct Outcome {
    /// The record's call; `None` for a number that no call has.
    pub call: Option<Call>,
    /// Whether the record says that the call is refused.
    pub is_refused: bool,
    /// Whether the call, computed anew, answers otherwise than the record says.
    pub differs: bool,
}

/// How many cases of a call there are, how many of them are refused, and how many differ, each held
/// at a million.
#[derive(Clone, Copy, Default)]
pub(crate) struct Count {
    /// Cases.
    pub cases: u64,
    /// Cases in which the call is refused.
    pub refused: u64,
    /// Cases in which the call answers otherwise than its record says.
    pub differ: u64,
}

// Where a count is held.
const MOST: u64 = 1_000_000;

// A count with one more that `counts`.
fn one_more(count: u64, counts: bool) -> u64 {
    if counts && count < MOST {
        count + 1
    } else {
        count
    }
}

impl Count {
    fn add(&mut self, outcome: Outcome) {
        self.cases = one_more(self.cases, true);
        self.refused = one_more(self.refused, outcome.is_refused);
        self.differ = one_more(self.differ, outcome.differs);
    }
}

impl fmt::Display for Count {
    fn fmt<W: fmt::Write>(&self, f: &mut fmt::Formatter<W>) -> fmt::Result {
        write!(f, "{} cases, {} differ", self.cases, self.differ)
    }
}

/// The counts of all calls, in fixed memory.
#[derive(Clone, Copy, Default)]
pub(crate) struct Counts {
    calls: [Count; 31],
    others: Count,
}

impl Counts {
    /// The count of a call.
    pub(crate) fn of(&self, call: Call) -> Count {
        self.calls[call as usize]
    }

    /// The count of the records whose number no call has.
    pub(crate) fn others(&self) -> Count {
        self.others
    }

    /// Counts one more record.
    pub(crate) fn add(&mut self, outcome: Outcome) {
        match outcome.call {
            Some(call) => self.calls[call as usize].add(outcome),
            None => self.others.add(outcome),
        }
    }
}
