//! An epoch: the events that occur in it, and the readings that it gives.
ghost use Rattle.std.specs.Prelude.{◌≡◌, length};

use crate::limit::READING_LIMIT;
use crate::set::{EventSet, ReadingSet};

/// The readings of an epoch. What stands in the place of one that is not given is no value.
#[derive(Clone, Copy)]
pub struct Readings {
    /// Which readings the epoch gives.
    pub given: ReadingSet,
    /// By its number, the value of each that is given.
    pub values: [i32; READING_LIMIT],
}

#[derive(Clone, Copy)]
pub struct Epoch {
    pub events: EventSet,
    pub readings: Readings,
}

impl Epoch {
    /// No event, and no reading given.
    pub const EMPTY: Epoch = Epoch {
        events: EventSet::EMPTY,
        readings: Readings {
            given: ReadingSet::EMPTY,
            values: [0; READING_LIMIT],
        },
    };
}

/// Readings as a run over words holds them: which are given at hand, the values where they stand.
#[derive(Clone, Copy)]
pub struct ReadingView<'a> {
    pub given: ReadingSet,
    pub values: &'a [i32; READING_LIMIT],
    pub ghost all: { length values.now ≡ 16 },
}

impl Readings {
    ghost use Rattle.policy.specs.Epoch.{viewed};

    /// The same readings for a run.
    pub fn view(&self) -> ReadingView<'_>
        ensures { viewed result ≡ self.now }
    {
        ReadingView {
            given: self.given,
            values: &self.values,
        }
    }
}
