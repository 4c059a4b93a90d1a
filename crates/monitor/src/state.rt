//! From one epoch to the next: events that are triggered occur in the next epoch that is accepted, and in no other.
ghost use Rattle.std.specs.Prelude.{◌≡◌};
ghost use Rattle.monitor.specs.Decision.{pending_after, advanced};
ghost use Rattle.monitor.specs.State.{decided};

use crate::decision::{Actions, decide};
use policy::{EventSet, Mode, Refusal};

/// A decision, and the events that are pending behind it.
#[derive(Clone, Copy)]
pub struct Decided {
    pub answer: Result<Actions, Refusal>,
    pub pending: EventSet,
}

// The events that are pending behind a decision.
#[tactic(auto, unfolding(crate::specs::Decision::pending_after))]
fn pending_after(pending: EventSet, answer: Result<Actions, Refusal>) -> EventSet
    ensures { result ≡ pending_after pending answer }
{
    match answer {
        Ok(actions) => actions.triggered,
        Err(_) => pending,
    }
}

/// The decision on an epoch line where these events are pending, and those that are pending behind it: the ones that the epoch
/// triggered, or where it was refused the same.
#[tactic(auto, unfolding(crate::specs::Decision::advanced))]
pub fn advance(image: &[u8], pending: EventSet, line: &[u8], mode: Mode) -> Decided
    ensures { result ≡ advanced mode image.now pending line.now }
{
    let answer = decide(image, pending, line, mode);
    Decided {
        answer,
        pending: pending_after(pending, answer),
    }
}

/// What an engine keeps from one epoch to the next: the events that are pending.
#[derive(Clone, Copy)]
pub struct State {
    pub pending: EventSet,
}

impl State {
    /// Before the first epoch: none is pending.
    pub const START: State = State {
        pending: EventSet::EMPTY,
    };
}

/// The decision on the next epoch line, by the state that the one before it left.
pub fn step(image: &[u8], state: &mut State, line: &[u8], mode: Mode) -> Result<Actions, Refusal>
    ensures { decided result state.new ≡ advanced mode image.now state.old.pending line.now }
{
    let next = advance(image, state.pending, line, mode);
    state.pending = next.pending;
    next.answer
}
