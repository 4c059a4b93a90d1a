//! The functions for C that decide an epoch in the second mode, by event cancellation. They are a library of their own, which can be linked
//! beside that of `kinohazel`: in one library a second caller of the run of an image would keep it from being compiled into the
//! decision of the first mode. Their answer is that of `export` (specs/Export.antt there), as in `kinohazel`; include/kinohazel.h is the C side.
#![tactic(auto)]

ghost use Rattle.std.specs.Prelude.{◌≡◌};
ghost use Rattle.policy.specs.Set.{set_of};
ghost use Rattle.policy.specs.declared.mode.Mode.{Mode};
ghost use Rattle.monitor.specs.Decision.{decision_in, advanced};
ghost use Rattle.export.specs.Export.{decision_of};

use export::{EpochDecision, State, epoch_decision};
use policy::{EventSet, Mode};

/// Decides an epoch line alone, without its line end, where these events are pending, event n as bit n, on an image, in the second
/// mode, by event cancellation. Besides the faults of the first mode there is 17, where every choice of the epoch's events clashes.
#[unsafe(no_mangle)]
pub extern "C" fn kinohazel_decide_events_nonnull(
    image: &[u8],
    pending: u64,
    line: &[u8],
) -> EpochDecision
    ensures { result ≡ decision_of (decision_in Mode.Events image.now (set_of pending) line.now) }
{
    epoch_decision(monitor::decide(image, EventSet::of(pending), line, Mode::Events))
}

/// Decides the next epoch line. Pending behind it are the events that the epoch's kept events triggered, or where it was refused those
/// before.
#[tactic(auto, unfolding(monitor::specs::Decision::advanced))]
#[unsafe(no_mangle)]
pub extern "C" fn kinohazel_step_events_nonnull(
    image: &[u8],
    state: &mut State,
    line: &[u8],
) -> EpochDecision
    ensures answer { result ≡ decision_of (advanced Mode.Events image.now (set_of state.old.pending) line.now).answer }
    ensures state { state.new.pending ≡ (advanced Mode.Events image.now (set_of state.old.pending) line.now).pending.bits }
{
    let decision = kinohazel_decide_events_nonnull(image, state.pending, line);
    *state = state.after(decision);
    decision
}
