//! The second mode: events are dropped, with all that they cause.
ghost use Rattle.std.specs.Prelude.{◌≡◌, ◌<◌};
ghost use Rattle.policy.specs.Set.{keeping, no_events};
ghost use Rattle.word.specs.Chunk.{words_in};
ghost use Rattle.monitor.specs.Decision.{proposed_by, proposed_with_by, reduction_by};
ghost use Rattle.monitor.specs.Steps.Trial.{trial_of, kept_of};

use crate::decision::Actions;
use image::Image;
use policy::{ActionSet, Effects, Epoch, Event, EventSet, Events, Fault, Readings, Refusal};
use run::{run_constraints, run_rules};

/// What the trial of events answers: what they propose and trigger, whether a constraint holds on the actions, and how many words were
/// fetched.
#[derive(Clone, Copy)]
pub struct EventTrial {
    pub effects: Effects,
    pub conflict: bool,
    pub words: usize,
}

// The trial of some events of an epoch: all rules are run, and then the constraints.
fn try_events(image: &Image<'_>, events: Events, readings: &Readings) -> EventTrial
    ensures { result ≡ trial_of (words_in image.now.parts.rules.now) (words_in image.now.parts.constraints.now) events readings.now }
{
    let run = run_rules(image.parts.rules, events, readings);
    let effects = run.effects;
    let trial = run_constraints(image.parts.constraints, effects.actions, readings);
    EventTrial {
        effects,
        conflict: trial.conflict,
        words: run.words + trial.words,
    }
}

/// The events that are kept, what they propose and trigger, and how many words all trials fetched.
#[derive(Clone, Copy)]
pub struct KeptEvents {
    pub events: EventSet,
    pub effects: Effects,
    pub words: usize,
}

// What is kept of an epoch's events: by rising number, each unless a constraint holds on what those kept so far together with it
// propose. `none` is the trial with no event. What the last trial that was kept yielded is not run again.
fn keep_events(image: &Image<'_>, none: EventTrial, epoch: &Epoch) -> KeptEvents
    requires first { none ≡ trial_of (words_in image.now.parts.rules.now) (words_in image.now.parts.constraints.now) (keeping epoch.now.events no_events) epoch.now.readings }
    ensures { result ≡ kept_of (words_in image.now.parts.rules.now) (words_in image.now.parts.constraints.now) epoch.now }
{
    let mut kept = EventSet::EMPTY;
    let mut effects = none.effects;
    let mut words = 0;
    // The events from n on: bit 0 is n.
    let mut left = epoch.events.bits;
    let mut n = 0;
    while left != 0 {
        let gap = left.trailing_zeros();
        left >>= gap;
        n += gap as u8;
        let more = kept.insert(Event(n));
        let trial = try_events(image, epoch.events.keeping(more), &epoch.readings);
        words += trial.words;
        if !trial.conflict {
            kept = more;
            effects = trial.effects;
        }
        left /= 2;
        n += 1;
    }
    KeptEvents {
        events: kept,
        effects,
        words: none.words + words,
    }
}

// What all events of an epoch propose. Where none was dropped, the last trial has shown it.
fn propose_all(image: &Image<'_>, kept: KeptEvents, epoch: &Epoch) -> ActionSet
    requires { kept.effects.actions ≡ proposed_with_by (words_in image.now.parts.rules.now) epoch.now kept.events }
    ensures { result ≡ proposed_by (words_in image.now.parts.rules.now) epoch.now }
{
    if kept.events.bits == epoch.events.bits {
        return kept.effects.actions;
    }
    let run = run_rules(image.parts.rules, epoch.events.all(), &epoch.readings);
    run.effects.actions
}

// The words of the rules and of the constraints of an image that the loader took, run on an epoch. It is refused where a constraint holds already with no event.
#[tactic(auto, unfolding(crate::specs::Decision::reduction_by, crate::specs::Decision::reduced_by))]
pub(crate) fn issue_events(image: &Image<'_>, epoch: &Epoch) -> Result<Actions, Refusal>
    ensures { result ≡ reduction_by (words_in image.now.parts.rules.now) (words_in image.now.parts.constraints.now) epoch.now }
{
    let none = try_events(
        image,
        epoch.events.keeping(EventSet::EMPTY),
        &epoch.readings,
    );
    if none.conflict {
        return Err(Fault::Unavoidable.at(0));
    }
    let kept = keep_events(image, none, epoch);
    let all = propose_all(image, kept, epoch);
    let accepted = kept.effects.actions;
    Ok(Actions {
        accepted,
        cancelled: all.without(accepted),
        triggered: kept.effects.events,
        visited: kept.words,
    })
}
