//! What rules do.

ghost use Rattle.std.specs.Prelude.{◌≡◌};
ghost use Rattle.policy.specs.Effect.{with_effect};

use crate::number::{Action, Event};
use crate::set::{ActionSet, EventSet};

/// What a rule does where it holds: it proposes an action, or triggers an event, which then occurs in the next epoch.
#[derive(Clone, Copy)]
pub enum Effect {
    Causes(Action),
    Triggers(Event),
}

/// What some rules do together: the actions that they propose, and the events that they trigger.
#[derive(Clone, Copy)]
pub struct Effects {
    pub actions: ActionSet,
    pub events: EventSet,
}

impl Effects {
    /// Nothing is proposed, and nothing triggered.
    pub const NONE: Effects = Effects {
        actions: ActionSet::EMPTY,
        events: EventSet::EMPTY,
    };

    /// The same with one more. A number past 63 is not taken in.
    #[tactic(auto, unfolding(crate::specs::Effect::with_effect))]
    pub fn with(self, effect: Effect) -> Effects
        ensures { result ≡ with_effect self effect }
    {
        match effect {
            Effect::Causes(action) => Effects {
                actions: self.actions.insert(action),
                events: self.events,
            },
            Effect::Triggers(event) => Effects {
                actions: self.actions,
                events: self.events.insert(event),
            },
        }
    }
}
