//! The first mode: actions are cancelled.
ghost use Rattle.std.specs.Prelude.{◌≡◌, ◌<◌, length, true};
ghost use Rattle.operation.specs.Whole.{whole_lines};
ghost use Rattle.policy.specs.declared.line.Part.{Part};
ghost use Rattle.word.specs.Chunk.{words_in};
ghost use Rattle.monitor.specs.Decision.{kept_by, tried_words, yielded_by};

use crate::decision::Actions;
use crate::waiting::keep_proposed;
use image::Image;
use policy::{Action, ActionSet, Epoch, Readings};
use run::{run_constraints, run_rules};

/// What is kept of the proposed actions, and how many words all trials fetched.
#[derive(Clone, Copy)]
pub struct Kept {
    pub actions: ActionSet,
    pub words: usize,
}

// What is kept of the proposed actions: by rising number, each unless a constraint holds on those kept so far together with it. The
// constraints are those of an image, so that the words of all trials can be added up.
#[inline(never)]
pub(crate) fn resolve(constraints: &[[u8; 4]], proposed: ActionSet, readings: &Readings) -> Kept
    requires whole { whole_lines Part.Constraints (words_in constraints.now) ≡ true }
    requires few { length constraints.now < 8192 }
    ensures actions { result.actions ≡ kept_by (words_in constraints.now) readings.now proposed }
    ensures words { result.words ≡ tried_words (words_in constraints.now) readings.now proposed }
{
    let mut kept = ActionSet::EMPTY;
    let mut words = 0;
    // The proposed actions from n on: bit 0 is n.
    let mut left = proposed.bits;
    let mut n = 0;
    while left != 0 {
        let gap = left.trailing_zeros();
        left >>= gap;
        n += gap as u8;
        // The number is under 64: the remainder spares the test whether it is.
        let more = kept.insert(Action(n % 64));
        let trial = run_constraints(constraints, more, readings);
        words += trial.words;
        if !trial.conflict {
            kept = more;
        }
        left /= 2;
        n += 1;
    }
    Kept {
        actions: kept,
        words,
    }
}

// The words of an image, run on an epoch.
#[tactic(auto, unfolding(crate::specs::Decision::yielded_by))]
pub(crate) fn issue(image: &Image<'_>, epoch: &Epoch) -> Actions
    ensures { result ≡ yielded_by (words_in image.now.parts.rules.now) (words_in image.now.parts.constraints.now) epoch.now }
{
    let run = run_rules(image.parts.rules, epoch.events.all(), &epoch.readings);
    let proposed = run.effects.actions;
    let kept = keep_proposed(image.parts.constraints, proposed, &epoch.readings);
    let accepted = kept.actions;
    Actions {
        accepted,
        cancelled: proposed.without(accepted),
        triggered: run.effects.events,
        visited: run.words + kept.words,
    }
}
