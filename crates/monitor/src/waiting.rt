//! The first mode where there are many words: what is kept of the proposed actions, by where each never line stands on it.
ghost use Rattle.std.specs.Prelude.{◌≡◌, ◌<◌, length, true};
ghost use Rattle.operation.specs.Whole.{whole_lines};
ghost use Rattle.policy.specs.declared.line.Part.{Part};
ghost use Rattle.word.specs.Chunk.{words_in};
ghost use Rattle.monitor.specs.Decision.{kept_by, tried_words};

use crate::actions::{Kept, resolve};
use policy::{Action, ActionSet, Readings};
use run::Waiting;

// What is kept of the proposed actions. Each line stands where what is kept leaves it, so that a trial touches only the lines that wait
// for its action. Where the lines cannot be put up, which those of an image can, the trials are plain.
#[inline(never)]
fn resolve_waiting(constraints: &[[u8; 4]], proposed: ActionSet, readings: &Readings) -> Kept
    requires whole { whole_lines Part.Constraints (words_in constraints.now) ≡ true }
    requires few { length constraints.now < 8192 }
    ensures actions { result.actions ≡ kept_by (words_in constraints.now) readings.now proposed }
    ensures words { result.words ≡ tried_words (words_in constraints.now) readings.now proposed }
{
    let mut waiting = Waiting::new();
    if !waiting.stand(constraints, readings) {
        return resolve(constraints, proposed, readings);
    }
    let mut kept = ActionSet::EMPTY;
    let mut words = 0;
    let mut left = proposed.bits;
    let mut n = 0;
    while left != 0 {
        let gap = left.trailing_zeros();
        left >>= gap;
        n += gap as u8;
        let trial = waiting.try_action(constraints, kept, Action(n), readings);
        words += trial.words;
        if !trial.conflict {
            waiting.keep(constraints, kept, Action(n), trial.words, readings);
            kept = kept.insert(Action(n));
        }
        left /= 2;
        n += 1;
    }
    Kept {
        actions: kept,
        words,
    }
}

// Up to so many words, or of fewer actions, plain trials take less than to put up the lines.
const FEW_WORDS: usize = 16;

const FEW_ACTIONS: u32 = 3;

// What is kept of the proposed actions, by the way that takes less.
pub(crate) fn keep_proposed(
    constraints: &[[u8; 4]],
    proposed: ActionSet,
    readings: &Readings,
) -> Kept
    requires whole { whole_lines Part.Constraints (words_in constraints.now) ≡ true }
    requires few { length constraints.now < 8192 }
    ensures actions { result.actions ≡ kept_by (words_in constraints.now) readings.now proposed }
    ensures words { result.words ≡ tried_words (words_in constraints.now) readings.now proposed }
{
    if proposed.bits == 0 {
        return Kept {
            actions: ActionSet::EMPTY,
            words: 0,
        };
    }
    if constraints.len() <= FEW_WORDS || proposed.bits.count_ones() < FEW_ACTIONS {
        resolve(constraints, proposed, readings)
    } else {
        resolve_waiting(constraints, proposed, readings)
    }
}
