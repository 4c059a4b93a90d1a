//! The constraint part of an image.
ghost use Rattle.std.specs.Prelude.{ℕ, ◌≡◌, ◌<◌, ◌≤◌, length, slice_index_or, true, MatchOption};
ghost use Rattle.word.specs.Chunk.{words_in};
ghost use Rattle.policy.specs.Epoch.{viewed};
ghost use Rattle.operation.specs.Fields.{operation_of};
ghost use Rattle.operation.specs.declared.operation.Operation.{Operation};
ghost use Rattle.run.specs.Run.{ends_constraint, run_constraints, trial_fetches};
ghost use Rattle.run.specs.Steps.Test.{IsTestOf, left_at};
ghost use Rattle.operation.specs.Said.{says};
ghost use Rattle.operation.specs.Whole.{whole_lines};
ghost use Rattle.policy.specs.declared.line.Part.{Part};

use crate::test::{Tested, against_constant, against_reading, fetches};
use operation::{Operation, first, first_if, skip};
use policy::{Action, ActionSet, Part, ReadingView, Readings};
use word::nth_word;

#[tactic(auto, unfolding(operation::specs::Said::says, operation::specs::Said::says_by, crate::specs::Run::ends_constraint))]
fn is_never(word: u32) -> bool
    ensures { (k : ℕ) → result ≡ ends_constraint (says word k) }
{
    match Operation::of(word) {
        Operation::Never => true,
        _ => false,
    }
}

// The test of a word; none where it ends its constraint. Constants come first, which a trial meets most.
#[tactic(auto, unfolding(operation::specs::Said::says, operation::specs::Said::says_by, operation::specs::Said::constants_of, crate::specs::Run::ends_constraint, crate::specs::Run::constraint_test))]
pub(crate) fn test_constraint(
    words: &[[u8; 4]],
    behind: usize,
    word: u32,
    set: ActionSet,
    readings: ReadingView<'_>,
) -> Option<Tested>
    requires { operation_of word ≡ Operation.AgainstConstant → behind < length words.now }
    ensures { MatchOption result (ends_constraint (says word (slice_index_or (words_in words.now) behind 0)) ≡ true) (IsTestOf (viewed readings.entry) set (says word (slice_index_or (words_in words.now) behind 0)) behind) }
{
    let part = Part::Constraints;
    let number = first_if(word, Operation::AgainstConstant);
    if number < 64 {
        let constant = nth_word(words, behind);
        return Some(against_constant(part, behind, word, number, constant, readings));
    }
    match Operation::of(word) {
        Operation::Never => None,
        Operation::Member => Some(Tested {
            holds: set.has(Action(first(word) as u8)),
            next: behind,
        }),
        Operation::AgainstReading => Some(against_reading(part, behind, word, readings)),
        _ => Some(Tested {
            holds: true,
            next: behind,
        }),
    }
}

/// What the trial of a set of actions answers: whether a constraint holds on it, and how many words were fetched.
#[derive(Clone, Copy)]
pub struct Trial {
    pub conflict: bool,
    pub words: usize,
}

// The answer where the trial was left at a word, before which as many words were fetched as lie between `from` and it. That word,
// if there is one, is fetched too.
#[tactic(auto, unfolding(crate::specs::Steps::Test::left_at))]
fn left_at(words: &[[u8; 4]], at: usize, from: usize) -> Trial
    requires { from ≤ at }
    ensures { result ≡ left_at (words_in words.now) at from }
{
    if at < words.len() {
        let last = nth_word(words, at);
        Trial {
            conflict: is_never(last),
            words: at + fetches(last) - from,
        }
    } else {
        Trial {
            conflict: false,
            words: at - from,
        }
    }
}

/// The trial of a set of actions by the words of constraints, which are whole lines. The first that holds ends it.
// A constraint's members come before its comparisons, so they have a loop of their own, which tests for no other operation. No word
// is asked whether it is the last: behind one that ends no line stands another of its line. The index that goes on is the one behind the
// next word, and the words are counted, as in the run of rules.
#[tactic(auto, using(crate::proofs::TestLaws::constants_small))]
pub fn run_constraints(words: &[[u8; 4]], set: ActionSet, readings: &Readings) -> Trial
    requires whole { whole_lines Part.Constraints (words_in words.now) ≡ true }
    ensures conflict { result.conflict ≡ run_constraints readings.now set (words_in words.now) }
    ensures words { result.words ≡ trial_fetches readings.now set (words_in words.now) }
{
    let view = readings.view();
    let mut behind = 1;
    let mut from = 0;
    'constraints: while behind <= words.len() {
        loop {
            let word = nth_word(words, behind - 1);
            let action = first_if(word, Operation::Member);
            if 63 < action {
                break;
            }
            behind += 1;
            if !set.has(Action(action as u8)) {
                behind += skip(word) as usize;
                from += skip(word) as usize;
                continue 'constraints;
            }
        }
        loop {
            let word = nth_word(words, behind - 1);
            let Some(test) = test_constraint(words, behind, word, set, view) else {
                break 'constraints;
            };
            behind = test.next + 1;
            if !test.holds {
                behind += skip(word) as usize;
                from += skip(word) as usize;
                continue 'constraints;
            }
        }
    }
    left_at(words, behind - 1, from)
}
