//! The run of a line of the constraint part from one of its words on.
ghost use Rattle.std.specs.Prelude.{◌≡◌};
ghost use Rattle.word.specs.Chunk.{words_in};
ghost use Rattle.policy.specs.Epoch.{viewed};
ghost use Rattle.run.specs.Steps.Wait.{LineTo, Reaches};

use crate::constraints::test_constraint;
use operation::{Operation, first_if};
use policy::{Action, ActionSet, ReadingView};
use word::nth_word;

/// Why the run of a line ended.
#[derive(Clone, Copy)]
pub(crate) enum Stop {
    // The set lacks this action, which is the next of the line.
    Lacks(Action),
    // A comparison failed, as it does on every set.
    Fails,
    // The constraint holds.
    Holds,
}

/// Why it ended, and the word behind the last that was fetched.
#[derive(Clone, Copy)]
pub(crate) struct Reached {
    pub stop: Stop,
    pub behind: usize,
}

/// The run of the line that ends before a word, from another of its words on, on a set of actions.
#[inline(always)]
pub(crate) fn reach(
    words: &[[u8; 4]],
    from: usize,
    end: usize,
    set: ActionSet,
    readings: ReadingView<'_>,
) -> Reached
    requires { LineTo (words_in words.now) from end }
    ensures { Reaches (viewed readings.entry) (words_in words.now) set from end result }
{
    let mut at = from;
    loop {
        let word = nth_word(words, at);
        let action = first_if(word, Operation::Member);
        if action < 64 {
            at += 1;
            let member = Action(action as u8);
            if !set.has(member) {
                return Reached {
                    stop: Stop::Lacks(member),
                    behind: at,
                };
            }
        } else {
            let Some(test) = test_constraint(words, at + 1, word, set, readings) else {
                return Reached {
                    stop: Stop::Holds,
                    behind: at + 1,
                };
            };
            at = test.next;
            if !test.holds {
                return Reached {
                    stop: Stop::Fails,
                    behind: at,
                };
            }
        }
    }
}
