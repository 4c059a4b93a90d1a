//! What a word says.
ghost use Rattle.std.specs.Prelude.{ℕ, ◌≡◌, ◌+◌, ◌<◌, ◌≤◌, length, slice_index_or};
ghost use Rattle.word.specs.Chunk.{words_in};
ghost use Rattle.policy.specs.declared.line.Test.{Test};
ghost use Rattle.operation.specs.Said.{says, constants_of, effect_said};

use crate::fields::first_if;
use crate::operation::{Operation, constant_comparison, reading_comparison};
use policy::{Action, Comparison, Effect, Ending, Event, Literal, Test};
use word::{nth_word, nth_word_or_zero};

/// What a word of a line stands for.
#[derive(Clone, Copy)]
pub enum LinePart {
    Head(Test),
    Comparison(Comparison),
    Ending(Ending),
    Nothing,
}

impl LinePart {
    /// How many constants follow the word.
    #[tactic(auto, unfolding(crate::specs::Said::constants_of))]
    pub fn constants(self) -> usize
        ensures count { result ≡ constants_of self }
        ensures few { result ≤ 1 }
    {
        match self {
            LinePart::Comparison(comparison) => comparison.operand.constants(),
            LinePart::Head(_) | LinePart::Ending(_) | LinePart::Nothing => 0,
        }
    }
}

/// The effect that a word ends a rule with, if its operation is one of an effect.
// Told apart one after another, which takes less than a `match`, since rules are run by it.
#[inline(always)]
#[tactic(auto, unfolding(crate::specs::Said::says, crate::specs::Said::says_by, crate::specs::Said::effect_said))]
pub fn effect_of(word: u32) -> Option<Effect>
    ensures { (k : ℕ) → result ≡ effect_said (says word k) }
{
    let action = first_if(word, Operation::Proposes);
    if action < 64 {
        return Some(Effect::Causes(Action(action as u8)));
    }
    let event = first_if(word, Operation::Triggers);
    if event < 64 {
        return Some(Effect::Triggers(Event(event as u8)));
    }
    None
}

fn literal(number: u32, negated: bool) -> Test
    requires { number < 64 }
    ensures { result ≡ Test.Occurs (record { event = record { 0 = number }; negated = negated }) }
{
    Test::Occurs(Literal {
        event: Event(number as u8),
        negated,
    })
}

/// What the word `at` says. The constant of a comparison is the next word.
#[tactic(auto, unfolding(crate::specs::Said::says, crate::specs::Said::says_by, crate::specs::Said::effect_said))]
pub fn part_at(words: &[[u8; 4]], at: usize) -> LinePart
    requires { at < length words.now }
    ensures { result ≡ says (slice_index_or (words_in words.now) at 0) (slice_index_or (words_in words.now) (at + 1) 0) }
{
    let word = nth_word(words, at);
    let present = first_if(word, Operation::Present);
    if present < 64 {
        return LinePart::Head(literal(present, false));
    }
    let absent = first_if(word, Operation::Absent);
    if absent < 64 {
        return LinePart::Head(literal(absent, true));
    }
    let member = first_if(word, Operation::Member);
    if member < 64 {
        return LinePart::Head(Test::Member(Action(member as u8)));
    }
    match Operation::of(word) {
        Operation::AgainstConstant => {
            LinePart::Comparison(constant_comparison(word, nth_word_or_zero(words, at + 1)))
        }
        Operation::AgainstReading => LinePart::Comparison(reading_comparison(word)),
        Operation::Never => LinePart::Ending(Ending::Never),
        _ => match effect_of(word) {
            Some(effect) => LinePart::Ending(Ending::Yields(effect)),
            None => LinePart::Nothing,
        },
    }
}
