//! The rule part of an image.
ghost use Rattle.std.specs.Prelude.{ℕ, ◌≡◌, ◌<◌, slice_index_or, length, true, MatchOption};
ghost use Rattle.word.specs.Chunk.{words_in};
ghost use Rattle.policy.specs.Epoch.{viewed};
ghost use Rattle.operation.specs.Fields.{operation_of};
ghost use Rattle.operation.specs.Said.{says};
ghost use Rattle.operation.specs.Whole.{whole_lines};
ghost use Rattle.operation.specs.declared.operation.Operation.{Operation};
ghost use Rattle.policy.specs.declared.line.Part.{Part};
ghost use Rattle.run.specs.Run.{taking, run_rules, rule_fetches};
ghost use Rattle.run.specs.Steps.Test.{IsTestIn, AsksNothing};

use crate::test::{Tested, against_constant, against_reading};
use operation::{Operation, first_if, skip};
use policy::{Action, Effect, Effects, Event, Events, Part, ReadingView, Readings};
use word::nth_word;

// The test of a word; none where it asks for none. Heads come first, which a run meets most.
#[tactic(auto, unfolding(operation::specs::Said::says, operation::specs::Said::says_by, operation::specs::Said::constants_of, operation::specs::Whole::ends, operation::specs::Whole::ends_line, crate::specs::Run::rule_test, crate::specs::Run::taking))]
fn test_rule(
    words: &[[u8; 4]],
    behind: usize,
    word: u32,
    events: Events,
    readings: ReadingView<'_>,
) -> Option<Tested>
    requires { operation_of word ≡ Operation.AgainstConstant → behind < length words.now }
    ensures { MatchOption result (AsksNothing events (viewed readings.entry) (says word (slice_index_or (words_in words.now) behind 0))) (IsTestIn events (viewed readings.entry) (says word (slice_index_or (words_in words.now) behind 0)) behind) }
{
    let part = Part::Rules;
    let present = first_if(word, Operation::Present);
    if present < 64 {
        return Some(Tested {
            holds: events.present.has(Event(present as u8)),
            next: behind,
        });
    }
    let absent = first_if(word, Operation::Absent);
    if absent < 64 {
        return Some(Tested {
            holds: !events.occurred.has(Event(absent as u8)),
            next: behind,
        });
    }
    let number = first_if(word, Operation::AgainstConstant);
    if number < 64 {
        let constant = nth_word(words, behind);
        return Some(against_constant(part, behind, word, number, constant, readings));
    }
    match Operation::of(word) {
        Operation::AgainstReading => Some(against_reading(part, behind, word, readings)),
        _ => None,
    }
}

// The effects with that of a word, if it has one.
#[tactic(auto, unfolding(operation::specs::Said::says, operation::specs::Said::says_by, crate::specs::Run::taking))]
pub(crate) fn with_word(effects: Effects, word: u32) -> Effects
    ensures { (k : ℕ) → result ≡ taking effects (says word k) }
{
    let action = first_if(word, Operation::Proposes);
    if action < 64 {
        return effects.with(Effect::Causes(Action(action as u8)));
    }
    let event = first_if(word, Operation::Triggers);
    if event < 64 {
        return effects.with(Effect::Triggers(Event(event as u8)));
    }
    effects
}

/// What the run of rules answers: the actions that they propose and the events that they trigger, and how many words were fetched.
#[derive(Clone, Copy)]
pub struct Yielded {
    pub effects: Effects,
    pub words: usize,
}

/// The run of the words of rules, which are whole lines, on the events and readings of an epoch.
// The index that goes on is the one behind the next word, from where its constant and what it skips are counted: with the word's own
// each word took an instruction more. Every word before the next was fetched or passed over by a failed test, so that it is enough to
// move `from` along by what such a test passes over.
#[inline(always)]
#[tactic(auto, using(crate::proofs::TestLaws::constants_small))]
pub fn run_rules(words: &[[u8; 4]], events: Events, readings: &Readings) -> Yielded
    requires whole { whole_lines Part.Rules (words_in words.now) ≡ true }
    ensures effects { result.effects ≡ run_rules events readings.now (words_in words.now) }
    ensures words { result.words ≡ rule_fetches events readings.now (words_in words.now) }
{
    let view = readings.view();
    let mut effects = Effects::NONE;
    let mut behind = 1;
    let mut from = 1;
    while behind <= words.len() {
        loop {
            let word = nth_word(words, behind - 1);
            let Some(test) = test_rule(words, behind, word, events, view) else {
                effects = with_word(effects, word);
                behind += 1;
                break;
            };
            behind = test.next + 1;
            if !test.holds {
                behind += skip(word) as usize;
                from += skip(word) as usize;
                break;
            }
        }
    }
    Yielded {
        effects,
        words: behind - from,
    }
}
