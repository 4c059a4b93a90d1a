//! The events that the rules of an image trigger.
ghost use Rattle.std.specs.Prelude.{◌≡◌, true};
ghost use Rattle.word.specs.Chunk.{words_in};
ghost use Rattle.operation.specs.Whole.{whole_lines};
ghost use Rattle.policy.specs.declared.line.Part.{Part};
ghost use Rattle.run.specs.Run.{reserved_by};

use crate::rules::with_word;
use crate::test::fetches;
use operation::skip;
use policy::{Effects, EventSet};
use word::nth_word;

/// The events that some line of the words of rules, which are whole lines, triggers.
// The first word of a line tells where its last one stands, which is all that is looked at beside it.
pub fn reserved(words: &[[u8; 4]]) -> EventSet
    requires { whole_lines Part.Rules (words_in words.now) ≡ true }
    ensures { result ≡ reserved_by (words_in words.now) }
{
    let mut effects = Effects::NONE;
    let mut at = 0;
    while at < words.len() {
        let first = nth_word(words, at);
        let end = at + fetches(first) + skip(first) as usize;
        effects = with_word(effects, nth_word(words, end - 1));
        at = end;
    }
    effects.events
}
