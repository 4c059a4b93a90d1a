//! The lines that the programs print.
ghost use Rattle.std.specs.Prelude.{◌≡◌};
ghost use Rattle.output.specs.Sink.{fed};
ghost use Rattle.policy.specs.Set.{members_of};
ghost use Rattle.report.specs.Report.{word_line, located_line, refusal_line, texts_refusal_line, image_refusal_line, not_word_line, words_field, accept_line, refused_field, refused_line};

use crate::action::put_actions;
use output::{Sink, put_hexadecimal, put_number};
use policy::{ActionSet, Fault, Refusal, Source};

/// Puts a word of an image: eight hexadecimal digits and the line end.
#[tactic(auto, unfolding(crate::specs::Report::word_line))]
pub fn put_word_line<S: Sink>(sink: &mut S, word: u32)
    ensures { sink.new ≡ fed S.taken sink.old (word_line word) }
{
    put_hexadecimal(sink, word);
    sink.put(b"\n");
}

/// A refusal and where the fault is; the unit tells what the location counts.
#[tactic(auto, unfolding(lexer::specs::Byte::bytes))]
fn put_located<S: Sink>(sink: &mut S, unit: &[u8], refusal: Refusal)
    ensures { sink.new ≡ fed S.taken sink.old (located_line unit.now refusal) }
{
    sink.put(b"refused ");
    put_number(sink, u64::from(refusal.fault.number()));
    sink.put(unit);
    put_number(sink, refusal.location as u64);
    sink.put(b"\n");
}

/// Puts the refusal of a text, as `refused 3 line 2`.
#[tactic(auto, unfolding(crate::specs::Report::refusal_line, lexer::specs::Byte::bytes))]
pub fn put_refusal<S: Sink>(sink: &mut S, refusal: Refusal)
    ensures { sink.new ≡ fed S.taken sink.old (refusal_line refusal) }
{
    put_located(sink, b" line ", refusal);
}

/// Puts the refusal of a text of two, or of both, as `refused 3 text 2 line 1`: text 1 is the maker's, 2 the site's, 0 neither alone.
#[tactic(auto, unfolding(crate::specs::Report::texts_refusal_line, output::specs::Number::digits, output::specs::Number::decimal, lexer::specs::Byte::bytes))]
pub fn put_texts_refusal<S: Sink>(sink: &mut S, refusal: Refusal)
    ensures { sink.new ≡ fed S.taken sink.old (texts_refusal_line refusal) }
{
    match refusal.source {
        Source::Neither => put_located(sink, b" text 0 line ", refusal),
        Source::Maker => put_located(sink, b" text 1 line ", refusal),
        Source::Site => put_located(sink, b" text 2 line ", refusal),
    }
}

/// Puts the refusal of an image, as `refused 11 word 4`.
#[tactic(auto, unfolding(crate::specs::Report::image_refusal_line, lexer::specs::Byte::bytes))]
pub fn put_image_refusal<S: Sink>(sink: &mut S, refusal: Refusal)
    ensures { sink.new ≡ fed S.taken sink.old (image_refusal_line refusal) }
{
    put_located(sink, b" word ", refusal);
}

/// Puts that a line should be a word of an image and is none. Lines are numbered from 1.
pub fn put_not_word<S: Sink>(sink: &mut S, line: u64)
    ensures { sink.new ≡ fed S.taken sink.old (not_word_line line) }
{
    sink.put(b"line ");
    put_number(sink, line);
    sink.put(b" is not a word");
    sink.put(b"\n");
}

/// How many words of the image an epoch fetched; the line ends.
#[tactic(auto, unfolding(crate::specs::Report::words_field, lexer::specs::Byte::bytes))]
fn put_words<S: Sink>(sink: &mut S, words: u64)
    ensures { sink.new ≡ fed S.taken sink.old (words_field words) }
{
    sink.put(b" words ");
    put_number(sink, words);
    sink.put(b"\n");
}

/// Puts what was decided in an epoch. Epochs are numbered from 1; `words` is how many words of the image were fetched.
#[tactic(auto, unfolding(crate::specs::Report::accept_line, lexer::specs::Byte::bytes))]
pub fn put_accept<S: Sink>(
    sink: &mut S,
    number: u64,
    accepted: ActionSet,
    cancelled: ActionSet,
    words: u64,
)
    ensures { sink.new ≡ fed S.taken sink.old (accept_line number (members_of accepted) (members_of cancelled) words) }
{
    put_number(sink, number);
    sink.put(b" accept ");
    put_actions(sink, accepted);
    sink.put(b" cancel ");
    put_actions(sink, cancelled);
    put_words(sink, words);
}

/// That the epoch or the question of the number is refused, and why.
#[tactic(auto, unfolding(lexer::specs::Byte::bytes))]
pub(crate) fn put_fault<S: Sink>(sink: &mut S, number: u64, fault: Fault)
    ensures { sink.new ≡ fed S.taken sink.old (refused_field number fault) }
{
    put_number(sink, number);
    sink.put(b" refused ");
    put_number(sink, u64::from(fault.number()));
}

/// Puts that an epoch is refused, by the number of its fault. It fetched no word.
#[tactic(auto, unfolding(crate::specs::Report::refused_line))]
pub fn put_refused<S: Sink>(sink: &mut S, number: u64, fault: Fault)
    ensures { sink.new ≡ fed S.taken sink.old (refused_line number fault) }
{
    put_fault(sink, number, fault);
    put_words(sink, 0);
}
