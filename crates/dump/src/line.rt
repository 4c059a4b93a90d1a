//! A line as a word, and what is printed for an image.
ghost use Rattle.std.specs.Prelude.{◌≡◌, ◌≤◌, length};
ghost use Rattle.output.specs.Sink.{fed};
ghost use Rattle.printer.specs.Printed.{longest_text};
ghost use Rattle.dump.specs.Dump.{word_in, image_answer};

use decompile::put_decompiled;
use lexer::hex_digits;
use output::Sink;

/// Digits of a word.
const DIGITS: usize = 8;

/// The word that a line stands for.
#[tactic(auto, using(crate::proofs::WordLaws::word_by_digits))]
pub(crate) fn word_in(line: &[u8]) -> Option<u32>
    ensures { result ≡ word_in line.now }
{
    let (word, rest) = hex_digits(line);
    if line.len() == DIGITS && rest.is_empty() {
        Some(word)
    } else {
        None
    }
}

/// Puts what is printed for an image: its text, or why it is refused.
#[tactic(auto, using(crate::proofs::Whole::refused_answer, crate::proofs::Whole::taken_answer, crate::proofs::Whole::image_short))]
pub(crate) fn put_image<S: Sink>(sink: &mut S, image: &[u8])
    ensures puts { sink.new ≡ fed S.taken sink.old (image_answer image.now) }
    ensures short { length (image_answer image.now) ≤ longest_text }
{
    match put_decompiled(sink, image) {
        Err(refusal) => report::put_image_refusal(sink, refusal),
        Ok(()) => {}
    }
}
