//! Writing a line: its words into a lent buffer.
ghost use Rattle.std.specs.Prelude.{◌≡◌, ◌+◌, ◌/◌, ◌<◌, ◌≤◌, length};
ghost use Rattle.operation.specs.Parts.{comparison_words};
ghost use Rattle.word.specs.Steps.Write.{put_words};
ghost use Rattle.layout.specs.Layout.{condition_words, line_words};
ghost use Rattle.layout.specs.Steps.Heads.{head_words};
ghost use Rattle.layout.specs.Steps.Size.{operand_size, condition_size};

use line_value::Line;
use operation::{comparison_word, ending_word, test_word};
use policy::{Comparison, Ending, Operand, Test, constant_word};
use word::put_word;

/// The words of one comparison, for which there is room.
#[tactic(auto, using(crate::proofs::LayoutLaws::put_constant), unfolding(operation::specs::Parts::comparison_words, operation::specs::Parts::constant_words))]
fn put_comparison(buffer: &mut [u8], index: usize, comparison: Comparison, skip: u8)
    requires { index + operand_size comparison.operand ≤ length buffer.old / 4 }
    ensures { buffer.new ≡ put_words buffer.old index (comparison_words comparison skip) }
{
    let operand = comparison.operand;
    put_word(buffer, index, comparison_word(comparison, skip));
    match operand {
        Operand::Constant(k) => {
            put_word(buffer, index + 1, constant_word(k));
        }
        Operand::Reading(_) => {}
    }
}

/// The words of the comparisons and of the ending: `size` words, for which there is room.
#[tactic(auto, using(crate::proofs::LayoutLaws::condition_size_next, crate::proofs::LayoutLaws::condition_small, crate::proofs::LayoutLaws::operand_counted, crate::proofs::LayoutLaws::condition_step, crate::proofs::LayoutLaws::condition_end, word::proofs::WriteLaws::put_length))]
fn put_condition(
    buffer: &mut [u8],
    index: usize,
    comparisons: &[Comparison],
    ending: Ending,
    size: usize,
)
    requires few { length comparisons.now ≤ 4 }
    requires sized { size ≡ condition_size comparisons.now }
    requires room { index + size ≤ length buffer.old / 4 }
    ensures { buffer.new ≡ put_words buffer.old index (condition_words comparisons.now ending) }
{
    let mut at = index;
    let mut left = size;
    for comparison in comparisons {
        let words = 1 + comparison.operand.constants();
        left -= words;
        put_comparison(buffer, at, *comparison, left as u8);
        at += words;
    }
    put_word(buffer, at, ending_word(ending));
}

/// The words of the heads of a line of `size` words, for which there is room.
#[tactic(auto, using(crate::proofs::LayoutLaws::heads_step, crate::proofs::LayoutLaws::heads_end, word::proofs::WriteLaws::put_length))]
fn put_heads(buffer: &mut [u8], index: usize, heads: &[Test], size: usize)
    requires within { length heads.now ≤ size }
    requires short { size < 33 }
    requires room { index + size ≤ length buffer.old / 4 }
    ensures { buffer.new ≡ put_words buffer.old index (head_words heads.now size) }
{
    let mut at = index;
    let mut left = size;
    for head in heads {
        left -= 1;
        put_word(buffer, at, test_word(*head, left as u8));
        at += 1;
    }
}

/// The words of a line put in at a word index, and how many they are. Where they do not fit, the buffer stays as it is.
#[inline(never)]
#[tactic(auto, using(crate::proofs::LayoutLaws::rest_counted, crate::proofs::LayoutLaws::line_counted, crate::proofs::LayoutLaws::line_put, word::proofs::WriteLaws::put_out))]
pub fn put_line(buffer: &mut [u8], index: usize, line: &Line) -> usize
    ensures answer { result ≡ length (line_words line.now) }
    ensures buffer { buffer.new ≡ put_words buffer.old index (line_words line.now) }
{
    let heads = line.heads();
    let comparisons = line.comparisons();
    let rest = comparisons.len() + line.constants() + 1;
    let size = heads.len() + rest;
    let room = (buffer.len() / 4).saturating_sub(index);
    if size <= room {
        put_heads(buffer, index, heads, size);
        put_condition(
            buffer,
            index + heads.len(),
            comparisons,
            line.ending(),
            rest,
        );
    }
    size
}
