//! The check words of an image: what brings the sum of its words to 0 modulo 2 ^ 32 and, in all forms but the first, the sum of its words
//! each as often as its place says.
ghost use Rattle.std.specs.Prelude.{◌≡◌, ◌+◌, ◌%◌, ◌∷◌, [], length, take};
ghost use Rattle.word.specs.Word.{word_limit, words_of};
ghost use Rattle.word.specs.Chunk.{words_in};
ghost use Rattle.layout.specs.Layout.{sum, weighted_word, check_words, check_count};
ghost use Rattle.word.specs.Steps.Write.{fits, put_words};
ghost use Rattle.layout.specs.Steps.Sums.{sums_answer};

use policy::{Fault, Refusal};
use word::{nth_word, part, put_word, words};

/// The sum of words.
#[tactic(auto, unfolding(crate::specs::Layout::sum))]
pub fn sum_words(words: &[[u8; 4]]) -> u32
    ensures { result ≡ sum (words_in words.now) % word_limit }
{
    let mut total: u32 = 0;
    for word in words {
        total = total.wrapping_add(u32::from_be_bytes(*word));
    }
    total
}

/// The sum of words, and that of each times its index plus 1.
#[derive(Clone, Copy)]
pub struct Sums {
    pub plain: u32,
    pub weighted: u32,
}

/// Both sums, in one pass.
#[tactic(auto, unfolding(crate::specs::Layout::sum))]
pub fn sum_twice(words: &[[u8; 4]]) -> Sums
    ensures plain { result.plain ≡ sum (words_in words.now) % word_limit }
    ensures weighted { result.weighted ≡ weighted_word (words_in words.now) }
{
    let mut plain: u32 = 0;
    let mut weighted: u32 = 0;
    let mut weight: u32 = 0;
    for word in words {
        let word = u32::from_be_bytes(*word);
        weight = weight.wrapping_add(1);
        plain = plain.wrapping_add(word);
        weighted = weighted.wrapping_add(word.wrapping_mul(weight));
    }
    Sums { plain, weighted }
}

/// What is wrong with the check words of an image, which stand from an index on: its sum, 10, or else its weighted sum, 16. Nothing is
/// weighted in form 1.
#[tactic(auto, using(crate::proofs::SumsLaws::sum_behind, word::proofs::ChunkLaws::words_in_length, std::proofs::lemmas::Bool::Decides::nat_tests), unfolding(crate::specs::Steps::Sums::sums_answer, crate::specs::Layout::weighted_right, crate::specs::Layout::check_count, word::specs::Word::between))]
#[inline(always)]
pub fn check_sums(words: &[[u8; 4]], form: u8, index: usize) -> Result<(), Refusal>
    requires { length words.now ≡ index + check_count form }
    ensures { result ≡ sums_answer form index (words_in words.now) }
{
    if form == 1 {
        return if sum_words(words) == 0 {
            Ok(())
        } else {
            Err(Fault::ImageSum.at(0))
        };
    }
    let sums = sum_twice(part(words, 0, index));
    let weighted = nth_word(words, index);
    let last = nth_word(words, index + 1);
    if sums.plain.wrapping_add(weighted).wrapping_add(last) != 0 {
        return Err(Fault::ImageSum.at(0));
    }
    if sums.weighted == weighted {
        Ok(())
    } else {
        Err(Fault::ImageWeightedSum.at(0))
    }
}

// The words before an index, all where there are fewer.
#[tactic(auto, using(std::proofs::lemmas::List::take_min, word::proofs::ChunkLaws::words_in_length), unfolding(word::specs::Word::between))]
fn words_before(bytes: &[u8], index: usize) -> &[[u8; 4]]
    ensures { words_in result.now ≡ take index (words_of bytes.now) }
{
    let held = words(bytes);
    part(held, 0, index.min(held.len()))
}

// Two words, and whether both fit.
#[tactic(auto, using(word::proofs::WriteLaws::fits_in, word::proofs::WriteLaws::fits_out, word::proofs::WriteLaws::put_out, word::proofs::WriteLaws::put_append, word::proofs::WriteLaws::put_length))]
fn put_both(buffer: &mut [u8], index: usize, first: u32, second: u32) -> bool
    ensures answer { result ≡ fits buffer.old index 2 }
    ensures buffer { buffer.new ≡ put_words buffer.old index (first ∷ second ∷ []) }
{
    if buffer.len() / 4 < index.saturating_add(2) {
        return false;
    }
    put_word(buffer, index, first);
    put_word(buffer, index + 1, second)
}

/// The check words for the words before `index`, put in there, and whether they fit. Where they do not, the buffer stays as it is.
#[tactic(auto, using(crate::proofs::SumLaws::sum_one_more), unfolding(crate::specs::Layout::check_count, crate::specs::Layout::check_words, crate::specs::Layout::check_word))]
pub fn put_check_words(buffer: &mut [u8], form: u8, index: usize) -> bool
    ensures answer { result ≡ fits buffer.old index (check_count form) }
    ensures buffer { buffer.new ≡ put_words buffer.old index (check_words form (take index (words_of buffer.old))) }
{
    if form == 1 {
        let total = sum_words(words_before(buffer, index));
        return put_word(buffer, index, 0u32.wrapping_sub(total));
    }
    let sums = sum_twice(words_before(buffer, index));
    let last = 0u32.wrapping_sub(sums.plain.wrapping_add(sums.weighted));
    put_both(buffer, index, sums.weighted, last)
}
