//! Words of 32 bits in a slice of bytes, most significant byte first. Start with specs/Word.antt.
#![tactic(auto)]

ghost use Rattle.std.specs.Prelude.{◌≡◌, [], ◌∷◌, ◌/◌, ◌-◌, ◌<◌, ◌≤◌, length, slice_index_or};
ghost use Rattle.word.specs.Word.{words_of, between};
ghost use Rattle.word.specs.Chunk.{words_in};
ghost use Rattle.word.specs.Steps.Write.{fits, put_words};

/// Whether the word fits at the index. Where it does not, the buffer stays as it is.
#[tactic(auto, using(crate::proofs::WriteLaws::fits_in, crate::proofs::WriteLaws::fits_out, crate::proofs::WriteLaws::put_out, crate::proofs::WriteLaws::store_word))]
pub fn put_word(buffer: &mut [u8], index: usize, word: u32) -> bool
    ensures answer { result ≡ fits buffer.old index 1 }
    ensures buffer { buffer.new ≡ put_words buffer.old index (word ∷ []) }
{
    if index < buffer.len() / 4 {
        let at = index * 4;
        buffer[at..at + 4].copy_from_slice(&word.to_be_bytes());
        true
    } else {
        false
    }
}

/// The words of the bytes. What is left over behind the last is no word.
#[tactic(auto, using(crate::proofs::ChunkLaws::words_chunks))]
pub fn words(bytes: &[u8]) -> &[[u8; 4]]
    ensures { words_in result.now ≡ words_of bytes.now }
{
    let (words, _) = bytes.as_chunks::<4>();
    words
}

/// The word at an index that is there.
pub fn nth_word(words: &[[u8; 4]], index: usize) -> u32
    requires { index < length words.now }
    ensures { result ≡ slice_index_or (words_in words.now) index 0 }
{
    u32::from_be_bytes(words[index])
}

/// The word at an index, 0 past the last.
pub fn nth_word_or_zero(words: &[[u8; 4]], index: usize) -> u32
    ensures { result ≡ slice_index_or (words_in words.now) index 0 }
{
    if index < words.len() {
        nth_word(words, index)
    } else {
        0
    }
}

/// The words from one index up to another.
#[tactic(auto, unfolding(crate::specs::Word::between))]
pub fn part(words: &[[u8; 4]], start: usize, end: usize) -> &[[u8; 4]]
    requires ordered { start ≤ end }
    requires inside { end ≤ length words.now }
    ensures words { words_in result.now ≡ between start end (words_in words.now) }
    ensures count { length result.now ≡ end - start }
{
    &words[start..end]
}
