//! A walker over words of an image: it refers to the lent words and stands at one of them, or behind the last.
ghost use Rattle.std.specs.Prelude.{◌≡◌, ◌+◌, ◌<◌, drop, length};
ghost use Rattle.std.specs.Iterator.{item_count};
ghost use Rattle.word.specs.Chunk.{words_in};
ghost use Rattle.image.specs.Walk.{GivesLine, lines_ahead, told_length};

use decode::read_line;
use line_value::Line;
use operation::skip;
use word::nth_word;

#[derive(Clone, Copy)]
pub struct Walker<'a> {
    pub(crate) words: &'a [[u8; 4]],
    pub(crate) at: usize,
}

impl<'a> Walker<'a> {
    pub(crate) fn new(words: &'a [[u8; 4]], at: usize) -> Walker<'a>
        ensures { result ≡ record { words = words.entry; at = at } }
    {
        Walker { words, at }
    }

    // The words from here on.
    #[tactic(auto, using(word::proofs::ChunkLaws::words_dropped, std::proofs::lemmas::List::take_rest))]
    fn rest(self) -> &'a [[u8; 4]]
        ensures { words_in result.now ≡ drop self.entry.at (words_in self.entry.words.now) }
    {
        if self.at < self.words.len() {
            &self.words[self.at..]
        } else {
            &[]
        }
    }
}

// How many words the line has with which the words begin, as its first skip tells, but no more than there are.
fn told_length(words: &[[u8; 4]]) -> usize
    requires { 0 < length words.now }
    ensures { result ≡ told_length (words_in words.now) }
{
    (skip(nth_word(words, 0)) as usize + 1).min(words.len())
}

/// The lines from here on. Nothing is checked, so it is for images that the loader takes.
impl<'a> Iterator for Walker<'a> {
    type Item = Line;

    ghost next_gives = { GivesLine };

    ghost remaining = { item_count lines_ahead };

    #[tactic(auto, using(crate::proofs::GivenLaws::lines_none, crate::proofs::GivenLaws::lines_step, word::proofs::ChunkLaws::words_in_length))]
    #[inline(always)]
    fn next(&mut self) -> Option<Line> {
        let rest = self.rest();
        if rest.is_empty() {
            return None;
        }
        let size = told_length(rest);
        self.at += size;
        Some(read_line(&rest[..size]))
    }
}
