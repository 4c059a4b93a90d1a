//! The decompiler as a machine of lines, and its whole run.
ghost use Rattle.std.specs.Prelude.{◌≡◌, ◌≤◌, ℕ, List, [], ◌∷◌, length, take, OnOk, IfErr};
ghost use Rattle.output.specs.Sink.{fed};
ghost use Rattle.printer.specs.Printed.{longest_text};
ghost use Rattle.stream.specs.Machine.{AnswersAll, ListingEndsBy, nothing_due};
ghost use Rattle.dump.specs.Dump.{restored};
ghost use Rattle.dump.specs.Steps.Lines.{read_in};
ghost use Rattle.dump.specs.Steps.Sizes.{dump_size};

use crate::line::{put_image, word_in};
use decompile::TEXT_SIZE;
use image::IMAGE_SIZE;
use lined::{LineMachine, answer_lines};
use output::Sink;
use stream::{Ends, Failure, keep};

/// Bytes for the words: one word over the largest image, which tells that there are too many.
const DUMP_SIZE: usize = IMAGE_SIZE + 4;

/// Bytes of a line that are handed on: one more than a word has digits.
const LINE_HELD: usize = 9;

/// Bytes that are read at once.
const CHUNK_SIZE: usize = 65536;

/// The bytes of the words of `lines` lines, of which the first `size` are held. Where it is `broken`, the line behind those is no word, and the
/// rest does not matter.
#[derive(Drop)]
struct Decompiler {
    image: [u8; DUMP_SIZE],
    size: usize,
    lines: u64,
    broken: bool,
    ghost image_long: { length image ≡ dump_size },
    ghost held: { size ≤ dump_size },
}

impl Decompiler {
    /// A line more.
    #[tactic(auto, using(crate::proofs::Whole::line_word, crate::proofs::Whole::line_none))]
    fn take_line(&mut self, line: &[u8])
        ensures { (rest : List (List ℕ)) → read_in self.old.broken (take self.old.size self.old.image) self.old.lines (line.now ∷ rest)
            ≡ read_in self.new.broken (take self.new.size self.new.image) self.new.lines rest }
    {
        if self.broken {
            return;
        }
        match word_in(line) {
            None => self.broken = true,
            Some(word) => {
                self.size = keep(&mut self.image, self.size, &word.to_be_bytes());
                self.lines = self.lines.wrapping_add(1);
            }
        }
    }

    /// All lines were read.
    #[tactic(auto, using(crate::proofs::Whole::line_short, crate::proofs::Whole::none_left))]
    fn put_all<S: Sink>(&self, sink: &mut S)
        ensures puts { sink.new ≡ fed S.taken sink.old (read_in self.now.broken (take self.now.size self.now.image) self.now.lines []) }
        ensures short { length (read_in self.now.broken (take self.now.size self.now.image) self.now.lines []) ≤ longest_text }
    {
        if self.broken {
            report::put_not_word(sink, self.lines.wrapping_add(1));
        } else {
            put_image(sink, &self.image[..self.size]);
        }
    }
}

impl LineMachine for Decompiler {
    ghost use Rattle.std.specs.Prelude.{◌++◌, refl};
    ghost use Rattle.lined.specs.Lines.{last_line};
    ghost use Rattle.printer.specs.Printed.{longest_text};

    ghost says = { λ s line. [] };

    ghost given = { λ s lines. [] };

    ghost printed = { λ s lines last. read_in s.broken (take s.size s.image) s.lines (lines ++ last_line last) };

    ghost room = { longest_text };

    fn room(&self) -> usize {
        TEXT_SIZE
    }

    fn line<S: Sink>(&mut self, line: &[u8], sink: &mut S) {
        self.take_line(line);
    }

    fn end<S: Sink>(&mut self, last: &[u8], sink: &mut S) {
        if 0 < last.len() {
            self.take_line(last);
        }
        self.put_all(sink);
    }

    ghost quiet = { λ s. refl };
}

/// Restores the text of the image whose words are the input: all of it is read before anything is written.
pub fn restore_input<E: Ends>(ends: &mut E) -> Result<(), Failure>
    ensures ok { OnOk result (AnswersAll restored nothing_due (E.known ends.old) (E.known ends.new)) }
    ensures err { IfErr result (λ e. ListingEndsBy e restored (E.known ends.old) (E.known ends.new)) }
{
    let decompiler = Decompiler {
        image: [0; DUMP_SIZE],
        size: 0,
        lines: 0,
        broken: false,
    };
    let mut held = [0u8; LINE_HELD];
    let mut out = [0u8; TEXT_SIZE];
    let mut chunk = [0u8; CHUNK_SIZE];
    answer_lines(ends, decompiler, &mut held, &mut out, &mut chunk)
}
