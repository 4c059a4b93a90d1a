//! The engine's session as a machine of lines, and its whole run.
ghost use Rattle.std.specs.Prelude.{◌≡◌, ◌≤◌, length, OnOk, IfErr};
ghost use Rattle.output.specs.Sink.{fed};
ghost use Rattle.layout.specs.Layout.{size_limit};
ghost use Rattle.stream.specs.Machine.{AnswersAll, EndsBy};
ghost use Rattle.session.specs.Printed.{decision_line, printed, due};
ghost use Rattle.session.specs.Steps.Sizes.{text_held};

use crate::mode::pick_mode;
use crate::text::{TEXT_HELD, end_text, keep_line};
use image::IMAGE_SIZE;
use lined::{LineMachine, answer_lines};
use monitor::{Actions, State};
use output::Sink;
use policy::{Mode, Refusal};
use stream::{Ends, Failure, keep};

/// Bytes that are read at once.
const CHUNK_SIZE: usize = 65536;

/// Bytes of output that may wait.
const OUT_SIZE: usize = 65536;

/// Bytes of the longest line that is printed, or more.
const LINE_SIZE: usize = 512;

/// The decision of an epoch.
#[tactic(auto, unfolding(crate::specs::Printed::decision_line))]
fn put_decision<S: Sink>(sink: &mut S, number: u64, decision: Result<Actions, Refusal>)
    ensures { sink.new ≡ fed S.taken sink.old (decision_line number decision) }
{
    match decision {
        Err(refusal) => report::put_refused(sink, number, refusal.fault),
        Ok(actions) => report::put_accept(
            sink,
            number,
            actions.accepted,
            actions.cancelled,
            actions.visited as u64,
        ),
    }
}

/// What the next line is: one of the text, an epoch that is decided in a mode, or, once the text is refused, nothing that counts.
#[derive(Clone, Copy)]
enum Phase {
    Text,
    Epochs(Mode),
    Over,
}

/// The first `count` bytes of the text are held. Its image has `size` bytes, and `number` epochs were decided on it, which left the state.
#[derive(Drop)]
struct Engine {
    phase: Phase,
    text: [u8; TEXT_HELD],
    count: usize,
    image: [u8; IMAGE_SIZE],
    size: usize,
    state: State,
    number: u64,
    ghost text_long: { length text ≡ text_held },
    ghost image_long: { length image ≡ size_limit },
    ghost held: { count ≤ text_held },
    ghost sized: { size ≤ size_limit },
}

impl LineMachine for Engine {
    ghost use Rattle.std.specs.Prelude.{take, Some, None};
    ghost use Rattle.session.specs.Steps.Sizes.{line_size};
    ghost use Rattle.session.specs.Steps.Session.{says_in, told_in, told_none};

    ghost says = { λ s line. says_in s.phase (take s.count s.text) (take s.size s.image) s.state.pending s.number line };

    ghost given = { λ s lines. told_in s.phase (take s.count s.text) (take s.size s.image) s.state.pending s.number lines None };

    ghost printed = { λ s lines last. told_in s.phase (take s.count s.text) (take s.size s.image) s.state.pending s.number lines (Some last) };

    ghost room = { line_size };

    fn room(&self) -> usize {
        LINE_SIZE
    }

    fn line<S: Sink>(&mut self, line: &[u8], sink: &mut S) {
        match self.phase {
            Phase::Text => match pick_mode(line) {
                None => self.count = keep_line(&mut self.text, self.count, line),
                Some(mode) => match end_text(&self.text[..self.count], &mut self.image, sink) {
                    None => self.phase = Phase::Over,
                    Some(size) => {
                        self.phase = Phase::Epochs(mode);
                        self.size = size;
                        self.state = State::START;
                        self.number = 0;
                    }
                },
            },
            Phase::Epochs(mode) => {
                let image = &self.image[..self.size];
                let decision = monitor::step(image, &mut self.state, line, mode);
                self.number = self.number.wrapping_add(1);
                put_decision(sink, self.number, decision);
            }
            Phase::Over => {}
        }
    }

    fn end<S: Sink>(&mut self, last: &[u8], sink: &mut S) {
        match self.phase {
            Phase::Text => match pick_mode(last) {
                None => {
                    self.count = keep(&mut self.text, self.count, last);
                    let _ = end_text(&self.text[..self.count], &mut self.image, sink);
                }
                // No epoch follows: the mode does not matter.
                Some(_) => {
                    let _ = end_text(&self.text[..self.count], &mut self.image, sink);
                }
            },
            Phase::Epochs(_) => {
                if 0 < last.len() {
                    self.line(last, sink);
                }
            }
            Phase::Over => {}
        }
    }

    ghost quiet = { λ s. told_none s.phase (take s.count s.text) (take s.size s.image) s.state.pending s.number };
}

/// Answers the epochs of an input: a rule text, a line `run` or `run events`, and epoch lines. What is printed for the lines that have
/// ended is written before more is read.
pub fn answer_epochs<E: Ends>(ends: &mut E) -> Result<(), Failure>
    ensures ok { OnOk result (AnswersAll printed due (E.known ends.old) (E.known ends.new)) }
    ensures err { IfErr result (λ e. EndsBy e due printed (E.known ends.old) (E.known ends.new)) }
{
    let engine = Engine {
        phase: Phase::Text,
        text: [0; TEXT_HELD],
        count: 0,
        image: [0; IMAGE_SIZE],
        size: 0,
        state: State::START,
        number: 0,
    };
    // No more of a line counts than of a text.
    let mut held = [0u8; TEXT_HELD];
    let mut out = [0u8; OUT_SIZE];
    let mut chunk = [0u8; CHUNK_SIZE];
    answer_lines(ends, engine, &mut held, &mut out, &mut chunk)
}
