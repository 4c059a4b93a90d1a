//! A machine of lines as a machine of parts.
ghost use Rattle.std.specs.Prelude.{◌≡◌, ◌≤◌, [], ◌++◌, length, take};
ghost use Rattle.output.specs.Sink.{fed};
ghost use Rattle.lined.specs.Machine.{LineGoes, answer_behind, due_behind};

use crate::line::LineMachine;
use crate::part::PartMachine;
use output::Sink;
use stream::keep;

/// The line goes on with a part and ends behind it, and is handed on: from the part where it lies whole in that, else it is kept whole.
fn line_held<L: LineMachine, S: Sink>(
    machine: &mut L,
    held: &mut [u8],
    size: usize,
    part: &[u8],
    sink: &mut S,
)
    requires { size ≤ length held.old }
    ensures kept { length held.new ≡ length held.old }
    ensures puts { sink.new ≡ fed S.taken sink.old (L.says machine.old (take (length held.old) (take size held.old ++ part.now))) }
    ensures short { length (L.says machine.old (take (length held.old) (take size held.old ++ part.now))) ≤ L.room }
    ensures goes { LineGoes L.given L.printed machine.old machine.new (take (length held.old) (take size held.old ++ part.now))
        (L.says machine.old (take (length held.old) (take size held.old ++ part.now))) }
{
    if size == 0 {
        let count = part.len().min(held.len());
        machine.line(&part[..count], sink);
    } else {
        let end = keep(held, size, part);
        machine.line(&held[..end], sink);
    }
}

/// Hands the first `size` bytes on as the open line at the end of the input.
fn end_held<L: LineMachine, S: Sink>(machine: &mut L, held: &mut [u8], size: usize, sink: &mut S)
    requires { size ≤ length held.old }
    ensures kept { length held.new ≡ length held.old }
    ensures puts { sink.new ≡ fed S.taken sink.old (L.printed machine.old [] (take size held.old)) }
    ensures short { length (L.printed machine.old [] (take size held.old)) ≤ L.room }
{
    machine.end(&held[..size], sink);
}

/// A machine of lines and the bytes that it was not handed yet: those of the open line, as many as `held` has room for, so that its length
/// is how much of a line is handed on.
#[derive(Drop)]
pub(crate) struct Lined<'a, L: LineMachine> {
    pub(crate) machine: L,
    pub(crate) held: &'a mut [u8],
    pub(crate) size: usize,
    ghost within: { size ≤ length held.now },
}

impl<'a, L: LineMachine> PartMachine for Lined<'a, L> {
    ghost says = { λ s part. L.says s.machine (take (length s.held.now) (take s.size s.held.now ++ part)) };

    ghost given = { λ s bytes. due_behind L.given s.machine (length s.held.now) (take s.size s.held.now) bytes };

    ghost printed = { λ s bytes. answer_behind L.printed s.machine (length s.held.now) (take s.size s.held.now) bytes };

    ghost room = { L.room };

    fn room(&self) -> usize {
        self.machine.room()
    }

    fn part(&mut self, bytes: &[u8]) {
        self.size = keep(self.held, self.size, bytes);
    }

    fn end_line<S: Sink>(&mut self, part: &[u8], sink: &mut S) {
        line_held(&mut self.machine, self.held, self.size, part, sink);
        self.size = 0;
    }

    fn end<S: Sink>(&mut self, sink: &mut S) {
        end_held(&mut self.machine, self.held, self.size, sink);
    }

    ghost quiet = { λ s. L.quiet s.machine };
}
