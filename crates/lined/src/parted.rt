//! A machine of parts as a machine of bytes.
ghost use Rattle.std.specs.Prelude.{◌≡◌, ◌-◌, ◌<◌, ◌≤◌, [], ◌∷◌, ◌++◌, length, take, position};
ghost use Rattle.lexer.specs.Byte.{is_line_end};
ghost use Rattle.output.specs.Buffer.{appended, behind};
ghost use Rattle.stream.specs.Machine.{Goes};
ghost use Rattle.lined.specs.Lines.{HasNoEnd};
ghost use Rattle.lined.specs.Waiting.{waiting, given_behind, printed_behind};

use crate::part::PartMachine;
use output::Page;
use stream::Machine;

/// Where the first line of the bytes ends.
fn line_end(bytes: &[u8]) -> Option<usize>
    ensures { result ≡ position is_line_end bytes.now }
{
    bytes.iter().position(|byte| *byte == b'\n')
}

/// The open line goes on with a part and ends. What is printed for it stands behind what waited.
#[tactic(auto, using(output::proofs::SinkLaws::stored_all), unfolding(output::specs::Buffer::behind))]
fn answer<P: PartMachine>(machine: &mut P, part: &[u8], out: &mut [u8], used: usize) -> usize
    requires none { HasNoEnd part.now }
    requires within { used ≤ length out.old }
    ensures answer { result ≡ behind out.old used (P.says machine.old part.now) }
    ensures buffer { out.new ≡ appended out.old used (P.says machine.old part.now) }
    ensures short { length (P.says machine.old part.now) ≤ P.room }
    ensures goes { Goes P.given P.printed machine.old machine.new (part.now ++ 10 ∷ []) (P.says machine.old part.now) }
{
    let mut page = Page {
        bytes: out,
        end: used,
    };
    machine.end_line(part, &mut page);
    page.end
}

/// The input has ended. Nothing waited.
#[tactic(auto, using(output::proofs::SinkLaws::stored_all), unfolding(output::specs::Buffer::behind))]
fn conclude<P: PartMachine>(machine: &mut P, out: &mut [u8]) -> usize
    ensures answer { result ≡ behind out.old 0 (P.printed machine.old []) }
    ensures buffer { out.new ≡ appended out.old 0 (P.printed machine.old []) }
    ensures short { length (P.printed machine.old []) ≤ P.room }
{
    let mut page = Page { bytes: out, end: 0 };
    machine.end(&mut page);
    page.end
}

/// A machine of parts; what it printed waits in `out`, of which the first `used` bytes are filled.
#[derive(Drop)]
pub(crate) struct Parted<'a, P: PartMachine> {
    pub(crate) machine: P,
    pub(crate) out: &'a mut [u8],
    pub(crate) used: usize,
    ghost waits: { used ≤ length out.now },
    ghost room: { P.room ≤ length out.now },
}

impl<'a, P: PartMachine> Parted<'a, P> {
    /// Takes the bytes to the end of the first line, or all of them.
    #[tactic(auto, using(output::proofs::AppendLaws::append_length, crate::proofs::EndLaws::found_none), unfolding(output::specs::Buffer::behind))]
    fn take_line(&mut self, bytes: &[u8]) -> usize
        requires some { 0 < length bytes.now }
        requires room { P.room ≤ length self.old.out.now - self.old.used }
        ensures some { 0 < result }
        ensures within { result ≤ length bytes.now }
        ensures goes { Goes (given_behind P.given) (printed_behind P.printed) (waiting self.old.machine self.old.out.now self.old.used)
            (waiting self.new.machine self.new.out.now self.new.used) (take result bytes.now) [] }
    {
        match line_end(bytes) {
            Some(end) => {
                self.used = answer(&mut self.machine, &bytes[..end], self.out, self.used);
                end + 1
            }
            None => {
                self.machine.part(bytes);
                bytes.len()
            }
        }
    }
}

impl<'a, P: PartMachine> Machine for Parted<'a, P> {
    ghost given = { λ s. given_behind P.given (waiting s.machine s.out.now s.used) };

    ghost printed = { λ s. printed_behind P.printed (waiting s.machine s.out.now s.used) };

    fn feed(&mut self, chunk: &[u8]) -> usize {
        let mut at = 0;
        while at < chunk.len() {
            if self.out.len() - self.used < self.machine.room() {
                return at;
            }
            at += self.take_line(&chunk[at..]);
        }
        at
    }

    #[tactic(auto, using(output::proofs::AppendLaws::append_length), unfolding(output::specs::Buffer::behind))]
    fn finish(&mut self) {
        self.used = conclude(&mut self.machine, self.out);
    }

    fn waiting(&self) -> &[u8] {
        &self.out[..self.used]
    }

    fn clear(&mut self) {
        self.used = 0;
    }
}
