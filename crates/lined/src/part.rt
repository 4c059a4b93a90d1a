//! What takes lines in parts.
ghost use Rattle.std.specs.Prelude.{◌≡◌, ℕ, ◌≤◌, List, [], ◌∷◌, ◌++◌, length};
ghost use Rattle.output.specs.Sink.{fed};
ghost use Rattle.stream.specs.Machine.{Goes};
ghost use Rattle.lined.specs.Lines.{HasNoEnd};

use output::Sink;

/// What takes lines in parts, as they come, and holds of the open one what it wants.
pub trait PartMachine {
    /// What it prints for the open line, if that goes on with these bytes and ends behind them.
    ghost says: { Self → List ℕ → List ℕ };

    /// What it prints from here on, if these bytes come and more may follow.
    ghost given: { Self → List ℕ → List ℕ };

    /// What it prints from here on, if these bytes come and then the end of the input.
    ghost printed: { Self → List ℕ → List ℕ };

    /// The most bytes that it prints at once.
    ghost room: { ℕ };

    fn room(&self) -> usize
        ensures { result ≡ room };

    /// The open line goes on with these bytes.
    fn part(&mut self, bytes: &[u8])
        requires { HasNoEnd bytes.now }
        ensures { Goes given printed self.old self.new bytes.now [] };

    /// The open line goes on with these bytes and ends behind them.
    fn end_line<S: Sink>(&mut self, part: &[u8], sink: &mut S)
        requires { HasNoEnd part.now }
        ensures puts { sink.new ≡ fed S.taken sink.old (says self.old part.now) }
        ensures short { length (says self.old part.now) ≤ room }
        ensures goes { Goes given printed self.old self.new (part.now ++ 10 ∷ []) (says self.old part.now) };

    /// The input has ended.
    fn end<S: Sink>(&mut self, sink: &mut S)
        ensures puts { sink.new ≡ fed S.taken sink.old (printed self.old []) }
        ensures short { length (printed self.old []) ≤ room };

    /// Before a line has ended nothing more is printed.
    ghost quiet: { (machine : Self) → given machine [] ≡ [] };
}
