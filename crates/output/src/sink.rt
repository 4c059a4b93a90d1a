//! Where bytes are put, one piece behind another.
ghost use Rattle.std.specs.Prelude.{◌≡◌, ℕ, List, [], ◌++◌};
ghost use Rattle.output.specs.Sink.{fed, fed-none, fed-join};

/// Takes bytes, one piece behind another: a counter or a page. What is printed is written once, and goes into any of them.
pub trait Sink {
    // The sink after one more byte.
    ghost taken: { Self → ℕ → Self };

    /// Puts the bytes behind those that were put before.
    fn put(&mut self, bytes: &[u8])
        ensures { self.new ≡ fed taken self.old bytes.now };

    ghost none: { (sink : Self) → fed taken sink [] ≡ sink } = { fed-none taken };

    ghost joins: { (sink : Self) (first second : List ℕ) → fed taken (fed taken sink first) second ≡ fed taken sink (first ++ second) } = { fed-join taken };
}
