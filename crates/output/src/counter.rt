//! How many bytes are put.
ghost use Rattle.output.specs.Sink.{counted};

use crate::sink::Sink;

/// Counts the bytes that are put. A count that would pass the largest `usize` stays there.
#[derive(Clone, Copy)]
pub struct Counter {
    pub count: usize,
}

impl Sink for Counter {
    ghost taken = { counted };

    #[inline(always)]
    #[tactic(auto, using(crate::proofs::SinkLaws::counted_all))]
    fn put(&mut self, bytes: &[u8]) {
        self.count = self.count.saturating_add(bytes.len());
    }
}
