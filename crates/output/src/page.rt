//! A lent buffer, filled from the front.
ghost use Rattle.output.specs.Sink.{stored};

use crate::sink::Sink;

/// A lent buffer and the index where the next byte goes. What has no room is dropped.
#[derive(Drop)]
pub struct Page<'a> {
    pub bytes: &'a mut [u8],
    pub end: usize,
}

impl<'a> Sink for Page<'a> {
    ghost taken = { stored };

    #[inline(always)]
    #[tactic(auto, using(crate::proofs::SinkLaws::step_room, crate::proofs::SinkLaws::step_full, crate::proofs::SinkLaws::page_end))]
    fn put(&mut self, bytes: &[u8]) {
        let out = &mut *self.bytes;
        let mut end = self.end;
        for byte in bytes {
            if end < out.len() {
                out[end] = *byte;
                end += 1;
            }
        }
        self.end = end;
    }
}
