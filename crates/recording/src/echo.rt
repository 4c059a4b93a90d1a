//! A machine that answers each byte by itself.
ghost use Rattle.std.specs.Prelude.{◌≡◌, [], ◌≤◌, length};

use stream::{Machine, keep};

/// The bytes that wait, so many.
#[derive(Drop)]
pub struct Echo {
    pub out: [u8; 4],
    pub used: usize,
    ghost within: { used ≤ length out },
}

impl Echo {
    /// Nothing waits.
    pub fn new() -> Echo
        ensures { result.used ≡ 0 }
    {
        Echo {
            out: [0; 4],
            used: 0,
        }
    }
}

impl Machine for Echo {
    ghost use Rattle.recording.specs.Echo.{echoed_of};

    ghost given = { echoed_of };

    ghost printed = { echoed_of };

    fn feed(&mut self, chunk: &[u8]) -> usize {
        if 0 < self.used {
            return 0;
        }
        self.used = keep(&mut self.out, 0, chunk);
        self.used
    }

    fn finish(&mut self) {}

    fn waiting(&self) -> &[u8] {
        &self.out[..self.used]
    }

    fn clear(&mut self) {
        self.used = 0;
    }
}
