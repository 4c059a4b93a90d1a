//! The tests of a line, at most eight.
ghost use Rattle.std.specs.Prelude.{◌≡◌, ◌≤◌, ◌<◌, ◌++◌, ◌∷◌, [], map, length};
ghost use Rattle.policy.specs.Limits.{test_number};
ghost use Rattle.policy.specs.Steps.Seen.{seen_in};

use policy::{Action, HEAD_LIMIT, Test, member, with_member};
use std::marker::Model;

/// A list of at most eight tests.
#[derive(Drop)]
pub struct Tests {
    items: [Test; HEAD_LIMIT],
    count: usize,
}

impl Model for Tests {
    ghost use Rattle.std.specs.Prelude.{◌≡◌, ◌≤◌, List, take, length};
    ghost use Rattle.policy.specs.declared.line.Test.{Test};

    ghost Value = { List Test };

    ghost view = { λ t. take t.count t.items };

    ghost invariant = { λ t. (length t.items ≡ 8) × (t.count ≤ 8) };
}

impl Tests {
    /// No tests.
    pub fn new() -> Tests
        ensures { result ≡ [] }
    {
        Tests {
            items: [Test::Member(Action(0)); HEAD_LIMIT],
            count: 0,
        }
    }

    /// How many there are.
    pub fn len(&self) -> usize
        ensures count { result ≡ length self.now }
        ensures few { result ≤ 8 }
    {
        self.count
    }

    /// One more, behind the others, for which there is room.
    pub fn push(&mut self, test: Test)
        requires { length self.old < 8 }
        ensures { self.new ≡ self.old ++ test ∷ [] }
    {
        self.items[self.count] = test;
        self.count += 1;
    }

    /// The tests, in order.
    // The limit, which the count is within, is named so that the compiler unrolls loops over the slice.
    pub fn as_slice(&self) -> &[Test]
        ensures items { result.now ≡ self.now }
        ensures few { length result.now ≤ 8 }
    {
        &self.items[..self.count.min(HEAD_LIMIT)]
    }

    /// Whether some event or action stands twice.
    #[tactic(auto, unfolding(policy::specs::Steps::Seen::seen_in))]
    pub fn has_repeats(&self) -> bool
        ensures { result ≡ seen_in 0 (map test_number self.now) }
    {
        let mut seen = 0;
        for test in self.as_slice() {
            let n = test.number();
            if member(seen, n) {
                return true;
            }
            seen = with_member(seen, n);
        }
        false
    }
}
