//! The comparisons of a line, at most four.
ghost use Rattle.std.specs.Prelude.{◌≡◌, ◌≤◌, ◌<◌, ◌++◌, ◌∷◌, [], length};

use policy::{COMPARISON_LIMIT, Comparison, Operand, Reading, Relation};
use std::marker::Model;

/// A list of at most four comparisons.
#[derive(Drop)]
pub struct Comparisons {
    items: [Comparison; COMPARISON_LIMIT],
    count: usize,
}

impl Model for Comparisons {
    ghost use Rattle.std.specs.Prelude.{◌≡◌, ◌≤◌, List, take, length};
    ghost use Rattle.policy.specs.declared.comparison.Comparison.{Comparison};

    ghost Value = { List Comparison };

    ghost view = { λ c. take c.count c.items };

    ghost invariant = { λ c. (length c.items ≡ 4) × (c.count ≤ 4) };
}

impl Comparisons {
    /// No comparisons.
    pub fn new() -> Comparisons
        ensures { result ≡ [] }
    {
        let filler = Comparison {
            reading: Reading(0),
            relation: Relation::Equal,
            operand: Operand::Constant(0),
        };
        Comparisons {
            items: [filler; COMPARISON_LIMIT],
            count: 0,
        }
    }

    /// How many there are.
    pub fn len(&self) -> usize
        ensures count { result ≡ length self.now }
        ensures few { result ≤ 4 }
    {
        self.count
    }

    /// One more, behind the others, for which there is room.
    pub fn push(&mut self, comparison: Comparison)
        requires { length self.old < 4 }
        ensures { self.new ≡ self.old ++ comparison ∷ [] }
    {
        self.items[self.count] = comparison;
        self.count += 1;
    }

    /// The comparisons, in order.
    // The limit, which the count is within, is named so that the compiler unrolls loops over the slice.
    pub fn as_slice(&self) -> &[Comparison]
        ensures items { result.now ≡ self.now }
        ensures few { length result.now ≤ 4 }
    {
        &self.items[..self.count.min(COMPARISON_LIMIT)]
    }
}
