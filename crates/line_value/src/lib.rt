//! A line of a rule text by value: a rule or a constraint, with its parts in text order.
#![tactic(auto)]

mod comparison_list;
mod test_list;

ghost use Rattle.std.specs.Prelude.{◌≡◌, ◌≤◌, true, length};
ghost use Rattle.std.specs.List.{list_all};
ghost use Rattle.policy.specs.Line.{heads_of, comparisons_of, ending_of, constant_count, ending_part};
ghost use Rattle.line_value.specs.Value.{fits, line_of};

pub use comparison_list::Comparisons;
use policy::{Comparison, Ending, Part, Test};
use std::marker::Model;
pub use test_list::Tests;

/// Whether a head may stand in a line of the kind: a literal in a rule, an action in a constraint.
#[tactic(auto, unfolding(crate::specs::Value::fits))]
pub fn fits(part: Part, head: Test) -> bool
    ensures { result ≡ fits part head }
{
    matches!(
        (part, head),
        (Part::Rules, Test::Occurs(_)) | (Part::Constraints, Test::Member(_))
    )
}

/// A line: its heads, which are of the kind that the ending wants, its comparisons, and what it ends as.
#[derive(Drop)]
pub struct Line {
    heads: Tests,
    comparisons: Comparisons,
    ending: Ending,
}

impl Model for Line {
    ghost use Rattle.std.specs.Prelude.{◌≡◌, true};
    ghost use Rattle.std.specs.List.{list_all};
    ghost use Rattle.policy.specs.Line.{PolicyLine, ending_part};
    ghost use Rattle.line_value.specs.Value.{fits, line_of};

    ghost Value = { PolicyLine };

    ghost view = { λ l. line_of l.heads l.comparisons l.ending };

    ghost invariant = { λ l. list_all (fits (ending_part l.ending)) l.heads ≡ true };
}

impl Line {
    /// The line of its parts.
    pub fn new(heads: Tests, comparisons: Comparisons, ending: Ending) -> Line
        requires { list_all (fits (ending_part ending)) heads ≡ true }
        ensures { result ≡ line_of heads comparisons ending }
    {
        Line {
            heads,
            comparisons,
            ending,
        }
    }

    /// The same of other parts, put in the place of this line.
    pub fn fill(&mut self, heads: Tests, comparisons: Comparisons, ending: Ending)
        requires { list_all (fits (ending_part ending)) heads ≡ true }
        ensures { self.new ≡ line_of heads comparisons ending }
    {
        self.heads = heads;
        self.comparisons = comparisons;
        self.ending = ending;
    }

    /// Its literals or its actions.
    #[tactic(auto, using(crate::proofs::LineLaws::heads_back))]
    pub fn heads(&self) -> &[Test]
        ensures items { result.now ≡ heads_of self.now }
        ensures few { length result.now ≤ 8 }
    {
        self.heads.as_slice()
    }

    /// Its comparisons.
    #[tactic(auto, unfolding(crate::specs::Value::line_of, policy::specs::Line::comparisons_of))]
    pub fn comparisons(&self) -> &[Comparison]
        ensures items { result.now ≡ comparisons_of self.now }
        ensures few { length result.now ≤ 4 }
    {
        self.comparisons.as_slice()
    }

    /// What it ends as.
    #[tactic(auto, unfolding(crate::specs::Value::line_of, policy::specs::Line::ending_of))]
    pub fn ending(&self) -> Ending
        ensures { result ≡ ending_of self.now }
    {
        self.ending
    }

    /// How many of the comparisons have a constant.
    #[tactic(auto, unfolding(policy::specs::Line::constant_count))]
    pub fn constants(&self) -> usize
        ensures value { result ≡ constant_count (comparisons_of self.now) }
        ensures upper_bound { result ≤ 4 }
    {
        let mut constants = 0;
        for comparison in self.comparisons() {
            constants += comparison.operand.constants();
        }
        constants
    }
}
