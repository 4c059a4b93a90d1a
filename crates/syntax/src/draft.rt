//! A line as it is read, part by part, before it is judged.
ghost use Rattle.std.specs.Prelude.{◌≡◌};
ghost use Rattle.std.specs.Result.{result_map_both};
ghost use Rattle.line_value.specs.Value.{line_of};
ghost use Rattle.syntax.specs.Steps.Draft.{new_draft, push_head, push_comparison, end_as};
ghost use Rattle.syntax.specs.Steps.Judged.{judged};

use line_value::{Comparisons, Tests};
use policy::{COMPARISON_LIMIT, Comparison, Ending, Fault, HEAD_LIMIT, Test};

/// The parts that were read, whether each number of them is in range, and whether there were more parts than a line may have. A part
/// that is out of range, or for which there is no room, is not held.
#[derive(Drop)]
pub struct Draft {
    pub heads: Tests,
    pub comparisons: Comparisons,
    pub ending: Ending,
    pub in_range: bool,
    pub crowded: bool,
}

impl Draft {
    pub(crate) fn new() -> Draft
        ensures { result ≡ new_draft }
    {
        Draft {
            heads: Tests::new(),
            comparisons: Comparisons::new(),
            ending: Ending::Never,
            in_range: true,
            crowded: false,
        }
    }

    // One literal or action more.
    #[tactic(auto, unfolding(crate::specs::Steps::Draft::push_head))]
    pub(crate) fn push_head(&mut self, part: Option<Test>)
        ensures { self.new ≡ push_head self.old part }
    {
        let Some(test) = part else {
            self.in_range = false;
            return;
        };
        if self.heads.len() < HEAD_LIMIT {
            self.heads.push(test);
        } else {
            self.crowded = true;
        }
    }

    // One comparison more.
    #[tactic(auto, unfolding(crate::specs::Steps::Draft::push_comparison))]
    pub(crate) fn push_comparison(&mut self, part: Option<Comparison>)
        ensures { self.new ≡ push_comparison self.old part }
    {
        let Some(comparison) = part else {
            self.in_range = false;
            return;
        };
        if self.comparisons.len() < COMPARISON_LIMIT {
            self.comparisons.push(comparison);
        } else {
            self.crowded = true;
        }
    }

    #[tactic(auto, unfolding(crate::specs::Steps::Draft::end_as))]
    pub(crate) fn end_as(&mut self, ending: Option<Ending>)
        ensures { self.new ≡ end_as self.old ending }
    {
        match ending {
            Some(ending) => self.ending = ending,
            None => self.in_range = false,
        }
    }

    // The first of the faults of the line, if it has one.
    #[tactic(auto, unfolding(crate::specs::Steps::Judged::judged))]
    pub(crate) fn judged(&self) -> Result<(), Fault>
        ensures { result_map_both (λ _. line_of self.now.heads self.now.comparisons self.now.ending) (λ fault. fault) result ≡ judged self.now }
    {
        if !self.in_range {
            return Err(Fault::OutOfRange);
        }
        if self.crowded {
            return Err(Fault::TooManyParts);
        }
        if self.heads.has_repeats() {
            return Err(Fault::Duplicate);
        }
        Ok(())
    }
}
