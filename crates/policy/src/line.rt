//! The two kinds of lines of a rule text, and what a line has beside its comparisons.

ghost use Rattle.std.specs.Prelude.{◌≡◌};
ghost use Rattle.policy.specs.Comparison.{missing_holds};
ghost use Rattle.policy.specs.Limits.{test_number, line_limit};
ghost use Rattle.policy.specs.Line.{ending_part, part_get, part_set};
ghost use Rattle.policy.specs.Limits.{ending_allowed};

use crate::comparison::Literal;
use crate::effect::Effect;
use crate::limit::{CONSTRAINT_LIMIT, RULE_LIMIT, TRIGGER_FORM};
use crate::number::Action;

/// The two kinds of lines: the rules of a policy, and its constraints. Each stands in its own part of an image.
#[derive(Clone, Copy)]
pub enum Part {
    Rules,
    Constraints,
}

impl Part {
    /// Whether a comparison with a missing reading counts as holding.
    #[tactic(auto, unfolding(crate::specs::Comparison::missing_holds))]
    pub fn missing_holds(self) -> bool
        ensures { result ≡ missing_holds self }
    {
        matches!(self, Part::Constraints)
    }

    /// How many lines of the kind a text may have.
    pub fn line_limit(self) -> usize
        ensures { result ≡ line_limit self }
    {
        match self {
            Part::Rules => RULE_LIMIT,
            Part::Constraints => CONSTRAINT_LIMIT,
        }
    }
}

/// What there is of each kind of line.
#[derive(Clone, Copy)]
pub struct PerPart<T> {
    pub rules: T,
    pub constraints: T,
}

impl<T: Copy> PerPart<T> {
    /// What there is of one kind.
    pub fn get(self, part: Part) -> T
        ensures { result ≡ part_get self part }
    {
        match part {
            Part::Rules => self.rules,
            Part::Constraints => self.constraints,
        }
    }

    /// The same with another value for one kind.
    pub fn with(self, part: Part, value: T) -> PerPart<T>
        ensures { result ≡ part_set self part value }
    {
        let mut changed = self;
        match part {
            Part::Rules => changed.rules = value,
            Part::Constraints => changed.constraints = value,
        }
        changed
    }
}

/// What stands before the condition of a line: an event literal of a rule, or an action of a constraint.
#[derive(Clone, Copy)]
pub enum Test {
    Occurs(Literal),
    Member(Action),
}

/// What makes a line a rule or a constraint: its effect, or `never`.
#[derive(Clone, Copy)]
pub enum Ending {
    Yields(Effect),
    Never,
}

impl Ending {
    /// The kind of a line that ends so.
    pub fn part(self) -> Part
        ensures { result ≡ ending_part self }
    {
        match self {
            Ending::Yields(_) => Part::Rules,
            Ending::Never => Part::Constraints,
        }
    }

    /// Whether a text for images of the form may have such a line.
    #[tactic(auto, unfolding(crate::specs::Limits::ending_allowed))]
    pub fn is_allowed(self, form: u8) -> bool
        ensures { result ≡ ending_allowed form self }
    {
        match self {
            Ending::Yields(Effect::Triggers(_)) => TRIGGER_FORM <= form,
            Ending::Yields(Effect::Causes(_)) | Ending::Never => true,
        }
    }
}

impl Test {
    /// The number of the event or the action.
    #[tactic(auto, unfolding(crate::specs::Limits::test_number))]
    pub fn number(self) -> u8
        ensures { result ≡ test_number self }
    {
        match self {
            Test::Occurs(literal) => literal.event.0,
            Test::Member(action) => action.0,
        }
    }
}
