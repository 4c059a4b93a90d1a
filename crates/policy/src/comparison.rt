//! The parts of a rule: event literals, and comparisons of readings.

ghost use Rattle.std.specs.Prelude.{◌≡◌};
ghost use Rattle.policy.specs.Comparison.{relation_holds};
ghost use Rattle.policy.specs.Line.{operand_constants};

use crate::number::{Event, Reading};

/// `E1`, or `!E1` where negated.
#[derive(Clone, Copy)]
pub struct Literal {
    pub event: Event,
    pub negated: bool,
}

/// `=`, `!=`, `<`, `<=`, `>` or `>=`.
#[derive(Clone, Copy)]
pub enum Relation {
    Equal,
    NotEqual,
    Less,
    LessOrEqual,
    Greater,
    GreaterOrEqual,
}

/// What a reading is compared with.
#[derive(Clone, Copy)]
pub enum Operand {
    Constant(i32),
    Reading(Reading),
}

/// `R0 > 40`, or `R1 <= R2`.
#[derive(Clone, Copy)]
pub struct Comparison {
    pub reading: Reading,
    pub relation: Relation,
    pub operand: Operand,
}

impl Relation {
    /// Whether `left` stands in the relation to `right`. Numbers have a sign.
    #[tactic(auto, unfolding(crate::specs::Comparison::relation_holds), using(crate::proofs::RelationLaws::equal_bits))]
    pub fn holds(self, left: i32, right: i32) -> bool
        ensures { result ≡ relation_holds self left right }
    {
        match self {
            Relation::Equal => left == right,
            Relation::NotEqual => left != right,
            Relation::Less => left < right,
            Relation::LessOrEqual => left <= right,
            Relation::Greater => left > right,
            Relation::GreaterOrEqual => left >= right,
        }
    }
}

impl Operand {
    /// How many constants it is: 1 or 0.
    pub fn constants(self) -> usize
        ensures { result ≡ operand_constants self }
    {
        match self {
            Operand::Constant(_) => 1,
            Operand::Reading(_) => 0,
        }
    }
}
