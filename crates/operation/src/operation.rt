//! What the fields of a word stand for, both ways: operations, relations, constants, and the words of the parts of a line.
ghost use Rattle.std.specs.Prelude.{ℕ, ◌≡◌, ◌<◌, ◌/◌, ◌%◌, ◌^◌, nat_eq};
ghost use Rattle.policy.specs.Epoch.{reading_value};
ghost use Rattle.policy.specs.Comparison.{relation_holds, comparison_holds};
ghost use Rattle.policy.specs.Epoch.{viewed};
ghost use Rattle.operation.specs.Operation.{opcode, relation_code, relation_from};
ghost use Rattle.operation.specs.Fields.{pack, operation_of, first_of, relation_code_of};
ghost use Rattle.operation.specs.Parts.{test_word, comparison_word, ending_word, constant_comparison, reading_comparison};

use crate::fields::{first, opcode, relation_bits, relation_code_of, second};
use policy::{
    Comparison, Effect, Ending, Operand, Part, READING_LIMIT, Reading, ReadingView, Relation, Test,
    constant_from,
};

/// The operations, in the order of their numbers, and one for all numbers that are none. It comes last: with it
/// first, a decision took up to 7% more instructions.
#[derive(Clone, Copy)]
pub enum Operation {
    Present,
    Absent,
    AgainstConstant,
    AgainstReading,
    Proposes,
    Member,
    Never,
    Triggers,
    Unknown,
}

impl Operation {
    /// The operation of a word.
    #[tactic(auto, using(crate::proofs::OperationLaws::operation_other), unfolding(crate::specs::Operation::operation_from))]
    pub fn of(word: u32) -> Operation
        ensures { result ≡ operation_of word }
    {
        match opcode(word) {
            1 => Operation::Present,
            2 => Operation::Absent,
            3 => Operation::AgainstConstant,
            4 => Operation::AgainstReading,
            5 => Operation::Proposes,
            6 => Operation::Member,
            7 => Operation::Never,
            8 => Operation::Triggers,
            _ => Operation::Unknown,
        }
    }

    pub fn opcode(self) -> u32
        ensures { result ≡ opcode self }
    {
        match self {
            Operation::Unknown => 0,
            Operation::Present => 1,
            Operation::Absent => 2,
            Operation::AgainstConstant => 3,
            Operation::AgainstReading => 4,
            Operation::Proposes => 5,
            Operation::Member => 6,
            Operation::Never => 7,
            Operation::Triggers => 8,
        }
    }
}

// 6 and 7 are read as >=.
#[tactic(auto, using(crate::proofs::OperationLaws::relation_high), unfolding(crate::specs::Operation::relation_from))]
fn relation_from(code: u32) -> Relation
    ensures { result ≡ relation_from code }
{
    match code {
        0 => Relation::Equal,
        1 => Relation::NotEqual,
        2 => Relation::Less,
        3 => Relation::LessOrEqual,
        4 => Relation::Greater,
        _ => Relation::GreaterOrEqual,
    }
}

fn relation_code(relation: Relation) -> u32
    ensures { result ≡ relation_code relation }
{
    match relation {
        Relation::Equal => 0,
        Relation::NotEqual => 1,
        Relation::Less => 2,
        Relation::LessOrEqual => 3,
        Relation::Greater => 4,
        Relation::GreaterOrEqual => 5,
    }
}

#[tactic(auto, unfolding(crate::specs::Fields::pack))]
fn pack_word(operation: Operation, first: u8, second: u8, relation: u32, skip: u8) -> u32
    requires { relation < 8 }
    ensures { result ≡ pack operation first second relation skip }
{
    operation.opcode() * 0x1000_0000
        + (first as u32) * 0x0040_0000
        + (second as u32) * 0x0001_0000
        + relation * 0x2000
        + (skip as u32)
}

/// The word of a head.
#[tactic(auto, unfolding(crate::specs::Parts::test_word, crate::specs::Parts::test_operation, policy::specs::Limits::test_number))]
pub fn test_word(test: Test, skip: u8) -> u32
    ensures { result ≡ test_word test skip }
{
    match test {
        Test::Occurs(literal) => {
            if literal.negated {
                pack_word(Operation::Absent, literal.event.0, 0, 0, skip)
            } else {
                pack_word(Operation::Present, literal.event.0, 0, 0, skip)
            }
        }
        Test::Member(action) => pack_word(Operation::Member, action.0, 0, 0, skip),
    }
}

/// The first word of a comparison; a constant stands in a second one.
#[tactic(auto, unfolding(crate::specs::Parts::comparison_word, crate::specs::Parts::operand_word))]
pub fn comparison_word(comparison: Comparison, skip: u8) -> u32
    ensures { result ≡ comparison_word comparison skip }
{
    let operand = comparison.operand;
    let reading = comparison.reading;
    let relation = comparison.relation;
    let code = relation_code(relation);
    match operand {
        Operand::Constant(_) => pack_word(Operation::AgainstConstant, reading.0, 0, code, skip),
        Operand::Reading(other) => {
            pack_word(Operation::AgainstReading, reading.0, other.0, code, skip)
        }
    }
}

#[tactic(auto, unfolding(crate::specs::Parts::ending_word, crate::specs::Parts::effect_operation, policy::specs::Effect::effect_number))]
pub fn ending_word(ending: Ending) -> u32
    ensures { result ≡ ending_word ending }
{
    match ending {
        Ending::Yields(Effect::Causes(action)) => {
            pack_word(Operation::Proposes, action.0, 0, 0, 0)
        }
        Ending::Yields(Effect::Triggers(event)) => {
            pack_word(Operation::Triggers, event.0, 0, 0, 0)
        }
        Ending::Never => pack_word(Operation::Never, 0, 0, 0, 0),
    }
}

/// A comparison with a constant, from its word and the constant word behind it.
#[tactic(auto, unfolding(crate::specs::Parts::constant_comparison))]
pub fn constant_comparison(word: u32, constant: u32) -> Comparison
    ensures { result ≡ constant_comparison word constant }
{
    Comparison {
        reading: Reading(first(word) as u8),
        relation: relation_from(relation_code_of(word)),
        operand: Operand::Constant(constant_from(constant)),
    }
}

/// A comparison with a reading.
#[tactic(auto, unfolding(crate::specs::Parts::reading_comparison))]
pub fn reading_comparison(word: u32) -> Comparison
    ensures { result ≡ reading_comparison word }
{
    Comparison {
        reading: Reading(first(word) as u8),
        relation: relation_from(relation_code_of(word)),
        operand: Operand::Reading(Reading(second(word) as u8)),
    }
}

// What holds of a left value that is less than the right one, equal to it or greater: bit n is set where the relation of number n does.
// The eight bits stand four times over, so that a shift by five bits of a word needs no mask. 6 and 7 are read as >=.
const LESS: u32 = 0x0E0E_0E0E;

const EQUAL: u32 = 0xE9E9_E9E9;

const GREATER: u32 = 0xF2F2_F2F2;

// With `right < left` for the second test the back end made a jump of the choice.
fn relations_of(left: i32, right: i32) -> u32
    ensures { (n : ℕ) → n < 32 → nat_eq (result / 2 ^ n % 2) 1 ≡ relation_holds (relation_from (n % 8)) left right }
{
    if left < right {
        LESS
    } else if left == right {
        EQUAL
    } else {
        GREATER
    }
}

// What the relation of a word says of two values. A table tells it, so that the run of words has no jump by the relation.
fn relation_holds(word: u32, left: i32, right: i32) -> bool
    ensures { result ≡ relation_holds (relation_from (relation_code_of word)) left right }
{
    (relations_of(left, right) >> relation_bits(word)) % 2 == 1
}

// The value of the reading with that number; none where the epoch does not give it. The set is cut down to the readings that there are
// first, which a loop does but once; then no index needs a test. The number goes from its word to the index without a byte between.
#[tactic(auto, using(crate::proofs::HoldsLaws::known_below, crate::proofs::HoldsLaws::known_not, crate::proofs::HoldsLaws::value_at, std::proofs::lemmas::Option::slice_get_past), unfolding(policy::specs::Epoch::reading_value))]
fn value(number: usize, readings: ReadingView<'_>) -> Option<i32>
    requires { number < 64 }
    ensures { result ≡ reading_value (viewed readings.entry) (record { 0 = number }) }
{
    if readings
        .given
        .below(Reading(READING_LIMIT as u8))
        .has(Reading(number as u8))
    {
        Some(readings.values[number])
    } else {
        None
    }
}

/// Whether a comparison with a constant, by its word, the number of its reading and the constant word, holds on the readings of an epoch
/// in a line of the part.
#[tactic(auto, unfolding(policy::specs::Comparison::comparison_holds, policy::specs::Comparison::values_relate, policy::specs::Comparison::operand_value, crate::specs::Parts::constant_comparison))]
pub fn constant_holds(
    part: Part,
    word: u32,
    number: u32,
    constant: u32,
    readings: ReadingView<'_>,
) -> bool
    requires { number ≡ first_of word }
    ensures { result ≡ comparison_holds part (viewed readings.entry) (constant_comparison word constant) }
{
    let Some(left) = value(number as usize, readings) else {
        return part.missing_holds();
    };
    relation_holds(word, left, constant_from(constant))
}

/// The same for a comparison with a reading.
#[tactic(auto, unfolding(policy::specs::Comparison::comparison_holds, policy::specs::Comparison::values_relate, policy::specs::Comparison::operand_value, crate::specs::Parts::reading_comparison))]
pub fn reading_holds(part: Part, word: u32, readings: ReadingView<'_>) -> bool
    ensures { result ≡ comparison_holds part (viewed readings.entry) (reading_comparison word) }
{
    let Some(left) = value(first(word) as usize, readings) else {
        return part.missing_holds();
    };
    let Some(right) = value(second(word) as usize, readings) else {
        return part.missing_holds();
    };
    relation_holds(word, left, right)
}
