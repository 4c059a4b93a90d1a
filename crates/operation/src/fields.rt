//! The fields of a word.
ghost use Rattle.std.specs.Prelude.{◌≡◌, ◌<◌, ◌%◌};
ghost use Rattle.operation.specs.Operation.{opcode};
ghost use Rattle.operation.specs.Fields.{opcode_of, operation_of, first_of, second_of, relation_code_of, skip_of};

use crate::operation::Operation;

pub fn opcode(word: u32) -> u32
    ensures { result ≡ opcode_of word }
{
    (word >> 28) % 16
}

pub fn first(word: u32) -> u32
    ensures { result ≡ first_of word }
{
    (word >> 22) % 64
}

/// The first number of a word of that operation; 64 or more for any other word. One subtraction tells both: it leaves the number in the
/// highest bits.
#[tactic(auto, using(crate::proofs::OperationLaws::operation_number, crate::proofs::OperationLaws::opcode_below, crate::proofs::OperationLaws::operation_back))]
pub fn first_if(word: u32, operation: Operation) -> u32
    requires { 0 < opcode operation }
    ensures first { operation_of word ≡ operation → result ≡ first_of word }
    ensures only { result < 64 → operation_of word ≡ operation }
{
    word.wrapping_sub(operation.opcode() << 28) >> 22
}

pub fn second(word: u32) -> u32
    ensures { result ≡ second_of word }
{
    (word >> 16) % 64
}

pub(crate) fn relation_code_of(word: u32) -> u32
    ensures { result ≡ relation_code_of word }
{
    (word >> 13) % 8
}

// The number of the relation in the lowest three of five bits, which is how many a shift by them looks at.
pub(crate) fn relation_bits(word: u32) -> u32
    ensures code { result % 8 ≡ relation_code_of word }
    ensures few { result < 32 }
{
    (word >> 13) % 32
}

pub fn skip(word: u32) -> u32
    ensures { result ≡ skip_of word }
{
    word % 32
}
