//! The test of a word, which both runs share: whether it holds, and where the run goes on.
ghost use Rattle.std.specs.Prelude.{ℕ, ◌+◌, ◌≡◌, ◌≤◌};
ghost use Rattle.operation.specs.Fields.{first_of};
ghost use Rattle.operation.specs.Parts.{constant_comparison, reading_comparison};
ghost use Rattle.operation.specs.Said.{says, constants_of};
ghost use Rattle.operation.specs.declared.said.LinePart.{LinePart};
ghost use Rattle.policy.specs.Comparison.{comparison_holds};
ghost use Rattle.policy.specs.Epoch.{viewed};
ghost use Rattle.run.specs.Steps.Test.{tested};

use operation::{Operation, constant_holds, reading_holds};
use policy::{Part, ReadingView};

/// Whether the test of a word holds, and the word behind it and its constant.
#[derive(Clone, Copy)]
pub struct Tested {
    pub holds: bool,
    pub next: usize,
}

// A comparison with a constant, which is the word behind, of the reading with that number.
#[tactic(auto, unfolding(operation::specs::Said::constants_of, operation::specs::Parts::constant_comparison))]
pub(crate) fn against_constant(
    part: Part,
    behind: usize,
    word: u32,
    number: u32,
    constant: u32,
    readings: ReadingView<'_>,
) -> Tested
    requires reading { number ≡ first_of word }
    requires room { behind ≤ 0x4000_0000_0000_0000 }
    ensures { result ≡ tested (comparison_holds part (viewed readings.entry) (constant_comparison word constant)) (LinePart.Comparison (constant_comparison word constant)) behind }
{
    Tested {
        holds: constant_holds(part, word, number, constant, readings),
        next: behind + 1,
    }
}

// A comparison with a reading.
#[tactic(auto, unfolding(operation::specs::Said::constants_of, operation::specs::Parts::reading_comparison))]
pub(crate) fn against_reading(
    part: Part,
    behind: usize,
    word: u32,
    readings: ReadingView<'_>,
) -> Tested
    ensures { result ≡ tested (comparison_holds part (viewed readings.entry) (reading_comparison word)) (LinePart.Comparison (reading_comparison word)) behind }
{
    Tested {
        holds: reading_holds(part, word, readings),
        next: behind,
    }
}

// How many words are fetched for a word that is run: itself, and its constant.
#[tactic(auto, unfolding(operation::specs::Said::says, operation::specs::Said::says_by, operation::specs::Said::constants_of, operation::specs::Parts::constant_comparison, operation::specs::Parts::reading_comparison))]
pub(crate) fn fetches(word: u32) -> usize
    ensures count { (k : ℕ) → result ≡ 1 + constants_of (says word k) }
    ensures few { result ≤ 2 }
{
    match Operation::of(word) {
        Operation::AgainstConstant => 2,
        _ => 1,
    }
}
