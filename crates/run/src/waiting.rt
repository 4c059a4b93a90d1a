//! Which lines of the constraint part wait for which action, while a set of actions grows: a trial of one action more has to touch only
//! the lines that wait for it. Of all others it is known how many words a trial fetches.

use crate::constraints::Trial;
use crate::reach::{Reached, Stop, reach};
use crate::test::fetches;
use operation::skip;
use policy::{Action, ActionSet, Readings, with_member};
use word::nth_word;

// The most lines that there may be.
const LINES: usize = 64;

/// Where each line stands on a set of actions.
#[derive(Clone, Copy)]
pub struct Waiting {
    // The word at which each line starts, and behind the last of them the end of the words.
    pub(crate) starts: [u16; LINES + 1],
    // The word behind the last of each line that was fetched.
    pub(crate) behind: [u16; LINES],
    // By action, the lines that wait for it: bit n is line n.
    pub(crate) waits: [u64; 64],
    // How many lines there are.
    pub(crate) count: usize,
    // How many words a trial of the set fetches.
    pub(crate) all: usize,
}

impl Waiting {
    ghost use Rattle.std.specs.Prelude.{ℕ, ◌≡◌, ◌≤◌, ◌<◌, ◌⊎◌, length, true, false, slice_index_or};
    ghost use Rattle.word.specs.Chunk.{words_in};
    ghost use Rattle.operation.specs.Whole.{whole_lines};
    ghost use Rattle.policy.specs.Set.{insert, no_actions, set_of};
    ghost use Rattle.policy.specs.declared.line.Part.{Part};
    ghost use Rattle.run.specs.Run.{run_constraints, trial_fetches};
    ghost use Rattle.run.specs.Steps.Wait.{Crowded, Standing, fetched, no_lines, noted, waits_for};

    /// No lines yet.
    pub fn new() -> Waiting
        ensures { result ≡ no_lines }
    {
        Waiting {
            starts: [0; LINES + 1],
            behind: [0; LINES],
            waits: [0; 64],
            count: 0,
            all: 0,
        }
    }

    /// Puts the lines of constraint words, which are whole lines, where they stand with no action. Whether they do: where one holds already, or
    /// there are more than 64, they do not.
    pub fn stand(&mut self, words: &[[u8; 4]], readings: &Readings) -> bool
        requires new { self.old ≡ no_lines }
        requires whole { whole_lines Part.Constraints (words_in words.now) ≡ true }
        requires few { length words.now < 8192 }
        ensures stand { result ≡ true → Standing readings.now (words_in words.now) no_actions self.new }
        ensures decline { result ≡ false → (run_constraints readings.now no_actions (words_in words.now) ≡ true) ⊎ Crowded readings.now (words_in words.now) }
    {
        let view = readings.view();
        let mut at = 0;
        while at < words.len() {
            let line = self.count;
            if line == LINES {
                return false;
            }
            let first = nth_word(words, at);
            let end = at + fetches(first) + skip(first) as usize;
            let reached = reach(words, at, end, ActionSet::EMPTY, view);
            if let Stop::Holds = reached.stop {
                return false;
            }
            self.note(line, reached);
            self.all += reached.behind - at;
            self.count = line + 1;
            self.starts[self.count] = end as u16;
            at = end;
        }
        true
    }

    // A line was left so.
    #[tactic(auto, unfolding(crate::specs::Steps::Wait::waits_after, crate::specs::Steps::Wait::waits_for))]
    fn note(&mut self, line: usize, reached: Reached)
        requires line { line < 64 }
        requires under { (a : ℕ) → waits_for reached.stop a ≡ true → a < 64 }
        requires few { reached.behind < 65536 }
        ensures { self.new ≡ noted self.old line reached }
    {
        if let Stop::Lacks(action) = reached.stop {
            let action = action.0 as usize;
            self.waits[action] = with_member(self.waits[action], line as u8);
        }
        self.behind[line] = reached.behind as u16;
    }

    // How many words were fetched in the lines before one.
    #[tactic(auto, using(crate::proofs::StandLaws::fetched_next), unfolding(crate::specs::Steps::Wait::fetched))]
    fn fetched(&self, line: usize) -> usize
        requires few { line ≤ 64 }
        requires small { fetched self.now.starts self.now.behind line ≤ 65535 }
        requires forward { (n : ℕ) → n < line → slice_index_or self.now.starts n 0 ≤ slice_index_or self.now.behind n 0 }
        ensures sum { result ≡ fetched self.now.starts self.now.behind line }
    {
        let mut words = 0;
        for n in 0..line {
            words += (self.behind[n] - self.starts[n]) as usize;
        }
        words
    }

    /// The trial of what is kept with one action more.
    pub fn try_action(
        &self,
        words: &[[u8; 4]],
        kept: ActionSet,
        action: Action,
        readings: &Readings,
    ) -> Trial
        requires standing { Standing readings.now (words_in words.now) kept self.now }
        requires action { action.0 < 64 }
        requires few { length words.now < 8192 }
        ensures conflict { result.conflict ≡ run_constraints readings.now (set_of (insert kept.bits action.0)) (words_in words.now) }
        ensures words { result.words ≡ trial_fetches readings.now (set_of (insert kept.bits action.0)) (words_in words.now) }
    {
        let view = readings.view();
        let more = kept.insert(action);
        let mut fetched = self.all;
        // The lines that wait from one on: bit 0 is it.
        let mut left = self.waits[action.0 as usize];
        let mut line = 0;
        while left != 0 {
            let gap = left.trailing_zeros();
            left >>= gap;
            line += gap as usize;
            let from = self.behind[line] as usize;
            let reached = reach(words, from, self.starts[line + 1] as usize, more, view);
            if let Stop::Holds = reached.stop {
                let start = self.starts[line] as usize;
                return Trial {
                    conflict: true,
                    words: fetched + self.fetched(line) + reached.behind - start - self.all,
                };
            }
            fetched += reached.behind - from;
            left /= 2;
            line += 1;
        }
        Trial {
            conflict: false,
            words: fetched,
        }
    }

    /// Keeps an action of which the trial, of so many words, showed that no constraint holds.
    pub fn keep(
        &mut self,
        words: &[[u8; 4]],
        kept: ActionSet,
        action: Action,
        tried: usize,
        readings: &Readings,
    )
        requires standing { Standing readings.now (words_in words.now) kept self.old }
        requires action { action.0 < 64 }
        requires few { length words.now < 8192 }
        requires free { run_constraints readings.now (set_of (insert kept.bits action.0)) (words_in words.now) ≡ false }
        requires tried { tried ≡ trial_fetches readings.now (set_of (insert kept.bits action.0)) (words_in words.now) }
        ensures { Standing readings.now (words_in words.now) (set_of (insert kept.bits action.0)) self.new }
    {
        let view = readings.view();
        let more = kept.insert(action);
        let mut left = self.waits[action.0 as usize];
        self.waits[action.0 as usize] = 0;
        let mut line = 0;
        while left != 0 {
            let gap = left.trailing_zeros();
            left >>= gap;
            line += gap as usize;
            let from = self.behind[line] as usize;
            let reached = reach(words, from, self.starts[line + 1] as usize, more, view);
            self.note(line, reached);
            left /= 2;
            line += 1;
        }
        self.all = tried;
    }
}
