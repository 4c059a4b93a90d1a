//! Ends with a known history: on them what `stream` promises of the order of calls says something of each call. With a machine that
//! answers each byte by itself. Start with specs/Recording.antt.
#![tactic(auto)]

ghost use Rattle.std.specs.Prelude.{◌≡◌, ℕ, List, [], ◌∷◌};
ghost use Rattle.stream.specs.Event.{Event, came};
ghost use Rattle.recording.specs.Recording.{Echoed};

mod echo;
mod tape;

pub use echo::Echo;
pub use tape::{Call, Log, Tape};

/// Calls that read again before what came has gone are no echo, whatever comes behind them: an answer that comes late is refused.
pub fn late_is_refused()
    ensures { (input first second : List ℕ) (calls : List Event) → ¬ (first ≡ []) → ¬ Echoed input (came first ∷ came second ∷ calls) }
{}

#[cfg(test)]
mod tests;
