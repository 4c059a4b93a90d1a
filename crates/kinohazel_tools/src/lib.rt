//! The functions for C that a programming station or a fitter's tool calls and a controller does not: explain an action. They are a
//! library of their own, which can be linked beside that of `kinohazel`: in one library a second caller of the run of an image would keep it
//! from being compiled into the decision, which is called in every scan. Start with specs/Export.antt; include/kinohazel.h is the C side.
#![tactic(auto)]

ghost use Rattle.std.specs.Prelude.{◌≡◌};
ghost use Rattle.policy.specs.Number.{check_action};
ghost use Rattle.policy.specs.Set.{set_of};
ghost use Rattle.explanation.specs.Part.{quote_of};
ghost use Rattle.explanation.specs.Why.{explained};
ghost use Rattle.kinohazel_tools.specs.Export.{quoting, explanation_of};

use explanation::{Outcome, Shown};
use policy::EventSet;

/// The fault's number, or 0; its text, 1 the maker's, 2 the site's, 0 neither alone, and its line, counted from 1; what became of the
/// action: 1 not proposed, 2 accepted, 3 cancelled, 0 on a refusal; and where the part stands that says why: in which text, from which
/// byte on, counted from 0, and how many bytes it has. These three are 0 where nothing is shown.
#[repr(C)]
#[derive(Clone, Copy)]
pub struct ActionExplanation {
    pub fault: u64,
    pub text: u64,
    pub line: u64,
    pub outcome: u64,
    pub part_text: u64,
    pub part_start: u64,
    pub part_length: u64,
}

/// An answer that refuses nothing and shows nothing.
fn no_part(outcome: u64) -> ActionExplanation
    ensures { result ≡ record { fault = 0; text = 0; line = 0; outcome = outcome; part_text = 0; part_start = 0; part_length = 0 } }
{
    ActionExplanation {
        fault: 0,
        text: 0,
        line: 0,
        outcome,
        part_text: 0,
        part_start: 0,
        part_length: 0,
    }
}

/// An answer that shows a part of one of both texts.
fn shows<'m, 's>(outcome: u64, shown: Shown<'m, 's>) -> ActionExplanation
    ensures { result ≡ quoting outcome (quote_of shown.entry) }
{
    let answer = no_part(outcome);
    match shown {
        Shown::Maker(excerpt) => ActionExplanation {
            part_text: 1,
            part_start: excerpt.start as u64,
            part_length: excerpt.bytes.len() as u64,
            ..answer
        },
        Shown::Site(excerpt) => ActionExplanation {
            part_text: 2,
            part_start: excerpt.start as u64,
            part_length: excerpt.bytes.len() as u64,
            ..answer
        },
    }
}

/// A number that no action has is one over the last.
fn action_number(action: u64) -> u32
    ensures { check_action result ≡ check_action action }
{
    if action < 64 { action as u32 } else { 64 }
}

/// What became of the action of a number on an epoch line, without its line end, where these events are pending, event n as bit n, by the
/// maker's and the site's text, and why. What is decided is decided in the first mode, by action cancellation.
#[unsafe(no_mangle)]
pub extern "C" fn kinohazel_explain_nonnull(
    maker: &[u8],
    site: &[u8],
    pending: u64,
    line: &[u8],
    action: u64,
) -> ActionExplanation
    ensures { result ≡ explanation_of (explained maker.now site.now (set_of pending) line.now action) }
{
    let number = action_number(action);
    match explanation::explain(maker, site, EventSet::of(pending), line, number) {
        Err(refusal) => {
            let fault = refusal.fault;
            let source = refusal.source;
            ActionExplanation {
                fault: fault.number() as u64,
                text: source.number() as u64,
                line: refusal.location as u64,
                outcome: 0,
                part_text: 0,
                part_start: 0,
                part_length: 0,
            }
        }
        Ok(Outcome::NotProposed) => no_part(1),
        Ok(Outcome::Accepted(shown)) => shows(2, shown),
        Ok(Outcome::Cancelled(shown)) => shows(3, shown),
    }
}
