//! The names of a question's first word: an action, and behind commas the events that are pending.
ghost use Rattle.std.specs.Prelude.{◌≡◌, option_map};
ghost use Rattle.lexer.specs.Number.{number_of};
ghost use Rattle.lexer.specs.Steps.Scan.{clip};
ghost use Rattle.lexer.specs.Token.{named};
ghost use Rattle.questions.specs.Answered.{first_asked, with_event, behind_comma};
ghost use Rattle.questions.specs.Steps.Held.{asked_with};

use lexer::digits;
use policy::{Event, EventSet};

/// What a first word asks for: an action of a number, where these events are pending.
#[derive(Clone, Copy)]
pub(crate) struct Asked {
    pub(crate) action: u32,
    pub(crate) pending: EventSet,
}

/// What the names of a first word that have ended ask for.
#[derive(Clone, Copy)]
pub(crate) enum Names {
    /// No name has.
    Nothing,
    /// Nothing that can be answered, where one of them is another name.
    Ended(Option<Asked>),
}

/// The number of no action.
const NO_ACTION: u32 = 64;

/// The number that a text is, at most 3,000,000,000.
#[tactic(auto, using(crate::proofs::NameLaws::number_whole))]
fn number(text: &[u8]) -> Option<u32>
    ensures { result ≡ option_map clip (number_of text.now) }
{
    let (value, rest) = digits(text)?;
    if rest.is_empty() { Some(value) } else { None }
}

/// The number of a name that begins with the letter, at most 3,000,000,000.
#[tactic(auto, using(crate::proofs::NameLaws::named_first))]
fn named(letter: u8, name: &[u8]) -> Option<u32>
    ensures { result ≡ option_map clip (named letter name.now) }
{
    let [first, rest @ ..] = name else {
        return None;
    };
    if *first == letter { number(rest) } else { None }
}

/// An action with no event. Numbers over 63 are all the same.
#[tactic(auto, unfolding(crate::specs::Answered::first_asked))]
fn first_asked(action: u32) -> Asked
    ensures { result ≡ first_asked action }
{
    Asked {
        action: action.min(NO_ACTION),
        pending: EventSet::EMPTY,
    }
}

/// With an event more. One over 63 is refused as an action over 63 is.
#[tactic(auto, unfolding(crate::specs::Answered::with_event))]
fn with_event(asked: Asked, number: u32) -> Asked
    ensures { result ≡ with_event asked number }
{
    match Event::new(number) {
        Some(event) => Asked {
            action: asked.action,
            pending: asked.pending.insert(event),
        },
        None => Asked {
            action: NO_ACTION,
            pending: asked.pending,
        },
    }
}

/// With a name behind a comma.
fn behind_comma(asked: Option<Asked>, name: &[u8]) -> Option<Asked>
    ensures { result ≡ behind_comma asked name.now }
{
    let Some(asked) = asked else {
        return None;
    };
    match named(b'E', name) {
        Some(event) => Some(with_event(asked, event)),
        None => None,
    }
}

/// With a name more.
#[tactic(auto, unfolding(crate::specs::Steps::Held::asked_with))]
pub(crate) fn with_name(names: Names, name: &[u8]) -> Option<Asked>
    ensures { result ≡ asked_with names name.now }
{
    match names {
        Names::Nothing => match named(b'A', name) {
            Some(action) => Some(first_asked(action)),
            None => None,
        },
        Names::Ended(asked) => behind_comma(asked, name),
    }
}
