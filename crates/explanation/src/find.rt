//! The first line of a text that tells why. A line is judged by running its words, as the engine runs those of an image.
ghost use Rattle.std.specs.Prelude.{◌≡◌, ◌+◌, ◌^◌, ◌<◌, length, option_map};
ghost use Rattle.lexer.specs.Lines.{lines_of, first_line};
ghost use Rattle.explanation.specs.Part.{trim_end, stretch_of, shown_at, first_from};
ghost use Rattle.explanation.specs.Steps.Sought.{Writable, sought_by};

use crate::part::Excerpt;
use codegen::NEWEST_FORM;
use layout::put_line;
use lexer::skip_spaces;
use line_value::Line;
use policy::{Action, ActionSet, Ending, Epoch};
use run::{run_constraints, run_rules};
use syntax::Lines;
use word::{part, words};

/// Which lines are sought: rules that propose an action, or constraints that hold on a set.
#[derive(Clone, Copy)]
pub enum Sought {
    Proposing(Action),
    Violated(ActionSet),
}

/// Bytes of the longest line's words.
const LINE_SIZE: usize = 68;

/// Whether a line is sought in an epoch.
#[tactic(auto, using(crate::proofs::TellLaws::words_back), unfolding(crate::specs::Steps::Sought::sought_by, crate::specs::Steps::Sought::tells))]
fn told(line: &Line, sought: Sought, epoch: &Epoch) -> bool
    requires { Writable line.now }
    ensures { result ≡ sought_by sought epoch.now line.now }
{
    let mut bytes = [0u8; LINE_SIZE];
    let count = put_line(&mut bytes, 0, line);
    let words = part(words(&bytes), 0, count);
    match (sought, line.ending()) {
        (Sought::Proposing(action), Ending::Yields(_)) => {
            let run = run_rules(words, epoch.events.all(), &epoch.readings);
            run.effects.actions.has(action)
        }
        (Sought::Violated(set), Ending::Never) => {
            let run = run_constraints(words, set, &epoch.readings);
            run.conflict
        }
        _ => false,
    }
}

/// How many bytes the first line of a text has, without the spaces at its end.
#[tactic(auto, using(crate::proofs::TrimLaws::one_more, crate::proofs::TrimLaws::line_over, crate::proofs::TrimLaws::text_over, crate::proofs::TrimLaws::length_whole))]
fn trimmed_length(text: &[u8]) -> usize
    ensures { result ≡ length (trim_end (first_line text.now)) }
{
    let mut length = 0;
    let mut passed = 0;
    let mut rest = text;
    while let [b, others @ ..] = rest {
        if *b == b'\n' {
            break;
        }
        passed += 1;
        if *b != b' ' {
            length = passed;
        }
        rest = others;
    }
    length
}

/// What is shown of the first line of a text, which starts at a position.
#[tactic(auto, using(crate::proofs::FindLaws::behind_shorter, crate::proofs::FindLaws::shown_is, crate::proofs::TrimLaws::trimmed_length))]
fn excerpt_at<'t>(at: usize, text: &'t [u8]) -> Excerpt<'t>
    requires { at + length text.now < 2 ^ 63 }
    ensures { stretch_of result ≡ shown_at at (first_line text.now) }
{
    let first = skip_spaces(text);
    let count = trimmed_length(first);
    Excerpt {
        start: at + (text.len() - first.len()),
        bytes: &first[..count],
    }
}

/// The first line that is sought. A text that is refused at a line has none from there on.
pub(crate) fn find<'t>(text: &'t [u8], sought: Sought, epoch: &Epoch) -> Option<Excerpt<'t>>
    ensures { option_map stretch_of result ≡ first_from (sought_by sought epoch.now) 0 (lines_of text.now) }
{
    let mut lines = Lines::new(NEWEST_FORM, text);
    while let Ok(Some(here)) = lines.advance() {
        if told(lines.line(), sought, epoch) {
            return Some(excerpt_at(text.len() - here.len(), here));
        }
    }
    None
}
