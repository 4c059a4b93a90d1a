//! What became of an action, and the line that says why.
ghost use Rattle.std.specs.Prelude.{◌≡◌, length, option_map};
ghost use Rattle.std.specs.Result.{result_map_both};
ghost use Rattle.explanation.specs.Part.{quote_of, first_shown};
ghost use Rattle.explanation.specs.Why.{said_by, explanation_for, explained};
ghost use Rattle.explanation.specs.Steps.On.{explained_on};
ghost use Rattle.explanation.specs.Steps.Sought.{sought_by};

use crate::find::{Sought, find};
use crate::part::Shown;
use codegen::{NEWEST_FORM, compile_texts};
use epoch_line::read_epoch;
use image::IMAGE_SIZE;
use monitor::{Actions, decide};
use policy::{Action, Epoch, EventSet, Fault, Mode, Refusal};

/// What became of an action, and what is shown for it: of an accepted one the first rule that proposed it, of a cancelled one the first
/// constraint that held on the accepted actions with lower numbers together with it.
#[derive(Clone, Copy)]
pub enum Outcome<'m, 's> {
    NotProposed,
    Accepted(Shown<'m, 's>),
    Cancelled(Shown<'m, 's>),
}

/// The first line of both texts that is sought, the maker's lines before the site's.
#[tactic(auto, unfolding(crate::specs::Part::first_shown))]
fn first_shown<'m, 's>(
    maker: &'m [u8],
    site: &'s [u8],
    sought: Sought,
    epoch: &Epoch,
) -> Option<Shown<'m, 's>>
    ensures { option_map quote_of result ≡ first_shown (sought_by sought epoch.now) maker.now site.now }
{
    match find(maker, sought, epoch) {
        Some(excerpt) => Some(Shown::Maker(excerpt)),
        None => match find(site, sought, epoch) {
            Some(excerpt) => Some(Shown::Site(excerpt)),
            None => None,
        },
    }
}

/// What became of an action that a decision accepted, cancelled, or neither.
#[tactic(auto, using(crate::proofs::WhyLaws::proposing_shown, crate::proofs::WhyLaws::cancelling_shown), unfolding(crate::specs::Why::explanation_for))]
fn outcome_for<'m, 's>(
    maker: &'m [u8],
    site: &'s [u8],
    decided: Actions,
    epoch: &Epoch,
    action: Action,
) -> Outcome<'m, 's>
    ensures { said_by result ≡ explanation_for maker.now site.now decided.accepted decided.cancelled epoch.now action }
{
    let accepted = decided.accepted;
    if accepted.has(action) {
        return match first_shown(maker, site, Sought::Proposing(action), epoch) {
            Some(shown) => Outcome::Accepted(shown),
            None => Outcome::NotProposed,
        };
    }
    if decided.cancelled.has(action) {
        let tried = accepted.below(action).insert(action);
        return match first_shown(maker, site, Sought::Violated(tried), epoch) {
            Some(shown) => Outcome::Cancelled(shown),
            None => Outcome::NotProposed,
        };
    }
    Outcome::NotProposed
}

/// The explanation of an action by the texts, from what is decided on an image. Where the image is that of the texts, it is that of
/// `explain`, which compiles them each time.
#[tactic(auto, unfolding(crate::specs::Steps::On::explained_on, crate::specs::Steps::On::on_decision, crate::specs::Why::on_action))]
pub fn explain_on<'m, 's>(
    image: &[u8],
    maker: &'m [u8],
    site: &'s [u8],
    pending: EventSet,
    line: &[u8],
    number: u32,
) -> Result<Outcome<'m, 's>, Refusal>
    ensures { result_map_both said_by (λ refusal. refusal) result ≡ explained_on maker.now site.now pending line.now number image.now }
{
    let decided = decide(image, pending, line, Mode::Actions)?;
    let mut epoch = read_epoch(line)?;
    epoch.events = epoch.events.union(pending);
    let Some(action) = Action::new(number) else {
        return Err(Fault::EpochRange.at(0));
    };
    Ok(outcome_for(maker, site, decided, &epoch, action))
}

/// The explanation of the action of a number on an epoch line, without its line end, where these events are pending, by the maker's and the
/// site's text. What is decided is decided in the first mode, by action cancellation. What is shown lives as long as the text that it is from, whatever becomes of the
/// line and of the other text.
///
/// Refused is a fault of the texts, 1 to 6, or, on an image, of the image, 7 to 11; then of the epoch line, 1, 12 to
/// 14 and 18; then 13 for a number over 63.
pub fn explain<'m, 's>(
    maker: &'m [u8],
    site: &'s [u8],
    pending: EventSet,
    line: &[u8],
    number: u32,
) -> Result<Outcome<'m, 's>, Refusal>
    ensures { result_map_both said_by (λ refusal. refusal) result ≡ explained maker.now site.now pending line.now number }
{
    let mut image = [0u8; IMAGE_SIZE];
    let size = compile_texts(NEWEST_FORM, maker, site, &mut image)?;
    explain_on(&image[..size], maker, site, pending, line, number)
}
