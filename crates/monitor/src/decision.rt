//! The decision on an epoch. The image is refused or run where it stands: nothing of it is copied.
ghost use Rattle.std.specs.Prelude.{◌≡◌};
ghost use Rattle.policy.specs.Set.{meets};
ghost use Rattle.image.specs.Taken.{image_contents};
ghost use Rattle.monitor.specs.Decision.{reserved_in, decision_in};

use crate::actions::issue;
use crate::events::issue_events;
use epoch_line::read_epoch_into;
use image::{Image, load_image};
use policy::{ActionSet, Epoch, EventSet, Fault, Mode, Refusal, TRIGGER_FORM};
use run::reserved;

/// What was decided: of the proposed actions, those to be executed and all others; which events were triggered, and so occur in the next
/// epoch; and how many words of the image were fetched to decide it.
#[derive(Clone, Copy)]
pub struct Actions {
    pub accepted: ActionSet,
    pub cancelled: ActionSet,
    pub triggered: EventSet,
    pub visited: usize,
}

// Whether some line of an image triggers one of the events. Forms that have no such line are not looked through.
#[tactic(auto, unfolding(crate::specs::Decision::reserved_in))]
fn reserves(image: &Image<'_>, events: EventSet) -> bool
    ensures { result ≡ meets (reserved_in (image_contents image.now)) events }
{
    TRIGGER_FORM <= image.form() && reserved(image.parts.rules).meets(events)
}

/// The decision of an image on an epoch line, without its line end, where these events are pending.
#[tactic(auto, unfolding(crate::specs::Decision::decision_in, crate::specs::Decision::on_image, crate::specs::Decision::decided_by))]
pub fn decide(image: &[u8], pending: EventSet, line: &[u8], mode: Mode) -> Result<Actions, Refusal>
    ensures { result ≡ decision_in mode image.now pending line.now }
{
    let image = load_image(image)?;
    let mut epoch = Epoch::EMPTY;
    if let Err(fault) = read_epoch_into(line, &mut epoch) {
        return Err(fault.at(0));
    }
    if reserves(&image, epoch.events) {
        return Err(Fault::ReservedEvent.at(0));
    }
    epoch.events = epoch.events.union(pending);
    match mode {
        Mode::Actions => Ok(issue(&image, &epoch)),
        Mode::Events => issue_events(&image, &epoch),
    }
}
