//! What a rule does: `causes` and an action, or `triggers` and an event.
ghost use Rattle.std.specs.Prelude.{◌≡◌, option_map};
ghost use Rattle.policy.specs.Number.{check_action, check_event};
ghost use Rattle.policy.specs.declared.effect.Effect.{Effect};
ghost use Rattle.syntax.specs.Steps.Effect.{causes_in, triggers_in, effect_in};

use lexer::{action, event, keyword, skip_spaces};
use policy::{Action, Effect, Event, TRIGGER_FORM};

// The effect for an action of a number; none where it is out of range.
fn caused(n: u32) -> Option<Effect>
    ensures { result ≡ option_map Effect.Causes (check_action n) }
{
    Action::new(n).map(Effect::Causes)
}

// The same for an event.
fn triggered(n: u32) -> Option<Effect>
    ensures { result ≡ option_map Effect.Triggers (check_event n) }
{
    Event::new(n).map(Effect::Triggers)
}

// The action in front, as an effect.
#[tactic(auto, using(crate::proofs::EffectLaws::causes_by_name))]
fn causes(text: &[u8]) -> Option<(Option<Effect>, &[u8])>
    ensures { option_map (λ r. (r.0, r.1.now)) result ≡ causes_in text.now }
{
    let (n, rest) = action(text)?;
    Some((caused(n), rest))
}

// The event in front, as an effect.
#[tactic(auto, using(crate::proofs::EffectLaws::triggers_by_name))]
fn triggers(text: &[u8]) -> Option<(Option<Effect>, &[u8])>
    ensures { option_map (λ r. (r.0, r.1.now)) result ≡ triggers_in text.now }
{
    let (n, rest) = event(text)?;
    Some((triggered(n), rest))
}

/// The effect in front, of two tokens, where the form has such rules: those that trigger only from a form on. Where its number is out of
/// range, there is no effect, but what stands behind it.
#[tactic(auto, using(crate::proofs::EffectLaws::effect_by_keyword), unfolding(lexer::specs::Byte::bytes))]
pub(crate) fn effect(text: &[u8], form: u8) -> Option<(Option<Effect>, &[u8])>
    ensures { option_map (λ r. (r.0, r.1.now)) result ≡ effect_in form text.now }
{
    if let Some(behind) = keyword(text, b"causes") {
        return causes(skip_spaces(behind));
    }
    if TRIGGER_FORM <= form {
        let behind = keyword(text, b"triggers")?;
        triggers(skip_spaces(behind))
    } else {
        None
    }
}
