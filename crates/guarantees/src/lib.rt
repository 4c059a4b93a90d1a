//! The claims about the whole: compiler, image and monitor against the reference machine that sees no image. Start with
//! specs/Machine.antt, then the laws: functions with no parameters and an empty body, each of which states one claim.
//! `compile_and_decide` is no part of a program: it uses the contracts of `compile_texts` and `decide` together, so that what is claimed
//! of both rests on them and not on a reading of them.
#![tactic(auto)]

pub mod decision_laws;
pub mod explanation_laws;
pub mod image_laws;
pub mod load_laws;
pub mod policy_laws;
pub mod program_laws;
pub mod reading_laws;
pub mod writing_laws;

ghost use Rattle.std.specs.Prelude.{◌≡◌, IfOk, IfErr};
ghost use Rattle.codegen.specs.Compile.{in_form};
ghost use Rattle.policy.specs.Set.{no_events};
ghost use Rattle.rule_text.specs.Text.{read_texts};
ghost use Rattle.guarantees.specs.Together.{decided_lines, DecidedBy};

use image::IMAGE_SIZE;
use monitor::{Actions, State, step};
use policy::{Mode, Refusal};

/// An epoch line, without its line end, and the mode in which it is decided.
#[derive(Clone, Copy)]
pub struct Told<'a> {
    pub mode: Mode,
    pub line: &'a [u8],
}

/// Decides the lines on an image, one after another, as many as there is room for. At the start no event is pending.
pub fn decide_lines(image: &[u8], lines: &[Told], decisions: &mut [Result<Actions, Refusal>])
    ensures { decisions.new ≡ decided_lines image.now no_events lines.now decisions.old }
{
    let mut state = State::START;
    for i in 0..lines.len().min(decisions.len()) {
        decisions[i] = step(image, &mut state, lines[i].line, lines[i].mode);
    }
}

/// Compiles two texts to a form and decides the lines on the bytes that were written: as the reference machine does, which sees the texts, the lines
/// and their modes alone. A single text has an empty site's text beside it. Refused texts decide nothing.
pub fn compile_and_decide(
    form: u8,
    maker: &[u8],
    site: &[u8],
    lines: &[Told],
    decisions: &mut [Result<Actions, Refusal>],
) -> Result<(), Refusal>
    ensures ok { IfOk result (λ u. DecidedBy form maker.now site.now lines.now decisions.old decisions.new) }
    ensures err { IfErr result (λ refusal. (in_form form (read_texts form maker.now site.now) ≡ Err refusal) × (decisions.new ≡ decisions.old)) }
{
    let mut image = [0u8; IMAGE_SIZE];
    let size = codegen::compile_texts(form, maker, site, &mut image)?;
    decide_lines(&image[..size], lines, decisions);
    Ok(())
}
