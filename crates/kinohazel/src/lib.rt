//! The functions for C: compile a text or two, write the text of an image, check an image, decide an epoch, alone
//! or as the next one. Each answers a struct of
//! numbers. Start with specs/Export.antt; include/kinohazel.h is the C side. A slice is never null, not even an empty one: the functions of
//! the header take null pointers and call these. What a controller has no use for stands in kinohazel_tools.
#![tactic(auto)]

ghost use Rattle.std.specs.Prelude.{◌≡◌, ℕ, List};
ghost use Rattle.policy.specs.Fault.{fault_number, source_number};
ghost use Rattle.codegen.specs.Compile.{compiled, compiled_texts};
ghost use Rattle.decompile.specs.Decompile.{decompiled};
ghost use Rattle.image.specs.Load.{load};
ghost use Rattle.policy.specs.Set.{set_of};
ghost use Rattle.policy.specs.declared.mode.Mode.{Mode};
ghost use Rattle.monitor.specs.Decision.{decision, advanced};
ghost use Rattle.export.specs.Export.{decision_of};
ghost use Rattle.kinohazel.specs.Export.{compilation_of, texts_compilation_of, text_written_of, check_of};

use export::{EpochDecision, State, epoch_decision, fault_number};
use policy::{EventSet, Mode, Source};

/// What came of a text: the fault's number, or 0; its line, counted from 1; how many bytes of an image were written.
#[repr(C)]
#[derive(Clone, Copy)]
pub struct Compilation {
    pub fault: u64,
    pub line: u64,
    pub size: u64,
}

/// What came of two texts: the fault's number, or 0; its text, 1 the maker's, 2 the site's, 0 neither alone, and its line in that text,
/// counted from 1; how many bytes of an image were written.
#[repr(C)]
#[derive(Clone, Copy)]
pub struct TextsCompilation {
    pub fault: u64,
    pub text: u64,
    pub line: u64,
    pub size: u64,
}

/// What an image holds: the fault's number, or 0; the word at fault, counted from 0; how many rules and never lines the image has.
#[repr(C)]
#[derive(Clone, Copy)]
pub struct ImageCheck {
    pub fault: u64,
    pub word: u64,
    pub rules: u64,
    pub constraints: u64,
}

/// What came of writing the text of an image: the fault's number, or 0; the word at fault, counted from 0; how many bytes of text were
/// written.
#[repr(C)]
#[derive(Clone, Copy)]
pub struct TextWritten {
    pub fault: u64,
    pub word: u64,
    pub size: u64,
}

// A form in a byte: one over 255 is unknown, as 0 is.
fn form_byte(form: u64) -> u8
    ensures text { (text buffer : List ℕ) → compiled result text buffer ≡ compiled form text buffer }
    ensures texts { (maker site buffer : List ℕ) → compiled_texts result maker site buffer ≡ compiled_texts form maker site buffer }
{
    if form < 256 { form as u8 } else { 0 }
}

/// Writes the image of a text, in a form, from the start of `out` on. A refusal leaves `out` as it is.
#[tactic(auto, unfolding(crate::specs::Export::compilation_of))]
#[unsafe(no_mangle)]
pub extern "C" fn kinohazel_compile_nonnull(form: u64, text: &[u8], out: &mut [u8]) -> Compilation
    ensures answer { result ≡ compilation_of (compiled form text.now out.old).answer }
    ensures buffer { out.new ≡ (compiled form text.now out.old).buffer }
{
    match codegen::compile(form_byte(form), text, out) {
        Err(refusal) => Compilation {
            fault: fault_number(refusal),
            line: refusal.location as u64,
            size: 0,
        },
        Ok(size) => Compilation {
            fault: 0,
            line: 0,
            size: size as u64,
        },
    }
}

fn source_number(source: Source) -> u64
    ensures { result ≡ source_number source }
{
    source.number() as u64
}

/// The same for the maker's and the site's text as one.
#[tactic(auto, unfolding(crate::specs::Export::texts_compilation_of))]
#[unsafe(no_mangle)]
pub extern "C" fn kinohazel_compile_texts_nonnull(
    form: u64,
    maker: &[u8],
    site: &[u8],
    out: &mut [u8],
) -> TextsCompilation
    ensures answer { result ≡ texts_compilation_of (compiled_texts form maker.now site.now out.old).answer }
    ensures buffer { out.new ≡ (compiled_texts form maker.now site.now out.old).buffer }
{
    match codegen::compile_texts(form_byte(form), maker, site, out) {
        Err(refusal) => {
            let source = refusal.source;
            TextsCompilation {
                fault: fault_number(refusal),
                text: source_number(source),
                line: refusal.location as u64,
                size: 0,
            }
        }
        Ok(size) => TextsCompilation {
            fault: 0,
            text: 0,
            line: 0,
            size: size as u64,
        },
    }
}

/// Checks an image, and counts its lines.
#[tactic(auto, unfolding(crate::specs::Export::check_of))]
#[unsafe(no_mangle)]
pub extern "C" fn kinohazel_check_nonnull(image: &[u8]) -> ImageCheck
    ensures { result ≡ check_of (load image.now) }
{
    match image::load_image(image) {
        Err(refusal) => ImageCheck {
            fault: fault_number(refusal),
            word: refusal.location as u64,
            rules: 0,
            constraints: 0,
        },
        Ok(image) => ImageCheck {
            fault: 0,
            word: 0,
            rules: image.counts.rules as u64,
            constraints: image.counts.constraints as u64,
        },
    }
}

/// Writes the text of an image from the start of `out` on. A refusal leaves `out` as it is; 28,224 bytes are enough for every text.
#[tactic(auto, unfolding(crate::specs::Export::text_written_of))]
#[unsafe(no_mangle)]
pub extern "C" fn kinohazel_text_nonnull(image: &[u8], out: &mut [u8]) -> TextWritten
    ensures answer { result ≡ text_written_of (decompiled image.now out.old).answer }
    ensures buffer { out.new ≡ (decompiled image.now out.old).buffer }
{
    match decompile::decompile(image, out) {
        Err(refusal) => TextWritten {
            fault: fault_number(refusal),
            word: refusal.location as u64,
            size: 0,
        },
        Ok(size) => TextWritten {
            fault: 0,
            word: 0,
            size: size as u64,
        },
    }
}

/// Decides an epoch line alone, without its line end, where these events are pending, event n as bit n, on an image, in the first mode,
/// by action cancellation.
#[unsafe(no_mangle)]
pub extern "C" fn kinohazel_decide_nonnull(image: &[u8], pending: u64, line: &[u8]) -> EpochDecision
    ensures { result ≡ decision_of (decision image.now (set_of pending) line.now) }
{
    epoch_decision(monitor::decide(image, EventSet::of(pending), line, Mode::Actions))
}

/// Decides the next epoch line. Pending behind it are the events that the epoch triggered, or where it was refused those before.
#[tactic(auto, unfolding(monitor::specs::Decision::advanced))]
#[unsafe(no_mangle)]
pub extern "C" fn kinohazel_step_nonnull(
    image: &[u8],
    state: &mut State,
    line: &[u8],
) -> EpochDecision
    ensures answer { result ≡ decision_of (advanced Mode.Actions image.now (set_of state.old.pending) line.now).answer }
    ensures state { state.new.pending ≡ (advanced Mode.Actions image.now (set_of state.old.pending) line.now).pending.bits }
{
    let decision = kinohazel_decide_nonnull(image, state.pending, line);
    *state = state.after(decision);
    decision
}
