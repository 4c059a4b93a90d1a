//! The decompiler: from an image to the rule text of its policy, in a lent buffer or a sink. Start with specs/Decompile.antt.
#![tactic(auto)]

ghost use Rattle.std.specs.Prelude.{◌≡◌, ◌≤◌, ◌↔◌, IsTrue, min, length, true, Err, is_ok, OnOk, IfOk, IfErr};
ghost use Rattle.output.specs.Buffer.{appended};
ghost use Rattle.output.specs.Sink.{fed};
ghost use Rattle.printer.specs.Printed.{longest_text, text_of};
ghost use Rattle.image.specs.Held.{policy_in};
ghost use Rattle.image.specs.Load.{load};
ghost use Rattle.decompile.specs.Decompile.{decompiled};
ghost use Rattle.image.specs.Taken.{image_contents};
ghost use Rattle.image.specs.Walk.{lines_ahead};
ghost use Rattle.decompile.specs.Steps.Walk.{text_of_values, text_in};

use image::{Image, Walker, load_image};
use output::{Counter, Page, Sink};
use policy::{Fault, Part, Refusal};
use printer::put_line;

/// Bytes of the longest text: 128 rules of 152 bytes, and 64 constraints of 137.
pub const TEXT_SIZE: usize = 28224;

/// The texts of the lines, one after another.
#[inline(always)]
#[tactic(auto, using(output::proofs::SinkLaws::put_laws), unfolding(crate::specs::Steps::Walk::text_of_values))]
fn put_lines<S: Sink>(sink: &mut S, lines: Walker<'_>)
    ensures { sink.new ≡ fed S.taken sink.old (text_of_values (lines_ahead lines.entry)) }
{
    for line in lines {
        put_line(sink, &line);
    }
}

/// The texts of the rules, and then those of the constraints.
#[tactic(auto, using(output::proofs::SinkLaws::put_laws, crate::proofs::TextLaws::first_lines), unfolding(crate::specs::Steps::Walk::parts_text))]
fn put_text<S: Sink>(sink: &mut S, image: &Image<'_>)
    ensures { sink.new ≡ fed S.taken sink.old (text_in (image_contents image.now)) }
{
    for part in [Part::Rules, Part::Constraints] {
        put_lines(sink, image.lines(part));
    }
}

/// How many bytes the texts have.
#[tactic(auto, using(output::proofs::SinkLaws::counted_all))]
fn text_size(image: &Image<'_>) -> usize
    requires { length (text_in (image_contents image.now)) ≤ longest_text }
    ensures { result ≡ length (text_in (image_contents image.now)) }
{
    let mut counter = Counter { count: 0 };
    put_text(&mut counter, image);
    counter.count
}

/// Whether the texts have room in so many bytes. Where the longest text has, they need not be counted.
fn fits(image: &Image<'_>, room: usize) -> bool
    requires { length (text_in (image_contents image.now)) ≤ longest_text }
    ensures { IsTrue result ↔ (length (text_in (image_contents image.now)) ≤ room) }
{
    TEXT_SIZE <= room || text_size(image) <= room
}

/// Writes the texts from the start of the buffer on. The answer is where they end.
#[tactic(auto, using(output::proofs::SinkLaws::stored_all))]
fn write_text(out: &mut [u8], image: &Image<'_>) -> usize
    ensures end { result ≡ min (length (text_in (image_contents image.now))) (length out.old) }
    ensures buffer { out.new ≡ appended out.old 0 (text_in (image_contents image.now)) }
{
    let mut page = Page { bytes: out, end: 0 };
    put_text(&mut page, image);
    page.end
}

/// Writes the text of an image from the start of the buffer on, and answers how many bytes it has, or why there is none: a fault of the
/// image, 7 to 11 or 16, or 15 where the buffer has too few bytes. A refusal leaves the buffer as it is: where the text might have no room it
/// is counted first.
#[tactic(auto, unfolding(crate::specs::Decompile::decompiled, crate::specs::Decompile::output_of))]
pub fn decompile(image: &[u8], out: &mut [u8]) -> Result<usize, Refusal>
    ensures answer { result ≡ (decompiled image.now out.old).answer }
    ensures buffer { out.new ≡ (decompiled image.now out.old).buffer }
    ensures within { IfOk result (λ size. size ≤ length out.new) }
{
    let image = load_image(image)?;
    if !fits(&image, out.len()) {
        return Err(Fault::BufferTooSmall.at(0));
    }
    Ok(write_text(out, &image))
}

/// Puts the text of an image, or answers why there is none: a fault of the image, 7 to 11 or 16. A refusal puts nothing.
pub fn put_decompiled<S: Sink>(sink: &mut S, image: &[u8]) -> Result<(), Refusal>
    ensures ok { OnOk result ((is_ok (load image.now) ≡ true) × (sink.new ≡ fed S.taken sink.old (text_of (policy_in image.now)))) }
    ensures err { IfErr result (λ refusal. (load image.now ≡ Err refusal) × (sink.new ≡ sink.old)) }
{
    let image = load_image(image)?;
    put_text(sink, &image);
    Ok(())
}
