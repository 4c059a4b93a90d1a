//! The rule text of a session: its lines are kept, and compiled at its end.
ghost use Rattle.std.specs.Prelude.{◌≡◌, ◌≤◌, [], ◌∷◌, ◌++◌, length, take, IfSome};
ghost use Rattle.output.specs.Sink.{fed};
ghost use Rattle.layout.specs.Layout.{size_limit};
ghost use Rattle.session.specs.Printed.{text_only, printed_for};
ghost use Rattle.session.specs.Steps.Session.{TextEnds};

use codegen::NEWEST_FORM;
use image::IMAGE_SIZE;
use output::Sink;
use stream::keep;

/// Bytes of a text that are held: one over its limit, which tells that it is too long.
pub(crate) const TEXT_HELD: usize = 32769;

/// Keeps a line with its end behind the first `count` bytes, as far as there is room.
pub(crate) fn keep_line(text: &mut [u8], count: usize, line: &[u8]) -> usize
    requires { count ≤ length text.old }
    ensures within { result ≤ length text.new }
    ensures same { length text.new ≡ length text.old }
    ensures kept { take result text.new ≡ take (length text.old) (take count text.old ++ (line.now ++ 10 ∷ [])) }
{
    let end = keep(text, count, line);
    keep(text, end, b"\n")
}

/// The text is complete: puts why it is refused, or answers how many bytes its image has.
pub(crate) fn end_text<S: Sink>(
    text: &[u8],
    image: &mut [u8; IMAGE_SIZE],
    sink: &mut S,
) -> Option<usize>
    requires { length image.old ≡ size_limit }
    ensures same { length image.new ≡ size_limit }
    ensures within { IfSome result (λ size. size ≤ size_limit) }
    ensures puts { sink.new ≡ fed S.taken sink.old (printed_for text.now text_only) }
    ensures short { length (printed_for text.now text_only) ≤ 64 }
    ensures ends { TextEnds text.now image.new result }
{
    match codegen::compile(NEWEST_FORM, text, image) {
        Err(refusal) => {
            report::put_refusal(sink, refusal);
            None
        }
        Ok(size) => Some(size),
    }
}
