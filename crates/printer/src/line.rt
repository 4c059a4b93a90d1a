//! The text of a line.
ghost use Rattle.std.specs.Prelude.{◌≡◌, []};
ghost use Rattle.lexer.specs.Byte.{bytes};
ghost use Rattle.output.specs.Sink.{fed};
ghost use Rattle.printer.specs.Steps.Value.{comparison_text, linked, test_token, value_text};

use crate::part::{put_comparison, put_effect, put_test};
use line_value::Line;
use output::Sink;
use policy::{Comparison, Ending, Test};

/// Literals or actions, with `&` between each two.
#[tactic(auto, using(output::proofs::SinkLaws::put_laws), unfolding(crate::specs::Steps::Value::linked, lexer::specs::Byte::bytes))]
fn put_heads<S: Sink>(sink: &mut S, heads: &[Test])
    ensures { sink.new ≡ fed S.taken sink.old (linked test_token [] (bytes " & ") heads.now) }
{
    if let [first, others @ ..] = heads {
        put_test(sink, *first);
        for head in others {
            sink.put(b" & ");
            put_test(sink, *head);
        }
    }
}

/// Comparisons behind `if`, with a comma between each two; nothing where there are none.
#[tactic(auto, using(output::proofs::SinkLaws::put_laws), unfolding(crate::specs::Steps::Value::linked, lexer::specs::Byte::bytes))]
fn put_condition<S: Sink>(sink: &mut S, comparisons: &[Comparison])
    ensures { sink.new ≡ fed S.taken sink.old (linked comparison_text (bytes " if ") (bytes " , ") comparisons.now) }
{
    if let [first, others @ ..] = comparisons {
        sink.put(b" if ");
        put_comparison(sink, *first);
        for comparison in others {
            sink.put(b" , ");
            put_comparison(sink, *comparison);
        }
    }
}

/// Puts the text of a line, with its line end.
#[tactic(auto, using(output::proofs::SinkLaws::fed_then), unfolding(crate::specs::Steps::Value::value_text, crate::specs::Steps::Value::ending_text, lexer::specs::Byte::bytes))]
pub fn put_line<S: Sink>(sink: &mut S, line: &Line)
    ensures { sink.new ≡ fed S.taken sink.old (value_text line.now) }
{
    match line.ending() {
        Ending::Yields(effect) => {
            put_heads(sink, line.heads());
            put_effect(sink, effect);
        }
        Ending::Never => {
            sink.put(b"never ");
            put_heads(sink, line.heads());
        }
    }
    put_condition(sink, line.comparisons());
    sink.put(b"\n");
}
