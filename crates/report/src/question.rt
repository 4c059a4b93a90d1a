//! The answers to questions about actions, each with its number, from 1.
ghost use Rattle.std.specs.Prelude.{◌≡◌};
ghost use Rattle.output.specs.Sink.{fed};
ghost use Rattle.report.specs.Report.{not_proposed_line, shown_line, not_explained_line};

use crate::line::put_fault;
use output::{Sink, put_number};
use policy::{Fault, Source};

/// Puts that an action was not proposed.
pub fn put_not_proposed<S: Sink>(sink: &mut S, number: u64)
    ensures { sink.new ≡ fed S.taken sink.old (not_proposed_line number) }
{
    put_number(sink, number);
    sink.put(b" not proposed");
    sink.put(b"\n");
}

/// Puts what became of an action, as ` accepted ` with the spaces around it, the number of the text that says why, and the part of it.
#[tactic(auto, unfolding(crate::specs::Report::shown_line, lexer::specs::Byte::bytes))]
pub fn put_shown<S: Sink>(sink: &mut S, number: u64, became: &[u8], source: Source, part: &[u8])
    ensures { sink.new ≡ fed S.taken sink.old (shown_line number became.now source part.now) }
{
    put_number(sink, number);
    sink.put(became);
    put_number(sink, u64::from(source.number()));
    sink.put(b" ");
    sink.put(part);
    sink.put(b"\n");
}

/// Puts that a question is refused, by the number of its fault.
#[tactic(auto, unfolding(crate::specs::Report::not_explained_line))]
pub fn put_not_explained<S: Sink>(sink: &mut S, number: u64, fault: Fault)
    ensures { sink.new ≡ fed S.taken sink.old (not_explained_line number fault) }
{
    put_fault(sink, number, fault);
    sink.put(b"\n");
}
