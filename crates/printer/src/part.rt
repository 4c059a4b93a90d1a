//! The parts of a line.
ghost use Rattle.std.specs.Prelude.{◌≡◌, ◌∷◌};
ghost use Rattle.output.specs.Number.{decimal};
ghost use Rattle.output.specs.Sink.{fed};
ghost use Rattle.printer.specs.Printed.{literal_token, relation_token, operand_token};
ghost use Rattle.printer.specs.Steps.Value.{test_token, effect_text, comparison_text};

use output::{Sink, put_integer, put_number};
use policy::{Comparison, Effect, Literal, Operand, Relation, Test};

/// A letter and a number, as `A3`.
fn put_name<S: Sink>(sink: &mut S, letter: u8, number: u8)
    ensures { sink.new ≡ fed S.taken sink.old (letter ∷ decimal number) }
{
    sink.put(&[letter]);
    put_number(sink, u64::from(number));
}

#[tactic(auto, unfolding(crate::specs::Printed::event_token, crate::specs::Printed::literal_token, lexer::specs::Byte::bytes))]
fn put_literal<S: Sink>(sink: &mut S, literal: Literal)
    ensures { sink.new ≡ fed S.taken sink.old (literal_token literal) }
{
    if literal.negated {
        sink.put(b"!");
    }
    put_name(sink, b'E', literal.event.0);
}

#[tactic(auto, unfolding(crate::specs::Printed::action_token, crate::specs::Steps::Value::test_token))]
pub(crate) fn put_test<S: Sink>(sink: &mut S, test: Test)
    ensures { sink.new ≡ fed S.taken sink.old (test_token test) }
{
    match test {
        Test::Occurs(literal) => put_literal(sink, literal),
        Test::Member(action) => put_name(sink, b'A', action.0),
    }
}

/// `causes` and an action or `triggers` and an event, behind a space.
#[tactic(auto, unfolding(crate::specs::Printed::action_token, crate::specs::Printed::event_token, crate::specs::Steps::Value::effect_text, lexer::specs::Byte::bytes))]
pub(crate) fn put_effect<S: Sink>(sink: &mut S, effect: Effect)
    ensures { sink.new ≡ fed S.taken sink.old (effect_text effect) }
{
    match effect {
        Effect::Causes(action) => {
            sink.put(b" causes ");
            put_name(sink, b'A', action.0);
        }
        Effect::Triggers(event) => {
            sink.put(b" triggers ");
            put_name(sink, b'E', event.0);
        }
    }
}

#[tactic(auto, unfolding(crate::specs::Printed::relation_token, lexer::specs::Byte::bytes))]
fn put_relation<S: Sink>(sink: &mut S, relation: Relation)
    ensures { sink.new ≡ fed S.taken sink.old (relation_token relation) }
{
    match relation {
        Relation::Equal => sink.put(b"="),
        Relation::NotEqual => sink.put(b"!="),
        Relation::Less => sink.put(b"<"),
        Relation::LessOrEqual => sink.put(b"<="),
        Relation::Greater => sink.put(b">"),
        Relation::GreaterOrEqual => sink.put(b">="),
    }
}

#[tactic(auto, unfolding(crate::specs::Printed::constant_token, crate::specs::Printed::operand_token, crate::specs::Printed::reading_token))]
fn put_operand<S: Sink>(sink: &mut S, operand: Operand)
    ensures { sink.new ≡ fed S.taken sink.old (operand_token operand) }
{
    match operand {
        Operand::Constant(k) => put_integer(sink, k),
        Operand::Reading(reading) => put_name(sink, b'R', reading.0),
    }
}

#[tactic(auto, unfolding(crate::specs::Printed::reading_token, crate::specs::Steps::Value::comparison_text))]
pub(crate) fn put_comparison<S: Sink>(sink: &mut S, comparison: Comparison)
    ensures { sink.new ≡ fed S.taken sink.old (comparison_text comparison) }
{
    put_name(sink, b'R', comparison.reading.0);
    sink.put(b" ");
    put_relation(sink, comparison.relation);
    sink.put(b" ");
    put_operand(sink, comparison.operand);
}
