//! The parts of a line, each one token: constants, relations, operands, literals and actions. A reader answers the part and
//! what stands behind it; where a number of the part is out of range, it answers what stands behind it alone.
#![tactic(auto)]

mod constants;

ghost use Rattle.std.specs.Prelude.{◌≡◌, false, option_map};
ghost use Rattle.policy.specs.Number.{check_event, check_action, check_reading};
ghost use Rattle.token.specs.Steps.PartIn.{symbol_in, relation_in, operand_in, literal_with, occurs_in, head_in, compared, comparison_in};

pub use constants::constant;
use lexer::{action, at_token_end, event, reading, skip_spaces};
use policy::{Action, Comparison, Event, Literal, Operand, Reading, Relation, Test};

// The relation that the bytes in front are, the longer where two are.
fn symbol(text: &[u8]) -> Option<(Relation, &[u8])>
    ensures { option_map (λ r. (r.0, r.1.now)) result ≡ symbol_in text.now }
{
    match text {
        [b'=', rest @ ..] => Some((Relation::Equal, rest)),
        [b'!', b'=', rest @ ..] => Some((Relation::NotEqual, rest)),
        [b'<', b'=', rest @ ..] => Some((Relation::LessOrEqual, rest)),
        [b'<', rest @ ..] => Some((Relation::Less, rest)),
        [b'>', b'=', rest @ ..] => Some((Relation::GreaterOrEqual, rest)),
        [b'>', rest @ ..] => Some((Relation::Greater, rest)),
        _ => None,
    }
}

// The relation that the token in front is.
#[tactic(auto, using(crate::proofs::RelationLaws::relation_by_symbol))]
fn relation(text: &[u8]) -> Option<(Relation, &[u8])>
    ensures { option_map (λ r. (r.0, r.1.now)) result ≡ relation_in text.now }
{
    let (relation, rest) = symbol(text)?;
    if !at_token_end(rest) {
        return None;
    }
    Some((relation, rest))
}

// The reading of a number, as an operand.
fn reading_operand(n: u32) -> Option<Operand>
    ensures { result ≡ option_map Operand.Reading (check_reading n) }
{
    Reading::new(n).map(Operand::Reading)
}

fn constant_operand(constant: Option<i32>) -> Option<Operand>
    ensures { result ≡ option_map Operand.Constant constant }
{
    constant.map(Operand::Constant)
}

// The reading or the constant that the token in front is.
#[tactic(auto, using(crate::proofs::PartLaws::operand_by_form))]
fn operand(text: &[u8]) -> Option<(Option<Operand>, &[u8])>
    ensures { option_map (λ r. (r.0, r.1.now)) result ≡ operand_in text.now }
{
    if let Some((n, rest)) = reading(text) {
        return Some((reading_operand(n), rest));
    }
    let (constant, rest) = constant(text)?;
    Some((constant_operand(constant), rest))
}

// The action of a number, as the head of a constraint.
fn member(n: u32) -> Option<Test>
    ensures { result ≡ option_map Test.Member (check_action n) }
{
    Action::new(n).map(Test::Member)
}

// The literal of an event; none where it is out of range.
#[tactic(auto, unfolding(crate::specs::Steps::PartIn::literal_with))]
fn literal(n: u32, negated: bool) -> Option<Test>
    ensures { result ≡ literal_with negated (check_event n) }
{
    let event = Event::new(n)?;
    Some(Test::Occurs(Literal { event, negated }))
}

// `E1`, as such a literal.
#[tactic(auto, using(crate::proofs::HeadLaws::occurs_by_name))]
fn occurs(text: &[u8], negated: bool) -> Option<(Option<Test>, &[u8])>
    ensures { option_map (λ r. (r.0, r.1.now)) result ≡ occurs_in text.now negated }
{
    let (n, rest) = event(text)?;
    Some((literal(n, negated), rest))
}

// `E1` or `!E1`.
#[tactic(auto, using(crate::proofs::HeadLaws::literal_by_sign))]
fn literal_head(text: &[u8]) -> Option<(Option<Test>, &[u8])>
    ensures { option_map (λ r. (r.0, r.1.now)) result ≡ head_in text.now false }
{
    match text {
        [b'!', name @ ..] => occurs(name, true),
        _ => occurs(text, false),
    }
}

/// The action of a constraint, or the literal of a rule, that the token in front is.
#[tactic(auto, using(crate::proofs::HeadLaws::member_by_name))]
pub fn head(text: &[u8], never: bool) -> Option<(Option<Test>, &[u8])>
    ensures { option_map (λ r. (r.0, r.1.now)) result ≡ head_in text.now never }
{
    if never {
        let (n, rest) = action(text)?;
        Some((member(n), rest))
    } else {
        literal_head(text)
    }
}

// The comparison of a reading with an operand; none where one of them is out of range.
#[tactic(auto, unfolding(crate::specs::Steps::PartIn::compared_with))]
fn compared(n: u32, relation: Relation, operand: Option<Operand>) -> Option<Comparison>
    ensures { result ≡ compared n relation operand }
{
    let reading = Reading::new(n)?;
    let operand = operand?;
    Some(Comparison {
        reading,
        relation,
        operand,
    })
}

/// The comparison in front: three tokens.
#[tactic(auto, using(crate::proofs::PartLaws::comparison_by_parts))]
pub fn comparison(text: &[u8]) -> Option<(Option<Comparison>, &[u8])>
    ensures { option_map (λ r. (r.0, r.1.now)) result ≡ comparison_in text.now }
{
    let (n, behind) = reading(text)?;
    let (relation, behind) = relation(skip_spaces(behind))?;
    let (operand, rest) = operand(skip_spaces(behind))?;
    Some((compared(n, relation, operand), rest))
}
