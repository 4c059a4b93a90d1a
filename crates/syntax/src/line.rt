//! The lines of a rule text. A line is scanned once. A reader puts what it reads into a draft, and answers what stands behind it; where
//! the shape is wrong it answers nothing, and the draft is of no use.
ghost use Rattle.std.specs.Prelude.{◌≡◌, false, option_map};
ghost use Rattle.std.specs.Bool.{then_some};
ghost use Rattle.std.specs.Result.{result_map_both};
ghost use Rattle.lexer.specs.Token.{literal_of, action_of};
ghost use Rattle.lexer.specs.Steps.Scan.{token_in, tokens_in};
ghost use Rattle.lexer.specs.Lines.{behind_line, without_end};
ghost use Rattle.lexer.specs.Number.{is_empty};
ghost use Rattle.token.specs.Steps.PartIn.{test_of};
ghost use Rattle.syntax.specs.Answer.{line_read};
ghost use Rattle.syntax.specs.Grammar.{joined, comparisons_from, condition_from, after, constraint_after, line_from};
ghost use Rattle.syntax.specs.Judge.{line_for};
ghost use Rattle.syntax.specs.Steps.Outcome.{heads_read, heads_outcome, condition_outcome, effect_outcome, rule_for, line_outcome};

use crate::draft::Draft;
use crate::effect::effect;
use lexer::{at_token_end, keyword, skip_line, skip_spaces};
use line_value::Line;
use policy::{Effect, Ending, Fault};
use token::{comparison, head};

// The literals of a rule or the actions of a constraint, joined by `&`.
#[tactic(auto, using(crate::proofs::HeadLaws::heads_failed, crate::proofs::HeadLaws::heads_again, crate::proofs::HeadLaws::heads_less, crate::proofs::HeadLaws::heads_done), unfolding(lexer::specs::Byte::bytes, crate::specs::Steps::Outcome::heads_read))]
fn read_heads<'a>(draft: &mut Draft, text: &'a [u8], never: bool) -> Option<&'a [u8]>
    ensures { heads_read (option_map (λ rest. (draft.new, rest.now)) result)
        ≡ heads_outcome draft.old (behind_line text.now) (joined (test_of never) (tokens_in text.now)) }
{
    let mut rest = text;
    loop {
        let (part, behind) = head(skip_spaces(rest), never)?;
        draft.push_head(part);
        let next = skip_spaces(behind);
        let Some(others) = keyword(next, b"&") else {
            return Some(next);
        };
        rest = others;
    }
}

// The comparisons of a line, joined by `,`, to the end of the line.
#[tactic(auto, using(crate::proofs::ConditionLaws::comparisons_failed, crate::proofs::ConditionLaws::comparisons_done, crate::proofs::ConditionLaws::comparisons_broken, crate::proofs::ConditionLaws::comparisons_again, crate::proofs::ConditionLaws::comparisons_less), unfolding(lexer::specs::Byte::bytes))]
fn read_comparisons<'a>(draft: &mut Draft, text: &'a [u8]) -> Option<&'a [u8]>
    ensures { option_map (λ rest. (draft.new, rest.now)) result
        ≡ condition_outcome draft.old (behind_line text.now) (comparisons_from (tokens_in text.now)) }
{
    let mut rest = text;
    loop {
        let (part, behind) = comparison(skip_spaces(rest))?;
        draft.push_comparison(part);
        let next = skip_spaces(behind);
        if at_token_end(next) {
            return Some(next);
        }
        rest = keyword(next, b",")?;
    }
}

// The condition of a line: `if` and comparisons, or nothing, to the end of the line.
#[tactic(auto, using(crate::proofs::ConditionLaws::condition_none, crate::proofs::ConditionLaws::condition_bad, crate::proofs::ConditionLaws::condition_some), unfolding(lexer::specs::Byte::bytes))]
fn read_condition<'a>(draft: &mut Draft, text: &'a [u8]) -> Option<&'a [u8]>
    ensures { option_map (λ rest. (draft.new, rest.now)) result
        ≡ condition_outcome draft.old (behind_line text.now) (condition_from (tokens_in text.now)) }
{
    let first = skip_spaces(text);
    if at_token_end(first) {
        return Some(first);
    }
    read_comparisons(draft, keyword(first, b"if")?)
}

// The ending of a rule with an effect; none where there is no effect.
fn ending(effect: Option<Effect>) -> Option<Ending>
    ensures { result ≡ option_map Ending.Yields effect }
{
    effect.map(Ending::Yields)
}

// The effect and the condition of a rule whose literals were read.
#[tactic(auto, using(crate::proofs::EffectLaws::effect_failed, crate::proofs::EffectLaws::effect_read))]
fn read_effect<'a>(draft: &mut Draft, form: u8, text: &'a [u8]) -> Option<&'a [u8]>
    ensures { option_map (λ rest. (draft.new, rest.now)) result
        ≡ effect_outcome form draft.old (behind_line text.now) (tokens_in text.now) }
{
    let (part, behind) = effect(skip_spaces(text), form)?;
    draft.end_as(ending(part));
    read_condition(draft, behind)
}

#[tactic(auto, using(crate::proofs::ShapeLaws::rule_yes, crate::proofs::ShapeLaws::rule_no))]
fn read_rule<'a>(draft: &mut Draft, form: u8, text: &'a [u8]) -> Option<&'a [u8]>
    ensures { option_map (λ rest. (draft.new, rest.now)) result
        ≡ line_outcome draft.old (behind_line text.now) (after (rule_for form) (joined literal_of (tokens_in text.now))) }
{
    let behind = read_heads(draft, text, false)?;
    read_effect(draft, form, behind)
}

#[tactic(auto, using(crate::proofs::ShapeLaws::constraint_yes, crate::proofs::ShapeLaws::constraint_no))]
fn read_constraint<'a>(draft: &mut Draft, text: &'a [u8]) -> Option<&'a [u8]>
    ensures { option_map (λ rest. (draft.new, rest.now)) result
        ≡ line_outcome draft.old (behind_line text.now) (after constraint_after (joined action_of (tokens_in text.now))) }
{
    let behind = read_heads(draft, text, true)?;
    draft.end_as(Some(Ending::Never));
    read_condition(draft, behind)
}

// The line whose first token stands in front.
#[tactic(auto, using(crate::proofs::EffectLaws::line_never, crate::proofs::EffectLaws::line_rule), unfolding(lexer::specs::Byte::bytes))]
fn read_parts<'a>(draft: &mut Draft, form: u8, text: &'a [u8]) -> Option<&'a [u8]>
    requires { is_empty (token_in text.now) ≡ false }
    ensures { option_map (λ rest. (draft.new, rest.now)) result
        ≡ line_outcome draft.old (behind_line text.now) (line_for form (line_from (tokens_in text.now))) }
{
    match keyword(text, b"never") {
        Some(behind) => read_constraint(draft, behind),
        None => read_rule(draft, form, text),
    }
}

// The text behind its line end, if one stands in front.
fn without_end(text: &[u8]) -> &[u8]
    ensures { result.now ≡ without_end text.now }
{
    match text {
        [] => text,
        [_, rest @ ..] => rest,
    }
}

/// The first line of a text for images of a form, put in the place lent for it: whether it is a line, or skipped, and what stands behind the line and its end.
#[tactic(auto, using(crate::proofs::JudgeLaws::line_blank, crate::proofs::JudgeLaws::line_comment, crate::proofs::JudgeLaws::line_misshapen, crate::proofs::JudgeLaws::line_fitting, crate::proofs::JudgeLaws::line_faulty, crate::proofs::JudgeLaws::line_good, crate::proofs::JudgeLaws::token_inside))]
pub(crate) fn read_line<'a>(
    form: u8,
    text: &'a [u8],
    line: &mut Line,
) -> Result<(bool, &'a [u8]), Fault>
    ensures { result_map_both (λ r. (then_some r.0 line.new, r.1.now)) (λ fault. fault) result ≡ line_read form text.now }
{
    let first = skip_spaces(text);
    if at_token_end(first) {
        return Ok((false, without_end(first)));
    }
    if first[0] == b'#' {
        return Ok((false, without_end(skip_line(first))));
    }
    let mut draft = Draft::new();
    let behind = read_parts(&mut draft, form, first).ok_or(Fault::Syntax)?;
    draft.judged()?;
    line.fill(draft.heads, draft.comparisons, draft.ending);
    Ok((true, without_end(behind)))
}
