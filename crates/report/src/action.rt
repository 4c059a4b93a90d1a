//! The actions of a set, by rising number.
ghost use Rattle.std.specs.Prelude.{◌≡◌, if◌then◌else◌, [], ◌∷◌, ◌++◌};
ghost use Rattle.output.specs.Sink.{fed};
ghost use Rattle.policy.specs.Set.{members_of};
ghost use Rattle.report.specs.Report.{action_name, action_names};

use output::{Sink, put_number};
use policy::{Action, ActionSet};

#[tactic(auto, unfolding(crate::specs::Report::action_name))]
fn put_name<S: Sink>(sink: &mut S, number: u8)
    ensures { sink.new ≡ fed S.taken sink.old (action_name number) }
{
    sink.put(b"A");
    put_number(sink, u64::from(number));
}

/// A comma stands before each but the first.
fn put_member<S: Sink>(sink: &mut S, number: u8, first: bool)
    ensures { sink.new ≡ fed S.taken sink.old ((if first then [] else 44 ∷ []) ++ action_name number) }
{
    if !first {
        sink.put(b",");
    }
    put_name(sink, number);
}

/// Puts the names of the actions with commas between them, or `-` for none.
#[tactic(auto, using(output::proofs::SinkLaws::put_laws, crate::proofs::ActionLaws::member_laws), unfolding(crate::proofs::ActionLaws::remaining, crate::specs::Report::action_names, crate::specs::Report::further_names))]
pub(crate) fn put_actions<S: Sink>(sink: &mut S, set: ActionSet)
    ensures { sink.new ≡ fed S.taken sink.old (action_names (members_of set)) }
{
    let mut first = true;
    for number in 0..64 {
        if set.has(Action(number)) {
            put_member(sink, number, first);
            first = false;
        }
    }
    if first {
        sink.put(b"-");
    }
}
