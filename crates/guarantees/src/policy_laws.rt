//! Laws of what a policy yields, in the terms of Chomicki, Lobo and Naqvi, "Conflict Resolution Using Logic Programming" (TKDE 2003).

ghost use Rattle.std.specs.Prelude.{List, ◌≡◌, true, ◌↔◌, false, map};
ghost use Rattle.pdl.specs.Yield as Yield;
ghost use Rattle.pdl.specs.Best.{LowestDifference, BestIn};
ghost use Rattle.pdl.specs.Pdl.{MaximalActionCancellation, NameActions, Satisfies, Violated, ◌⊆◌, MaximalEventCancellation, Reducible};
ghost use Rattle.policy.specs.Policy.{Rule, Policy};
ghost use Rattle.pdl.specs.Yield.{proposed};
ghost use Rattle.policy.specs.Set.{ActionSet, has_action};
ghost use Rattle.policy.specs.declared.number.Action.{Action};
ghost use Rattle.policy.specs.declared.epoch.Epoch.{Epoch};
ghost use Rattle.policy.specs.declared.epoch.Readings.{Readings};
ghost use Rattle.pdl.specs.Reduction.{issued, proposed_with, unavoidable};
ghost use Rattle.policy.specs.declared.comparison.Comparison.{Comparison};
ghost use Rattle.policy.specs.Comparison.{NamesMissing, comparison_holds};
ghost use Rattle.policy.specs.declared.line.Part.{Part};
ghost use Rattle.guarantees.specs.Examples.{computed, examples};

/// What is accepted is a maximal action cancellation of what is proposed.
pub fn maximal_cancellation()
    ensures { (p : Policy) → NameActions p.constraints → MaximalActionCancellation p.constraints (proposed p.rules) (Yield.accepted p) }
{}

/// Giving back one or more cancelled actions makes a constraint hold.
#[tactic(auto, using(pdl::proofs::Monitor::giving_back_violates))]
pub fn giving_back_violates()
    ensures { (p : Policy) (e : Epoch) (u : ActionSet) → Yield.accepted p e ⊆ u → u ⊆ proposed p.rules e → ¬ (u ≡ Yield.accepted p e) → Violated p.constraints e.readings u }
{}

/// Of any other set of proposed actions on which no constraint holds, the lowest action in which it differs from the accepted set is in the accepted set.
#[tactic(auto, using(pdl::proofs::BestLaws::accepted_best))]
pub fn accepted_best()
    ensures { (p : Policy) (e : Epoch) (u : ActionSet) → u ⊆ proposed p.rules e → Satisfies p.constraints e.readings u → (a : Action) → LowestDifference (Yield.accepted p e) u a → has_action (Yield.accepted p e) a ≡ true }
{}

/// Where each constraint names an action: there is such an action for each other such set, and the accepted set alone has that property.
pub fn accepted_only_best()
    ensures { (p : Policy) (e : Epoch) → NameActions p.constraints → (s : ActionSet) → BestIn p.constraints e.readings (proposed p.rules e) s ↔ (s ≡ Yield.accepted p e) }
{}

/// What is issued by events is a maximal event cancellation of what is proposed.
#[tactic(auto, using(pdl::proofs::Reduction::maximal_event_cancellation))]
pub fn maximal_event_cancellation()
    ensures { (p : Policy) → MaximalEventCancellation p.constraints (proposed_with p.rules) (issued p) }
{}

/// An epoch is unavoidable exactly if no reduction of it is free of conflict.
#[tactic(auto, using(pdl::proofs::Reduction::unavoidable_exactly))]
pub fn unavoidable_exactly()
    ensures { (p : Policy) (e : Epoch) → (unavoidable p e ≡ true) ↔ ¬ Reducible p.constraints (proposed_with p.rules) e }
{}

/// A comparison that names a missing reading does not hold in a rule.
#[tactic(auto, using(policy::proofs::MissingLaws::missing_in_rule))]
pub fn missing_in_rule()
    ensures { (rs : Readings) (c : Comparison) → NamesMissing rs c → comparison_holds Part.Rules rs c ≡ false }
{}

/// A comparison that names a missing reading holds in a constraint.
#[tactic(auto, using(policy::proofs::MissingLaws::missing_in_constraint))]
pub fn missing_in_constraint()
    ensures { (rs : Readings) (c : Comparison) → NamesMissing rs c → comparison_holds Part.Constraints rs c ≡ true }
{}

/// The worked examples: texts, epochs and what the reference machine answers to them.
#[tactic(auto, using(crate::proofs::Examples::examples_hold))]
pub fn examples_hold()
    ensures { map computed examples ≡ examples }
{}
