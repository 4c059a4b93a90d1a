//! Laws of explanations: why an action is issued, or not.

ghost use Rattle.std.specs.Prelude.{List, [], ℕ, ◌≡◌, ◌↔◌, Ok, Err, Some};
ghost use Rattle.policy.specs.declared.fault.Refusal.{Refusal};
ghost use Rattle.policy.specs.Set.{EventSet};
ghost use Rattle.pdl.specs.Yield as Yield;
ghost use Rattle.monitor.specs.Decision.{decision, answer_of};
ghost use Rattle.explanation.specs.Part.{Stretch, Quote, of_maker};
ghost use Rattle.explanation.specs.Why.{Explanation, accepted_by, cancelled_by, quoted, explained};
ghost use Rattle.guarantees.specs.Claims.{TextsCompileTo};
ghost use Rattle.guarantees.specs.Decisions.{yield_of};
ghost use Rattle.guarantees.specs.Explanations.{action, IsExplainable, Unexplained, TellsOutcome, Proposes, Cancels, QuotedStraight, FirstLine};

/// An explanation is refused exactly for a fault of the texts, then of the epoch line, then for an event
/// named in it that some rule triggers, then for a number over 63.
pub fn explained_refused()
    ensures { (maker site : List ℕ) (pending : EventSet) (line : List ℕ) (n : ℕ) (r : Refusal) → (explained maker site pending line n ≡ Err r) ↔ Unexplained maker site pending line n r }
{}

/// An action is explained exactly where the texts, the epoch line and its number pass all checks.
pub fn explained_exactly()
    ensures { (maker site : List ℕ) (pending : EventSet) (line : List ℕ) (n : ℕ) → ((why : Explanation) × (explained maker site pending line n ≡ Ok why)) ↔ IsExplainable maker site pending line n }
{}

/// What is explained is the decision by actions on the image of both texts: it answers the sets that their policy yields.
pub fn asked_decided()
    ensures { (maker site : List ℕ) (pending : EventSet) (line : List ℕ) (n : ℕ) (q : IsExplainable maker site pending line n) (form : ℕ) (image : List ℕ) → TextsCompileTo form maker site image → answer_of (decision image pending line) ≡ yield_of q.policy q.epoch }
{}

/// What is told of an action is whether that decision accepts it, cancels it, or neither.
pub fn outcome_told()
    ensures { (maker site : List ℕ) (pending : EventSet) (line : List ℕ) (n : ℕ) (why : Explanation) → explained maker site pending line n ≡ Ok why → (form : ℕ) (image : List ℕ) → TextsCompileTo form maker site image → TellsOutcome (answer_of (decision image pending line)) (action n) why }
{}

/// For an accepted action the first rule that proposes it is shown.
pub fn accepted_shown()
    ensures { (maker site : List ℕ) (pending : EventSet) (line : List ℕ) (n : ℕ) (q : IsExplainable maker site pending line n) (shown : Quote) → explained maker site pending line n ≡ Ok (accepted_by shown) → FirstLine (Proposes q.epoch (action n)) q.policy maker site shown }
{}

/// For a cancelled action the first constraint is shown that holds on the accepted actions under it together with it.
pub fn cancelled_shown()
    ensures { (maker site : List ℕ) (pending : EventSet) (line : List ℕ) (n : ℕ) (q : IsExplainable maker site pending line n) (shown : Quote) → explained maker site pending line n ≡ Ok (cancelled_by shown) → FirstLine (Cancels q.epoch (Yield.accepted q.policy q.epoch) (action n)) q.policy maker site shown }
{}

/// What is shown stands in the text that it is from, within a line and with no space at either end.
#[tactic(auto, using(crate::proofs::Explanations::shown_straight))]
pub fn shown_straight()
    ensures { (maker site : List ℕ) (pending : EventSet) (line : List ℕ) (n : ℕ) (why : Explanation) (shown : Quote) → explained maker site pending line n ≡ Ok why → quoted why ≡ Some shown → QuotedStraight maker site shown }
{}

/// Where the site's text is empty, what is shown is the maker's.
#[tactic(auto, using(crate::proofs::Explanations::alone_shown))]
pub fn alone_shown()
    ensures { (maker : List ℕ) (pending : EventSet) (line : List ℕ) (n : ℕ) (why : Explanation) (shown : Quote) → explained maker [] pending line n ≡ Ok why → quoted why ≡ Some shown → (x : Stretch) × (shown ≡ of_maker x) }
{}
