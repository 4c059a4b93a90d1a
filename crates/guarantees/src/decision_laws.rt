//! Laws of decisions. A law is a function with no parameters and an empty body, whose contract is the statement.

ghost use Rattle.std.specs.Prelude.{List, Contains, ℕ, ◌≡◌, ◌<◌, length, set, ◌↔◌, true, false, ◌||◌, ◌^◌, ◌*◌, ◌+◌, ◌≤◌, Ok, Err, Some};
ghost use Rattle.guarantees.specs.Claims.{CompilesTo, answers, pending_behind, TextsCompileTo};
ghost use Rattle.guarantees.specs.Machine.{ToldLine, next_epoch, machine, machine_set, machine_of_texts, machine_set_of_texts};
ghost use Rattle.guarantees.specs.Decisions.{CheckFailed, RefusedUnder, RefusedIn, OfDecisionIn, IsTriggered, NamesTriggered, KeptOut, Obeys, IsBest, ObeysEvents};
ghost use Rattle.policy.specs.declared.mode.Mode.{Mode};
ghost use Rattle.policy.specs.declared.number.Action.{Action};
ghost use Rattle.monitor.specs.Decision.{answer_of, decision_in, decision, advanced, visited_in};
ghost use Rattle.exactness.specs.Exact.{changed, exchanged, exchange_fault, exchange_fault};
ghost use Rattle.image.specs.Check.{rule_words, constraint_words};
ghost use Rattle.std.specs.List.{swap};
ghost use Rattle.word.specs.Word.{word_at, word_limit, words_of, Bytes};
ghost use Rattle.policy.specs.declared.fault.Refusal.{Refusal};
ghost use Rattle.policy.specs.Set.{EventSet, has_event, no_actions};
ghost use Rattle.policy.specs.declared.number.Event.{Event};
ghost use Rattle.policy.specs.declared.epoch.Epoch.{Epoch};
ghost use Rattle.policy.specs.Number.{set_limit};
ghost use Rattle.policy.specs.Policy.{Policy};
ghost use Rattle.epoch_line.specs.Epoch.{read_epoch};
ghost use Rattle.rule_text.specs.Text.{policy_of_texts};
ghost use Rattle.pdl.specs.Answer.{Answer};
ghost use Rattle.pdl.specs.Pdl.{Reducible, lone};
ghost use Rattle.pdl.specs.Reduction.{kept_events, proposed_with};
ghost use Rattle.policy.specs.declared.fault.Fault.{Fault};
ghost use Rattle.policy.specs.Fault.{fault_number, refusal};
ghost use Rattle.image.specs.Held.{policy_in};
ghost use Rattle.image.specs.Load.{load, Contents};

/// For every form and text, the bytes that the compiler wrote for it and every list of epoch lines with the mode of each, refused ones included: the list of
/// decisions on those bytes, the first where no event is pending and each other where those are that the one before it left, is that of the
/// reference machine, which sees the text and no image.
#[tactic(auto, using(crate::proofs::Agreement::decisions_agree))]
pub fn decisions_agree()
    ensures { (form : ℕ) (text image : List ℕ) → CompilesTo form text image → (lines : List ToldLine) → Some (answers image lines) ≡ machine form text lines }
{}

/// The same for the maker's and the site's text as one.
#[tactic(auto, using(crate::proofs::Agreement::texts_decisions_agree))]
pub fn texts_decisions_agree()
    ensures { (form : ℕ) (maker site image : List ℕ) → TextsCompileTo form maker site image → (lines : List ToldLine) → Some (answers image lines) ≡ machine_of_texts form maker site lines }
{}

/// Behind every such list, the events that are pending are exactly the set that the machine keeps.
#[tactic(auto, using(crate::proofs::Agreement::pending_agrees))]
pub fn pending_agrees()
    ensures { (form : ℕ) (text image : List ℕ) → CompilesTo form text image → (lines : List ToldLine) → Some (pending_behind image lines) ≡ machine_set form text lines }
{}

/// The same for the maker's and the site's text as one.
#[tactic(auto, using(crate::proofs::Agreement::texts_pending_agrees))]
pub fn texts_pending_agrees()
    ensures { (form : ℕ) (maker site image : List ℕ) → TextsCompileTo form maker site image → (lines : List ToldLine) → Some (pending_behind image lines) ≡ machine_set_of_texts form maker site lines }
{}

/// A refused decision leaves the pending events as they were.
#[tactic(auto, using(crate::proofs::Agreement::refused_leaves_pending))]
pub fn refused_leaves_pending()
    ensures { (mode : Mode) (image : List ℕ) (pending : EventSet) (line : List ℕ) (r : Refusal) → decision_in mode image pending line ≡ Err r → (advanced mode image pending line).pending ≡ pending }
{}

/// Behind an accepted epoch of the image of two texts exactly the events are pending that its rules trigger: those of all its events, or by events
/// those of the kept ones.
pub fn pending_triggered()
    ensures { (form : ℕ) (maker site image : List ℕ) → TextsCompileTo form maker site image → (p : Policy) → policy_of_texts form maker site ≡ Some p → (mode : Mode) (pending : EventSet) (line : List ℕ) (e : Epoch) → next_epoch p pending line ≡ Ok e → (answer_of (decision_in mode image pending line)).is_refused ≡ false → (x : Event) → x.0 < set_limit → (has_event (advanced mode image pending line).pending x ≡ true) ↔ IsTriggered mode p e x }
{}

/// Exactly the events that its line names and those that are pending occur in an epoch.
#[tactic(auto, using(crate::proofs::NextLaws::epoch_events))]
pub fn epoch_events()
    ensures { (p : Policy) (pending : EventSet) (line : List ℕ) (e : Epoch) → next_epoch p pending line ≡ Ok e → (named : Epoch) → read_epoch line ≡ Ok named → (x : Event) → has_event e.events x ≡ has_event named.events x || has_event pending x }
{}

/// A decision is refused under 18 exactly where the image is taken, the line is an epoch line, and it names an event that some rule triggers of the
/// policy that the image holds. A pending event is no fault.
#[tactic(auto, using(crate::proofs::Decisions::reserved_refused))]
pub fn reserved_refused()
    ensures { (mode : Mode) (image : List ℕ) (pending : EventSet) (line : List ℕ) → Bytes image → (decision_in mode image pending line ≡ Err (refusal Fault.ReservedEvent 0)) ↔ NamesTriggered image line }
{}

/// Whichever one word of a compiled image is changed, to whatever other value, the decision on every line is refused by a check of the image.
pub fn change_refused()
    ensures { (form : ℕ) (text image : List ℕ) → CompilesTo form text image → (i v : ℕ) → i < length (words_of image) → v < word_limit → ¬ (v ≡ word_at image i) → (mode : Mode) (pending : EventSet) (line : List ℕ) → CheckFailed (answer_of (decision_in mode (changed image i v) pending line)) }
{}

/// The same for the image of two texts.
pub fn texts_change_refused()
    ensures { (form : ℕ) (maker site image : List ℕ) → TextsCompileTo form maker site image → (i v : ℕ) → i < length (words_of image) → v < word_limit → ¬ (v ≡ word_at image i) → (mode : Mode) (pending : EventSet) (line : List ℕ) → CheckFailed (answer_of (decision_in mode (changed image i v) pending line)) }
{}

/// What is changed there is one word: the bytes are as many, and the other words are those of the image.
pub fn change_only()
    ensures { (form : ℕ) (text image : List ℕ) → CompilesTo form text image → (i v : ℕ) → v < word_limit → (length (changed image i v) ≡ length image) × (words_of (changed image i v) ≡ set (words_of image) i v) }
{}

/// The same of the image of two texts.
pub fn texts_change_only()
    ensures { (form : ℕ) (maker site image : List ℕ) → TextsCompileTo form maker site image → (i v : ℕ) → v < word_limit → (length (changed image i v) ≡ length image) × (words_of (changed image i v) ≡ set (words_of image) i v) }
{}

/// In an image that was compiled to another form than the first, two neighbours that differ, among the words before the check words, are
/// exchanged: the decision on every line is refused under 8, where one of them is word 0, and else under 16.
pub fn swap_refused()
    ensures { (form : ℕ) → ¬ (form ≡ 1) → (text image : List ℕ) → CompilesTo form text image → (i : ℕ) → i + 1 ≤ rule_words (words_of image) + constraint_words (words_of image) → ¬ (word_at image i ≡ word_at image (i + 1)) → (mode : Mode) (pending : EventSet) (line : List ℕ) → RefusedUnder (fault_number (exchange_fault i)) (answer_of (decision_in mode (exchanged image i) pending line)) }
{}

/// The same for the image of two texts.
pub fn texts_swap_refused()
    ensures { (form : ℕ) → ¬ (form ≡ 1) → (maker site image : List ℕ) → TextsCompileTo form maker site image → (i : ℕ) → i + 1 ≤ rule_words (words_of image) + constraint_words (words_of image) → ¬ (word_at image i ≡ word_at image (i + 1)) → (mode : Mode) (pending : EventSet) (line : List ℕ) → RefusedUnder (fault_number (exchange_fault i)) (answer_of (decision_in mode (exchanged image i) pending line)) }
{}

/// What is exchanged there are those two words: the bytes are as many, and their words are those of the image with the two in each other's place.
pub fn swap_only()
    ensures { (form : ℕ) (maker site image : List ℕ) → TextsCompileTo form maker site image → (i : ℕ) → i + 1 < length (words_of image) → (length (exchanged image i) ≡ length image) × (words_of (exchanged image i) ≡ swap (words_of image) i (i + 1)) }
{}

/// A decision is refused exactly for a fault of the image, then of the line, then where the line names an event that some rule triggers, and then, by events,
/// where no reduction of the epoch is free of conflict.
pub fn refused_exactly()
    ensures { (mode : Mode) (image : List ℕ) (pending : EventSet) (line : List ℕ) → Bytes image → (r : Refusal) → (decision_in mode image pending line ≡ Err r) ↔ RefusedIn mode image pending line r }
{}

/// A decision is refused under 7 to 10 at the place 0, under 11 at the place of a word, under 1, 12 to 14 or 18 at the place 0 or, by events, under 17 at the place 0,
/// and it names no text.
#[tactic(auto, using(crate::proofs::Reductions::decision_faults))]
pub fn decision_faults()
    ensures { (mode : Mode) (image : List ℕ) (pending : EventSet) (line : List ℕ) → Bytes image → (r : Refusal) → decision_in mode image pending line ≡ Err r → OfDecisionIn mode (length (words_of image)) r }
{}

/// A refused decision has empty sets.
#[tactic(auto, using(crate::proofs::Decisions::refused_empty))]
pub fn refused_empty()
    ensures { (mode : Mode) (image : List ℕ) (pending : EventSet) (line : List ℕ) → (answer_of (decision_in mode image pending line)).is_refused ≡ true → ((answer_of (decision_in mode image pending line)).accepted ≡ no_actions) × ((answer_of (decision_in mode image pending line)).cancelled ≡ no_actions) }
{}

/// On the image of a text, the decision by actions on an accepted line is a maximal action cancellation of what the text's rules propose, lower numbers kept first.
pub fn decision_obeys()
    ensures { (form : ℕ) (maker site image : List ℕ) → TextsCompileTo form maker site image → (p : Policy) → policy_of_texts form maker site ≡ Some p → (pending : EventSet) (line : List ℕ) (e : Epoch) → next_epoch p pending line ≡ Ok e → Obeys p e (answer_of (decision image pending line)) }
{}

/// What a policy asks of a decision by actions is met by one answer alone.
#[tactic(auto, using(crate::proofs::Determined::answer_determined))]
pub fn answer_determined()
    ensures { (p : Policy) (e : Epoch) (a b : Answer) → Obeys p e a → Obeys p e b → a ≡ b }
{}

/// On the image of two texts, a decision by actions accepts the best choice: take any other set of proposed actions on which no constraint holds; the lowest
/// action in which it differs from what is accepted is accepted.
pub fn decision_best()
    ensures { (form : ℕ) (maker site image : List ℕ) → TextsCompileTo form maker site image → (p : Policy) → policy_of_texts form maker site ≡ Some p → (pending : EventSet) (line : List ℕ) (e : Epoch) → next_epoch p pending line ≡ Ok e → IsBest p e (answer_of (decision image pending line)).accepted }
{}

/// The same on every image that the loader takes, by the policy that it holds.
pub fn image_decision_best()
    ensures { (image : List ℕ) → Bytes image → (contents : Contents) → load image ≡ Ok contents → (pending : EventSet) (line : List ℕ) (e : Epoch) → next_epoch (policy_in image) pending line ≡ Ok e → IsBest (policy_in image) e (answer_of (decision image pending line)).accepted }
{}

/// By events: where some reduction of the epoch is free of conflict, the kept events are a maximal one and what they propose is issued. What is pending are
/// some of E0 to E63.
pub fn events_decision_obeys()
    ensures { (form : ℕ) (maker site image : List ℕ) → TextsCompileTo form maker site image → (p : Policy) → policy_of_texts form maker site ≡ Some p → (pending : EventSet) (line : List ℕ) (e : Epoch) → next_epoch p pending line ≡ Ok e → pending.bits < 2 ^ set_limit → Reducible p.constraints (proposed_with p.rules) e → ObeysEvents p e (kept_events p e) (answer_of (decision_in Mode.Events image pending line)) }
{}

/// What a policy asks of a decision by events is met by one set of kept events and one answer alone.
#[tactic(auto, using(crate::proofs::Determined::events_answer_determined))]
pub fn events_answer_determined()
    ensures { (p : Policy) (e : Epoch) (kept kept' : EventSet) (a b : Answer) → ObeysEvents p e kept a → ObeysEvents p e kept' b → (kept ≡ kept') × (a ≡ b) }
{}

/// By events: the epoch is refused exactly where no reduction of it is free of conflict.
pub fn events_conflict_refused()
    ensures { (form : ℕ) (maker site image : List ℕ) → TextsCompileTo form maker site image → (p : Policy) → policy_of_texts form maker site ≡ Some p → (pending : EventSet) (line : List ℕ) (e : Epoch) → next_epoch p pending line ≡ Ok e → (decision_in Mode.Events image pending line ≡ Err (refusal Fault.Unavoidable 0)) ↔ ¬ Reducible p.constraints (proposed_with p.rules) e }
{}

/// A constraint with one action and no comparison keeps that action out of every decision, in either mode.
pub fn lone_constraint_cancels()
    ensures { (form : ℕ) (maker site image : List ℕ) → TextsCompileTo form maker site image → (p : Policy) → policy_of_texts form maker site ≡ Some p → (x : Action) → Contains p.constraints (lone x) → (mode : Mode) (pending : EventSet) (line : List ℕ) (e : Epoch) → next_epoch p pending line ≡ Ok e → KeptOut p e x (answer_of (decision_in mode image pending line)) }
{}

/// A decision by actions fetches at most P + 64 x N words, P and N the words of the rules and of the constraints.
#[tactic(auto, using(crate::proofs::Words::words_bounded))]
pub fn words_bounded()
    ensures { (image : List ℕ) → Bytes image → (contents : Contents) → load image ≡ Ok contents → (pending : EventSet) (line : List ℕ) → visited_in (decision image pending line) ≤ length contents.parts.rules + 64 * length contents.parts.constraints }
{}

/// A decision by events fetches at most 65 x (P + N) words.
#[tactic(auto, using(crate::proofs::Words::events_words_bounded))]
pub fn events_words_bounded()
    ensures { (image : List ℕ) → Bytes image → (contents : Contents) → load image ≡ Ok contents → (pending : EventSet) (line : List ℕ) → visited_in (decision_in Mode.Events image pending line) ≤ 65 * (length contents.parts.rules + length contents.parts.constraints) }
{}

/// Whatever the bytes and the line, a decision by actions fetches at most 71,808 words.
#[tactic(auto, using(crate::proofs::Words::words_limit))]
pub fn words_limit()
    ensures { (image : List ℕ) (pending : EventSet) (line : List ℕ) → Bytes image → visited_in (decision image pending line) ≤ 71808 }
{}

/// And one by events at most 212,160.
#[tactic(auto, using(crate::proofs::Words::events_words_limit))]
pub fn events_words_limit()
    ensures { (image : List ℕ) (pending : EventSet) (line : List ℕ) → Bytes image → visited_in (decision_in Mode.Events image pending line) ≤ 212160 }
{}

/// A refused decision reports 0 words.
#[tactic(auto, using(crate::proofs::Words::refused_fetches_none))]
pub fn refused_fetches_none()
    ensures { (mode : Mode) (image : List ℕ) (pending : EventSet) (line : List ℕ) → (answer_of (decision_in mode image pending line)).is_refused ≡ true → visited_in (decision_in mode image pending line) ≡ 0 }
{}
