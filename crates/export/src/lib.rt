//! The answer of a decision for C, and the state that it leaves, which two libraries give: kinohazel and kinohazel_events. Start with specs/Export.antt.
#![tactic(auto)]

ghost use Rattle.std.specs.Prelude.{◌≡◌};
ghost use Rattle.policy.specs.Fault.{fault_number};
ghost use Rattle.export.specs.Export.{decision_of};

use monitor::Actions;
use policy::Refusal;

/// What is remembered from one epoch to the next: the events that are pending, event n as bit n.
#[repr(C)]
#[derive(Clone, Copy)]
pub struct State {
    pub pending: u64,
}

impl State {
    ghost use Rattle.std.specs.Prelude.{◌≡◌, Result};
    ghost use Rattle.policy.specs.Set.{set_of};
    ghost use Rattle.policy.specs.declared.fault.Refusal.{Refusal};
    ghost use Rattle.monitor.specs.Decision.{pending_after};
    ghost use Rattle.monitor.specs.declared.decision.Actions.{Actions};
    ghost use Rattle.export.specs.Export.{decision_of};

    /// The state behind a decision: what it triggered is pending, or where it was refused what was.
    #[tactic(auto, using(crate::proofs::ExportLaws::decided_pending, crate::proofs::ExportLaws::refused_pending))]
    pub fn after(self, decision: EpochDecision) -> State
        ensures { (answer : Result Actions Refusal) → decision ≡ decision_of answer → result.pending ≡ (pending_after (set_of self.pending) answer).bits }
    {
        if decision.fault == 0 {
            State {
                pending: decision.triggered,
            }
        } else {
            self
        }
    }
}

/// What is decided of an epoch. On a refusal the sets are empty and `visited` is 0; otherwise `fault` and `word` are 0.
#[repr(C)]
#[derive(Clone, Copy)]
pub struct EpochDecision {
    /// The fault's number.
    pub fault: u64,
    /// The word of the image at fault, counted from 0; 0 where the fault is at none.
    pub word: u64,
    /// The accepted actions, action n as bit n.
    pub accepted: u64,
    /// The cancelled actions, action n as bit n.
    pub cancelled: u64,
    /// The triggered events, event n as bit n.
    pub triggered: u64,
    /// How many words of the image were fetched to decide the epoch.
    pub visited: u64,
}

/// The number of a refusal's fault.
pub fn fault_number(refusal: Refusal) -> u64
    ensures { result ≡ fault_number refusal.fault }
{
    let fault = refusal.fault;
    fault.number() as u64
}

/// What is decided of an epoch, as numbers, in either mode.
#[tactic(auto, unfolding(crate::specs::Export::decision_of))]
pub fn epoch_decision(answer: Result<Actions, Refusal>) -> EpochDecision
    ensures { result ≡ decision_of answer }
{
    match answer {
        Err(refusal) => EpochDecision {
            fault: fault_number(refusal),
            word: refusal.location as u64,
            accepted: 0,
            cancelled: 0,
            triggered: 0,
            visited: 0,
        },
        Ok(actions) => EpochDecision {
            fault: 0,
            word: 0,
            accepted: actions.accepted.bits,
            cancelled: actions.cancelled.bits,
            triggered: actions.triggered.bits,
            visited: actions.visited as u64,
        },
    }
}
