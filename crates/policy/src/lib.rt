//! The vocabulary of interlock policies: what events, actions and readings are, how sets of them are held, when a
//! comparison holds, and the faults for which an input is refused.
#![tactic(auto)]

mod comparison;
mod constant;
mod effect;
mod epoch;
mod fault;
mod limit;
mod line;
mod mode;
mod number;
mod set;

pub use comparison::{Comparison, Literal, Operand, Relation};
pub use constant::{constant_from, constant_word};
pub use effect::{Effect, Effects};
pub use epoch::{Epoch, ReadingView, Readings};
pub use fault::{Fault, Refusal, Source};
pub use limit::{
    COMPARISON_LIMIT, CONSTRAINT_LIMIT, HEAD_LIMIT, READING_LIMIT, RULE_LIMIT, TRIGGER_FORM,
};
pub use line::{Ending, Part, PerPart, Test};
pub use mode::Mode;
pub use number::{Action, Event, Numbered, Reading};
pub use set::{ActionSet, EventSet, Events, ReadingSet, Set, member, with_member};
