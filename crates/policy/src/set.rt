//! Sets of events, of actions and of readings, one bit a member.
ghost use Rattle.std.specs.Prelude.{◌≡◌, ℕ};
ghost use Rattle.policy.specs.Set.{has, insert, difference, below, set_of, all_events, keeping, union_events, meets};

use crate::number::{Action, Event, Numbered, Reading};
use std::marker::PhantomData;

/// Whether a number is in a set of bits. Nothing past 63 is a member.
#[tactic(auto, unfolding(crate::specs::Set::has), using(crate::proofs::SetLaws::has_past))]
pub fn member(set: u64, n: u8) -> bool
    ensures { result ≡ has set n }
{
    if n < 64 { (set >> n) % 2 == 1 } else { false }
}

/// The set of bits with a number. Past 63 it stays as it is.
#[tactic(auto, unfolding(crate::specs::Set::insert))]
pub fn with_member(set: u64, n: u8) -> u64
    ensures { result ≡ insert set n }
{
    if n < 64 { set | (1 << n) } else { set }
}

/// The members under `n` of a set of bits.
#[tactic(auto, unfolding(crate::specs::Set::below), using(crate::proofs::SetLaws::below_all))]
pub(crate) fn members_below(set: u64, n: u8) -> u64
    ensures { result ≡ below set n }
{
    if n < 64 { set % (1 << n) } else { set }
}

/// A set of events, of actions or of readings: bit n says whether the one with number n is a member. A number past 63 is no member and
/// is not taken in.
#[derive(Clone, Copy)]
pub struct Set<T> {
    pub bits: u64,
    pub of: PhantomData<T>,
}

/// Some of E0 to E63.
pub type EventSet = Set<Event>;

/// Some of A0 to A63.
pub type ActionSet = Set<Action>;

/// Some of R0 to R15.
pub type ReadingSet = Set<Reading>;

impl EventSet {
    /// No events.
    pub const EMPTY: EventSet = Set {
        bits: 0,
        of: PhantomData,
    };

    /// All events of an epoch, none left out.
    pub fn all(self) -> Events
        ensures { result ≡ all_events self }
    {
        self.keeping(self)
    }

    /// Those of an epoch's events that are kept; the others are dropped.
    pub fn keeping(self, kept: EventSet) -> Events
        ensures { result ≡ keeping self kept }
    {
        Events {
            present: kept,
            occurred: self,
        }
    }
}

impl EventSet {
    /// The events of both sets.
    pub fn union(self, other: EventSet) -> EventSet
        ensures { result ≡ union_events self other }
    {
        Set::of(self.bits | other.bits)
    }

    /// Whether some event is in both sets.
    pub fn meets(self, other: EventSet) -> bool
        ensures { result ≡ meets self other }
    {
        self.bits & other.bits != 0
    }
}

impl ActionSet {
    /// No actions.
    pub const EMPTY: ActionSet = Set {
        bits: 0,
        of: PhantomData,
    };
}

impl ReadingSet {
    /// No readings: all are missing.
    pub const EMPTY: ReadingSet = Set {
        bits: 0,
        of: PhantomData,
    };
}

impl<T> Set<T> {
    /// The set of these bits.
    pub fn of(bits: u64) -> Self
        ensures { result ≡ set_of bits }
    {
        Set {
            bits,
            of: PhantomData,
        }
    }
}

impl<T: Numbered> Set<T> {
    /// Whether it is a member.
    pub fn has(self, x: T) -> bool
        ensures { result ≡ has self.bits (T.number x) }
    {
        member(self.bits, x.number())
    }

    /// The set with it. A number past 63 is not taken in.
    pub fn insert(self, x: T) -> Self
        ensures { result ≡ set_of (insert self.bits (T.number x)) }
    {
        Set::of(with_member(self.bits, x.number()))
    }

    /// The members that are not in `other`.
    pub fn without(self, other: Self) -> Self
        ensures { result ≡ set_of (difference self.bits other.bits) }
    {
        Set::of(self.bits ^ (self.bits & other.bits))
    }

    /// The members with lower numbers.
    pub fn below(self, x: T) -> Self
        ensures { result ≡ set_of (below self.bits (T.number x)) }
    {
        Set::of(members_below(self.bits, x.number()))
    }
}

/// The events that the literals of a rule look at: `E1` holds where E1 is in `present`, `!E1` where it is not in `occurred`. Both are
/// the epoch's events, unless events of the epoch are left out: these occurred and are not present.
#[derive(Clone, Copy)]
pub struct Events {
    pub present: EventSet,
    pub occurred: EventSet,
}
