//! Event, action and reading numbers. Each is a type of its own: an event cannot be handed over as an action.

ghost use Rattle.std.specs.Prelude.{◌≡◌, ℕ};
ghost use Rattle.policy.specs.Number.{check_event, check_action, check_reading};

/// What has a number: an event, an action or a reading.
pub trait Numbered: Copy {
    ghost number: { Self → ℕ };

    fn number(self) -> u8
        ensures { result ≡ number self };
}

const EVENTS: u32 = 64;

const ACTIONS: u32 = 64;

const READINGS: u32 = 16;

/// E0 to E63.
#[derive(Clone, Copy)]
pub struct Event(pub u8);

/// A0 to A63.
#[derive(Clone, Copy)]
pub struct Action(pub u8);

/// R0 to R15.
#[derive(Clone, Copy)]
pub struct Reading(pub u8);

impl Numbered for Event {
    ghost number = { λ e. e.0 };

    fn number(self) -> u8 {
        self.0
    }
}

impl Numbered for Action {
    ghost number = { λ a. a.0 };

    fn number(self) -> u8 {
        self.0
    }
}

impl Numbered for Reading {
    ghost number = { λ r. r.0 };

    fn number(self) -> u8 {
        self.0
    }
}

impl Event {
    /// The event with a number; none past the last.
    pub fn new(n: u32) -> Option<Event>
        ensures { result ≡ check_event n }
    {
        if n < EVENTS {
            Some(Event(n as u8))
        } else {
            None
        }
    }
}

impl Action {
    /// The action with a number; none past the last.
    pub fn new(n: u32) -> Option<Action>
        ensures { result ≡ check_action n }
    {
        if n < ACTIONS {
            Some(Action(n as u8))
        } else {
            None
        }
    }
}

impl Reading {
    /// The reading with a number; none past the last.
    pub fn new(n: u32) -> Option<Reading>
        ensures { result ≡ check_reading n }
    {
        if n < READINGS {
            Some(Reading(n as u8))
        } else {
            None
        }
    }
}
