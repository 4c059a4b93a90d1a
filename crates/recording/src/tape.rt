//! An input and a log of calls.
ghost use Rattle.std.specs.Prelude.{◌≡◌, ℕ, ◌<◌, ◌≤◌, ◌↔◌, [], ◌∷◌, ◌++◌, length, take, drop, min, IsTrue};
ghost use Rattle.io.specs.Counts.{IsPrefixLen};
ghost use Rattle.stream.specs.Event.{came};

use stream::keep;

/// Bytes of a call, at most.
const CALL_SIZE: usize = 4;

/// Calls that are logged, at most.
const CALL_LIMIT: usize = 64;

/// A call: a read that gave the first `count` bytes, or a write that took them.
#[derive(Clone, Copy)]
pub struct Call {
    pub read: bool,
    pub bytes: [u8; CALL_SIZE],
    pub count: usize,
}

/// The calls so far.
#[derive(Drop)]
pub struct Log {
    pub calls: [Call; CALL_LIMIT],
    pub count: usize,
}

impl Log {
    ghost use Rattle.recording.specs.Recording.{calls_of, call_event};

    /// No call yet.
    pub fn new() -> Log
        ensures { calls_of result ≡ [] }
    {
        let none = Call {
            read: true,
            bytes: [0; CALL_SIZE],
            count: 0,
        };
        Log {
            calls: [none; CALL_LIMIT],
            count: 0,
        }
    }

    /// Whether there is no room for a call more.
    pub fn is_full(&self) -> bool
        ensures { IsTrue result ↔ (length self.now.calls ≤ self.now.count) }
    {
        CALL_LIMIT <= self.count
    }

    /// Logs a call with the first of these bytes, as many as a call may have, and returns how many.
    pub fn push(&mut self, read: bool, bytes: &[u8]) -> usize
        requires { self.old.count < length self.old.calls }
        ensures count { result ≡ min 4 (length bytes.now) }
        ensures calls { calls_of self.new ≡ calls_of self.old ++ call_event read (take result bytes.now) ∷ [] }
    {
        let mut first = [0; CALL_SIZE];
        let count = keep(&mut first, 0, bytes);
        self.calls[self.count] = Call {
            read,
            bytes: first,
            count,
        };
        self.count += 1;
        count
    }
}

/// What is read from, of which the first `at` bytes came, and what is logged.
#[derive(Drop)]
pub struct Tape {
    pub input: [u8; 16],
    pub at: usize,
    pub log: Log,
    ghost within: { at ≤ length input },
}

impl Tape {
    ghost use Rattle.recording.specs.Recording.{calls_of};

    /// Nothing came yet.
    pub fn new(input: [u8; 16]) -> Tape
        ensures input { result.input ≡ input }
        ensures start { result.at ≡ 0 }
        ensures calls { calls_of result.log ≡ [] }
    {
        Tape {
            input,
            at: 0,
            log: Log::new(),
        }
    }

    /// Gives the next bytes, as many as the buffer and a call have room for, and logs that.
    pub fn read(&mut self, buffer: &mut [u8]) -> usize
        requires { self.old.log.count < length self.old.log.calls }
        ensures bound { IsPrefixLen result buffer.new }
        ensures moved { drop self.old.at self.old.input ≡ take result buffer.new ++ drop self.new.at self.new.input }
        ensures end { result ≡ 0 → 0 < length buffer.new → drop self.new.at self.new.input ≡ [] }
        ensures calls { calls_of self.new.log ≡ calls_of self.old.log ++ came (take result buffer.new) ∷ [] }
    {
        let end = self.input.len().min(self.at + CALL_SIZE);
        let count = keep(buffer, 0, &self.input[self.at..end]);
        self.log.push(true, &buffer[..count]);
        self.at += count;
        count
    }
}
