//! Reads a rule text, a line `run` or `run events` and epoch lines from standard input, and prints what is decided on each epoch.
//! What is printed for which input, and when, is `session`'s: this program names the ends, and says which of them failed.
#![tactic(auto)]

use files::has_arguments;
use std::io;
use stream::{Failure, Pair};

fn say(rt: HostRuntime, what: &str, error: &io::Error) {
    files::say(rt, "engine", what, error);
}

fn main(rt: HostRuntime) {
    if has_arguments(&rt) {
        let _ = eprintln!(rt;
            "usage: engine, with a rule text, a line run or run events, and epoch lines on standard input"
        );
        return;
    }
    let mut ends = Pair {
        reader: rt.stdin(),
        writer: rt.stdout(),
    };
    match session::answer_epochs(&mut ends) {
        Ok(()) => {}
        Err(Failure::Read(e)) => say(rt, "standard input", &e),
        Err(Failure::Write(e)) => say(rt, "standard output", &e),
    }
}
