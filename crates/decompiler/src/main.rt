//! Reads the words of an image from standard input, one a line as the compiler prints them, and prints the rule text of the image, or
//! why it is refused. What is printed for which input is `dump`'s: this program names the ends, and says which of them failed.
#![tactic(auto)]

use files::has_arguments;
use std::io;
use stream::{Failure, Pair};

fn say(rt: HostRuntime, what: &str, error: &io::Error) {
    files::say(rt, "decompiler", what, error);
}

fn main(rt: HostRuntime) {
    if has_arguments(&rt) {
        let _ = eprintln!(rt; "usage: decompiler, with the words of an image on standard input");
        return;
    }
    let mut ends = Pair {
        reader: rt.stdin(),
        writer: rt.stdout(),
    };
    match dump::restore_input(&mut ends) {
        Ok(()) => {}
        Err(Failure::Read(e)) => say(rt, "standard input", &e),
        Err(Failure::Write(e)) => say(rt, "standard output", &e),
    }
}
