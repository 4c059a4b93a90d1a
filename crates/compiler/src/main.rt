//! Reads a rule text from standard input, or the maker's and the site's text from two files, and prints the image, one word a line, or
//! why it is refused. What is printed for which text is `session`'s: this program names the ends, and says which of them failed.
#![tactic(auto)]

use files::Named;
use session::TextsFailure;
use std::io::{Stdin, Stdout};
use std::{env, io};
use stream::{Failure, Pair};

fn say(rt: HostRuntime, what: &str, error: &io::Error) {
    files::say(rt, "compiler", what, error);
}

fn standard(rt: HostRuntime) -> Pair<Stdin, Stdout> {
    Pair {
        reader: rt.stdin(),
        writer: rt.stdout(),
    }
}

/// Compiles a text from standard input.
fn compile_input(rt: HostRuntime) {
    match session::list_input(&mut standard(rt)) {
        Ok(()) => {}
        Err(Failure::Read(e)) => say(rt, "standard input", &e),
        Err(Failure::Write(e)) => say(rt, "standard output", &e),
    }
}

/// Compiles the maker's and the site's text from the files of these names.
fn compile_files(rt: HostRuntime, maker: &str, site: &str) {
    let mut first = Pair {
        reader: Named::new(rt, maker),
        writer: io::sink(),
    };
    let mut second = Pair {
        reader: Named::new(rt, site),
        writer: io::sink(),
    };
    match session::list_texts(&mut first, &mut second, &mut standard(rt)) {
        Ok(()) => {}
        Err(TextsFailure::Maker(e)) => say(rt, maker, &e),
        Err(TextsFailure::Site(e)) => say(rt, site, &e),
        Err(TextsFailure::Write(e)) => say(rt, "standard output", &e),
    }
}

fn main(rt: HostRuntime) {
    let mut words = match env::args(&rt) {
        Ok(words) => words,
        Err(e) => {
            say(rt, "arguments", &e);
            return;
        }
    };
    words.next();
    let maker = words.next();
    let site = words.next();
    let more = words.next();
    match (maker, site, more) {
        (None, _, _) => compile_input(rt),
        (Some(maker), Some(site), None) => compile_files(rt, maker.as_str(), site.as_str()),
        _ => {
            let _ = eprintln!(rt;
                "usage: compiler, with a rule text on standard input, or compiler MAKER SITE"
            );
        }
    }
}
