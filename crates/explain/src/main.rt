//! Reads the maker's and the site's text from two files and questions from standard input, one a line, and prints for each what became
//! of its action and why. What is printed for which question is `questions`': this program names the ends, and says which of them failed.
#![tactic(auto)]

use files::Named;
use questions::ExplainFailure;
use std::{env, io};
use stream::{Failure, Pair};

fn say(rt: HostRuntime, what: &str, error: &io::Error) {
    files::say(rt, "explain", what, error);
}

/// Answers the questions on the texts in the files of these names.
fn explain_files(rt: HostRuntime, maker: &str, site: &str) {
    let mut first = Pair {
        reader: Named::new(rt, maker),
        writer: io::sink(),
    };
    let mut second = Pair {
        reader: Named::new(rt, site),
        writer: io::sink(),
    };
    let mut ends = Pair {
        reader: rt.stdin(),
        writer: rt.stdout(),
    };
    match questions::explain_texts(&mut first, &mut second, &mut ends) {
        Ok(()) => {}
        Err(ExplainFailure::Maker(e)) => say(rt, maker, &e),
        Err(ExplainFailure::Site(e)) => say(rt, site, &e),
        Err(ExplainFailure::Questions(Failure::Read(e))) => say(rt, "standard input", &e),
        Err(ExplainFailure::Questions(Failure::Write(e))) => say(rt, "standard output", &e),
    }
}

fn main(rt: HostRuntime) {
    let mut words = match env::args(&rt) {
        Ok(words) => words,
        Err(e) => {
            say(rt, "arguments", &e);
            return;
        }
    };
    words.next();
    match (words.next(), words.next(), words.next()) {
        (Some(maker), Some(site), None) => explain_files(rt, maker.as_str(), site.as_str()),
        _ => {
            let _ = eprintln!(rt; "usage: explain MAKER SITE, with questions on standard input");
        }
    }
}
