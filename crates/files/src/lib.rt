//! The files that a program's arguments name, and what is said of a failure.
#![tactic(auto)]

ghost use Rattle.std.specs.Prelude.{◌≡◌, None, false};

use std::env::{Env, FillError};
use std::fs::File;
use std::io;
use std::io::Read;

/// A file that is opened when it is first read: what is read before it is read to its end before it is opened. It is closed at its end:
/// a program without a standard input would otherwise read the file in its place.
#[derive(Drop)]
pub struct Named<'n> {
    rt: HostRuntime,
    name: &'n str,
    file: Option<File>,
    ended: bool,
}

impl<'n> Named<'n> {
    /// The file of this name. Nothing is opened yet.
    pub fn new(rt: HostRuntime, name: &'n str) -> Named<'n>
        ensures named { result.name.now ≡ name.now }
        ensures unopened { result.file ≡ None }
        ensures unread { result.ended ≡ false }
    {
        Named {
            rt,
            name,
            file: None,
            ended: false,
        }
    }
}

impl<'n> Read for Named<'n> {
    fn read(&mut self, buffer: &mut [u8]) -> io::Result<usize> {
        let mut file = match self.file.take() {
            Some(file) => file,
            None if self.ended => return Ok(0),
            None => File::open(&self.rt, self.name)?,
        };
        let got = file.read(buffer);
        match got {
            Ok(0) if 0 < buffer.len() => self.ended = true,
            _ => self.file = Some(file),
        }
        got
    }
}

/// Whether the command line has words behind the program's name.
pub fn has_arguments(rt: &impl Env) -> bool {
    !matches!(rt.arg(1, &mut []), Err(FillError::NotPresent))
}

/// The system's words for an error, without its number.
fn words_of(text: &str) -> &str {
    match text.split_once(" (os error ") {
        Some((words, _)) => words,
        None => text,
    }
}

/// Says on standard error what of a program failed, and how, as `engine: standard input: Is a directory`. Where that can't be written,
/// nothing more is said.
pub fn say(rt: HostRuntime, program: &str, what: &str, error: &io::Error) {
    let _ = match error.to_string(rt.alloc()) {
        Ok(text) => {
            let words = words_of(text.as_str());
            eprintln!(rt; "{program}: {what}: {words}")
        }
        Err(_) => eprintln!(rt; "{program}: {what}: {error}"),
    };
}
