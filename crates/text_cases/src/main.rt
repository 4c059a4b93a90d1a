//! Runs the readers on cases from standard input and writes what they answer, one line a case. A case ends at byte 30. Its
//! first byte says what it is: `T` a rule text, any other an epoch line.
#![tactic(auto)]

use policy::TRIGGER_FORM;
use rule_text::LineCounts;
use std::io;
use std::io::{BufWriter, Read, Write};

/// What ends a case.
const END: u8 = 30;

/// The words that lines with these counts take in an image.
fn words(counts: LineCounts) -> usize {
    counts
        .lines
        .wrapping_add(counts.heads)
        .wrapping_add(counts.comparisons)
        .wrapping_add(counts.constants)
}

fn show_text<W: Write>(out: &mut W, text: &[u8]) -> io::Result<()> {
    match rule_text::read_text(TRIGGER_FORM, text) {
        Err(refusal) => {
            let number = refusal.fault.number();
            let line = refusal.location;
            writeln!(out, "refused {number} line {line}")
        }
        Ok(counts) => {
            let rules = counts.rules.lines;
            let constraints = counts.constraints.lines;
            let rule_words = words(counts.rules);
            let constraint_words = words(counts.constraints);
            writeln!(
                out,
                "accepted rules {rules} constraints {constraints} words {rule_words} {constraint_words}"
            )
        }
    }
}

/// The values that are not 0.
fn show_values<W: Write>(out: &mut W, values: &[i32]) -> io::Result<()> {
    for (n, value) in values.iter().enumerate() {
        if *value != 0 {
            write!(out, " R{n}={value}")?;
        }
    }
    Ok(())
}

fn show_epoch<W: Write>(out: &mut W, line: &[u8]) -> io::Result<()> {
    match epoch_line::read_epoch(line) {
        Err(refusal) => write!(out, "refused {}", refusal.fault.number())?,
        Ok(epoch) => {
            let readings = epoch.readings;
            write!(
                out,
                "events {:x} given {:x}",
                epoch.events.bits, readings.given.bits
            )?;
            show_values(out, &readings.values)?;
        }
    }
    writeln!(out)
}

fn show_case<W: Write>(out: &mut W, case: &[u8]) -> io::Result<()> {
    match case {
        [] => Ok(()),
        [b'T', text @ ..] => show_text(out, text),
        [_, line @ ..] => show_epoch(out, line),
    }
}

fn show_cases<W: Write>(out: &mut W, input: &[u8]) -> io::Result<()> {
    for case in input.split(|byte| *byte == END) {
        show_case(out, case)?;
    }
    Ok(())
}

fn main(rt: HostRuntime) -> io::Result<()> {
    let mut input = Vec::new(rt.alloc());
    rt.stdin().read_to_end(&mut input)?;
    let mut out = BufWriter::new(rt.alloc(), rt.stdout())?;
    show_cases(&mut out, &input)?;
    out.flush()
}
