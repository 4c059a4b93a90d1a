//! Runs the loader on cases from standard input and writes what it answers, one line a case, and how many lines are met going over a
//! taken image from line to line. A case is its size in two bytes, the more significant first, and then its bytes.
#![tactic(auto)]

use image::{Image, Walker};
use policy::{Part, PerPart};
use std::io;
use std::io::{BufWriter, Read, Write};

/// How many lines of the part are met.
fn count(part: Part, lines: Walker<'_>) -> usize {
    let mut count = 0usize;
    for line in lines {
        if line.ending().part() == part {
            count = count.wrapping_add(1);
        }
    }
    count
}

fn show_image<W: Write>(out: &mut W, image: Image<'_>) -> io::Result<()> {
    let first = count(Part::Rules, image.lines(Part::Rules));
    let second = count(Part::Constraints, image.lines(Part::Constraints));
    let form = image.form();
    let PerPart { rules, constraints } = image.counts;
    let rule_words = image.parts.rules.len();
    let constraint_words = image.parts.constraints.len();
    writeln!(
        out,
        "image form {form} rules {rules} constraints {constraints} words {rule_words} {constraint_words} lines {first} {second}"
    )
}

fn show_case<W: Write>(out: &mut W, case: &[u8]) -> io::Result<()> {
    match image::load_image(case) {
        Err(refusal) => {
            let number = refusal.fault.number();
            let place = refusal.location;
            writeln!(out, "refused {number} place {place}")
        }
        Ok(image) => show_image(out, image),
    }
}

fn show_cases<W: Write>(out: &mut W, input: &[u8]) -> io::Result<()> {
    let mut rest = input;
    while let [high, low, behind @ ..] = rest {
        let size = usize::from(u16::from_be_bytes([*high, *low]));
        if behind.len() < size {
            break;
        }
        show_case(out, &behind[..size])?;
        rest = &behind[size..];
    }
    Ok(())
}

fn main(rt: HostRuntime) -> io::Result<()> {
    let mut input = Vec::new(rt.alloc());
    rt.stdin().read_to_end(&mut input)?;
    let mut out = BufWriter::new(rt.alloc(), rt.stdout())?;
    show_cases(&mut out, &input)?;
    out.flush()
}
