//! The epoch line: events and values of readings. The line is scanned once: what it names is collected with two flags, a
//! number out of range and a reading given twice, and the line is judged at its end.
#![tactic(auto)]

ghost use Rattle.std.specs.Prelude.{◌≡◌, false, Some};
ghost use Rattle.std.specs.Result.{result_map_both};
ghost use Rattle.policy.specs.Fault.{refusal};
ghost use Rattle.epoch_line.specs.Steps.EpochScan.{found, event_with, value_with, assigned_in, value_in, item_in, scanned, finish_read, epoch_from};
ghost use Rattle.epoch_line.specs.Epoch.{empty_epoch, read_epoch};

use lexer::{digits, event, skip_spaces};
use policy::{Epoch, Event, Fault, Reading, Refusal};
use token::constant;

// What the token in front of a line gives, with what stands behind it.
#[derive(Clone, Copy)]
enum Entry<'a> {
    Event(Event, &'a [u8]),
    // A reading and its value.
    Value(Reading, i32, &'a [u8]),
    // A number of it is out of range.
    OutOfRange(&'a [u8]),
    Malformed,
}

// The event of a number.
#[inline(always)]
#[tactic(auto, unfolding(crate::specs::Steps::EpochScan::found))]
fn event_entry(n: u32, rest: &[u8]) -> Entry<'_>
    ensures { found result ≡ Some (event_with n, rest.now) }
{
    match Event::new(n) {
        Some(event) => Entry::Event(event, rest),
        None => Entry::OutOfRange(rest),
    }
}

// The value of the reading with this number.
#[inline(always)]
#[tactic(auto, unfolding(crate::specs::Steps::EpochScan::found))]
fn value_entry(n: u32, constant: Option<i32>, rest: &[u8]) -> Entry<'_>
    ensures { found result ≡ Some (value_with n constant, rest.now) }
{
    match (Reading::new(n), constant) {
        (Some(reading), Some(value)) => Entry::Value(reading, value, rest),
        _ => Entry::OutOfRange(rest),
    }
}

// `=` and a constant, behind the number of a reading.
#[inline(always)]
#[tactic(auto, unfolding(crate::specs::Steps::EpochScan::found))]
fn assigned(n: u32, text: &[u8]) -> Entry<'_>
    ensures { found result ≡ assigned_in n text.now }
{
    let [b'=', behind @ ..] = text else {
        return Entry::Malformed;
    };
    match constant(behind) {
        Some((constant, rest)) => value_entry(n, constant, rest),
        None => Entry::Malformed,
    }
}

// `R`, a number, `=` and a constant.
#[tactic(auto, using(crate::proofs::ItemLaws::value_by_digits), unfolding(crate::specs::Steps::EpochScan::found))]
fn value(line: &[u8]) -> Entry<'_>
    ensures { found result ≡ value_in line.now }
{
    let [b'R', name @ ..] = line else {
        return Entry::Malformed;
    };
    match digits(name) {
        Some((n, rest)) => assigned(n, rest),
        None => Entry::Malformed,
    }
}

// An event or a value.
#[inline(always)]
#[tactic(auto, using(crate::proofs::ItemLaws::item_by_form))]
fn item(line: &[u8]) -> Entry<'_>
    ensures { found result ≡ item_in line.now }
{
    match event(line) {
        Some((n, rest)) => event_entry(n, rest),
        None => value(line),
    }
}

// What is wrong with the line at its end. A number out of range comes before a reading given twice.
#[inline(always)]
#[tactic(auto, unfolding(crate::specs::Steps::EpochScan::finish_read))]
fn judged(out_of_range: bool, twice: bool) -> Result<(), Fault>
    ensures { (epoch : Epoch) → result_map_both (λ _. epoch) (λ fault. refusal fault 0) result ≡ finish_read (record { out_of_range = out_of_range; twice = twice; epoch = epoch }) }
{
    if out_of_range {
        return Err(Fault::EpochRange);
    }
    if twice {
        return Err(Fault::DuplicateReading);
    }
    Ok(())
}

// The tokens of the line, one after another, added to an epoch. At a byte 10 no token stands: that is malformed too.
// A function of its own: put into its callers, it keeps what they hold in memory.
#[inline(never)]
#[tactic(auto, using(crate::proofs::EpochLaws::read_ended, crate::proofs::EpochLaws::read_turn, crate::proofs::EpochLaws::item_shorter, crate::proofs::EpochLaws::reading_small), unfolding(crate::specs::Steps::EpochScan::found, crate::specs::Steps::EpochScan::add_scanned, crate::specs::Epoch::add_item))]
fn read_items(line: &[u8], epoch: &mut Epoch) -> Result<(), Fault>
    ensures { result_map_both (λ _. epoch.new) (λ fault. refusal fault 0) result ≡ epoch_from (scanned false false epoch.old.events epoch.old.readings.given epoch.old.readings.values) line.now }
{
    let mut out_of_range = false;
    let mut twice = false;
    let mut events = epoch.events;
    let mut given = epoch.readings.given;
    let mut rest = line;
    loop {
        let front = skip_spaces(rest);
        if front.is_empty() {
            epoch.events = events;
            epoch.readings.given = given;
            return judged(out_of_range, twice);
        }
        match item(front) {
            Entry::Event(event, behind) => {
                events = events.insert(event);
                rest = behind;
            }
            Entry::Value(reading, value, behind) => {
                twice |= given.has(reading);
                given = given.insert(reading);
                epoch.readings.values[reading.0 as usize] = value;
                rest = behind;
            }
            Entry::OutOfRange(behind) => {
                out_of_range = true;
                rest = behind;
            }
            Entry::Malformed => return Err(Fault::EpochSyntax),
        }
    }
}

// Bytes of an epoch line.
const EPOCH_LIMIT: usize = 1024;

/// An epoch line, without its line end, read into an empty epoch. Where it is refused, at line 0, what stands there is of no use.
#[tactic(auto, using(crate::proofs::EpochLaws::read_all, crate::proofs::EpochLaws::read_long))]
pub fn read_epoch_into(line: &[u8], epoch: &mut Epoch) -> Result<(), Fault>
    requires { epoch.old ≡ empty_epoch }
    ensures { result_map_both (λ _. epoch.new) (λ fault. refusal fault 0) result ≡ read_epoch line.now }
{
    if EPOCH_LIMIT < line.len() {
        Err(Fault::TooLong)
    } else {
        read_items(line, epoch)
    }
}

/// An epoch line, without its line end.
pub fn read_epoch(line: &[u8]) -> Result<Epoch, Refusal>
    ensures { result ≡ read_epoch line.now }
{
    let mut epoch = Epoch::EMPTY;
    match read_epoch_into(line, &mut epoch) {
        Ok(()) => Ok(epoch),
        Err(fault) => Err(fault.at(0)),
    }
}
