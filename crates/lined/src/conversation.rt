//! The whole run of a machine of parts, and of one of lines.
ghost use Rattle.std.specs.Prelude.{◌<◌, ◌≤◌, length, OnOk, IfErr};
ghost use Rattle.stream.specs.Machine.{AnswersAll, EndsBy};
ghost use Rattle.lined.specs.Machine.{line_answer, line_due};

use crate::line::LineMachine;
use crate::lined::Lined;
use crate::part::PartMachine;
use crate::parted::Parted;
use stream::{Ends, Failure, converse};

/// Reads to the end of the input, and writes what the machine prints: at each read, all that is due for what was read before has been
/// written. However the input is cut into reads, that is the same.
///
/// What is printed is gathered in `out` as long as there is room for what comes next. The buffer takes a read's bytes.
pub fn answer_parts<E: Ends, P: PartMachine + Drop>(
    ends: &mut E,
    machine: P,
    out: &mut [u8],
    buffer: &mut [u8],
) -> Result<(), Failure>
    requires some { 0 < length buffer.old }
    requires room { P.room ≤ length out.old }
    ensures ok { OnOk result (AnswersAll (P.printed machine) (P.given machine) (E.known ends.old) (E.known ends.new)) }
    ensures err { IfErr result (λ e. EndsBy e (P.given machine) (P.printed machine) (E.known ends.old) (E.known ends.new)) }
{
    let mut parted = Parted {
        machine,
        out,
        used: 0,
    };
    converse(ends, &mut parted, buffer)
}

/// The same of what the machine prints for the lines. Of a line as many bytes are handed on as `held` has room for.
pub fn answer_lines<E: Ends, L: LineMachine + Drop>(
    ends: &mut E,
    machine: L,
    held: &mut [u8],
    out: &mut [u8],
    buffer: &mut [u8],
) -> Result<(), Failure>
    requires some { 0 < length buffer.old }
    requires room { L.room ≤ length out.old }
    ensures ok { OnOk result (AnswersAll (line_answer L.printed machine (length held.old)) (line_due L.given machine (length held.old)) (E.known ends.old) (E.known ends.new)) }
    ensures err { IfErr result (λ e. EndsBy e (line_due L.given machine (length held.old)) (line_answer L.printed machine (length held.old)) (E.known ends.old) (E.known ends.new)) }
{
    let lined = Lined {
        machine,
        held,
        size: 0,
    };
    answer_parts(ends, lined, out, buffer)
}
