//! An end that records, and a conversation on it.
ghost use Rattle.std.specs.Prelude.{◌≡◌, ◌<◌, [], length, drop, OnOk};
ghost use Rattle.recording.specs.Recording.{Echoed, calls_of};

use super::*;
use std::io;
use std::process::Abort;
use std::test::Fail;
use stream::{Ends, Failure, converse};

/// A tape as both ends. It aborts where there is no room for a call more.
#[derive(Drop)]
struct Recorder<R: Abort + Drop> {
    rt: R,
    tape: Tape,
}

impl<R: Abort + Drop> Ends for Recorder<R> {
    ghost use Rattle.recording.specs.Recording.{known_of};

    ghost known = { λ s. known_of s.tape };

    #[tactic(auto, using(crate::proofs::EchoLaws::read_keeps))]
    fn read(&mut self, buffer: &mut [u8]) -> io::Result<usize> {
        assert!(self.rt; !self.tape.log.is_full());
        Ok(self.tape.read(buffer))
    }

    #[tactic(auto, using(crate::proofs::EchoLaws::write_adds))]
    fn write(&mut self, bytes: &[u8]) -> io::Result<usize> {
        assert!(self.rt; !self.tape.log.is_full());
        Ok(self.tape.log.push(false, bytes))
    }
}

/// Echoes the input: at each read, all that came before has gone out.
fn echo<R: Abort + Drop>(ends: &mut Recorder<R>, buffer: &mut [u8]) -> Result<(), Failure>
    requires room { 0 < length buffer.old }
    requires fresh { calls_of ends.old.tape.log ≡ [] }
    ensures { OnOk result (Echoed (drop ends.old.tape.at ends.old.tape.input) (calls_of ends.new.tape.log)) }
{
    let mut machine = Echo::new();
    converse(ends, &mut machine, buffer)
}

#[test]
fn echoes_each_read(rt: HostRuntime) -> Result<(), Fail> {
    let mut ends = Recorder {
        rt,
        tape: Tape::new(*b"E1 causes A1\nrun"),
    };
    let mut buffer = [0; 3];
    assert!(rt; echo(&mut ends, &mut buffer).is_ok());
    assert_eq!(rt; ends.tape.log.count, 13);
    // A write behind each read that gave bytes, of these bytes.
    for (n, count) in [3, 3, 3, 3, 3, 3, 3, 3, 3, 3, 1, 1, 0].iter().enumerate() {
        let call = ends.tape.log.calls[n];
        assert_eq!(rt; call.read, n % 2 == 0, "at {n}");
        assert_eq!(rt; call.count, *count, "at {n}");
    }
    Ok(())
}
