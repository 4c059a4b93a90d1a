//! The lines that end the text: each picks a mode.
ghost use Rattle.std.specs.Prelude.{◌≡◌};
ghost use Rattle.session.specs.Printed.{mode_of};

use policy::Mode;

/// The mode that a line picks, if it is `run` or `run events`.
#[tactic(auto, using(crate::proofs::RunLaws::same_pointwise), unfolding(crate::specs::Printed::mode_of, lexer::specs::Byte::is, lexer::specs::Byte::bytes))]
pub(crate) fn pick_mode(line: &[u8]) -> Option<Mode>
    ensures { result ≡ mode_of line.now }
{
    if line == b"run".as_slice() {
        Some(Mode::Actions)
    } else if line == b"run events".as_slice() {
        Some(Mode::Events)
    } else {
        None
    }
}
