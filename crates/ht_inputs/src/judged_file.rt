//! A file that is judged line by line.
ghost use Rattle.std.specs.Prelude.{◌≡◌, ◌≤◌, ◌+◌, ◌⊎◌, ◌++◌, ◌∷◌, [], List, ℕ, length, IfErr, OnOk};
ghost use Rattle.ht_ports.specs.Desk.{InCall};
ghost use Rattle.ht_ports.specs.LineRule.{max_text_bytes};
ghost use Rattle.ht_inputs.specs.declared.run_error.RunError.{RunError as Error};
ghost use Rattle.ht_inputs.specs.declared.run_error.RunError.TheVariants.{NoMemory};
ghost use Rattle.ht_inputs.specs.Inputs.{JobBasis};
ghost use Rattle.ht_inputs.specs.Judging.{LinesStop, StandsForFile};

use crate::run_error::RunError;
use ht_ports::{Desk, Failed, InPort, LineFault, Lines};
use std::alloc::Global;

/// Takes the lines of a file, one after the other.
pub trait LineJudge {
    // the most bytes of a line of the file
    ghost most_bytes: { ℕ };

    // a further line may come
    ghost live: { Self → Type 0 };

    // it stands for these lines, by the basis
    ghost stands: { Self → JobBasis → List (List ℕ) → Type 0 };

    // a line after these ends the run with this error
    ghost is_wrong: { JobBasis → List (List ℕ) → List ℕ → Error → Type 0 };

    // the error of a file whose line of this number, from 1, is too long
    ghost error_at: { ℕ → Error };

    /// Takes the next line, without its LF, and its number.
    ///
    /// # Errors
    /// Why the line ends the run, or out of memory.
    fn take(&mut self, number: u64, line: &[u8]) -> Result<(), RunError>
        requires { live self.old }
        ensures live { OnOk result (live self.new) }
        ensures stands { (basis : JobBasis) (before : List (List ℕ)) → stands self.old basis before
            → number ≡ length before + 1 → number ≤ max_text_bytes
            → OnOk result (stands self.new basis (before ++ line.now ∷ [])) }
        ensures fine { (basis : JobBasis) (before : List (List ℕ)) → stands self.old basis before
            → number ≡ length before + 1 → number ≤ max_text_bytes
            → OnOk result ((error : Error) → ¬ is_wrong basis before line.now error) }
        ensures wrong { (basis : JobBasis) (before : List (List ℕ)) → stands self.old basis before
            → number ≡ length before + 1 → number ≤ max_text_bytes
            → IfErr result (λ e. (e ≡ NoMemory) ⊎ is_wrong basis before line.now e) };

    /// The most bytes of a line of the file.
    fn longest(&self) -> u32
        ensures { result ≡ most_bytes };

    /// The error of a file whose line is too long.
    fn too_long(&self, line: u64) -> RunError
        ensures { result ≡ error_at line };
}

/// Opens a file and has its first `most` lines judged, up to the first that ends the run.
///
/// # Errors
/// - `ReadFault`: the desk counted a fault.
/// - That of a line which isn't taken, or is too long.
/// - `NoMemory`: out of memory.
pub fn read_lines<D: Desk, J: LineJudge>(
    alloc: Global,
    desk: &mut D,
    port: InPort,
    name: &str,
    most: u64,
    judge: &mut J,
) -> Result<(), RunError>
    requires { J.live judge.old }
    ensures frame { InCall port (D.view desk.old) (D.view desk.new) }
    ensures stands { (basis : JobBasis) → J.stands judge.old basis []
        → OnOk result (StandsForFile (J.stands judge.new basis) (J.is_wrong basis) most port
        name.now (D.view desk.old)) }
    ensures stops { (basis : JobBasis) → J.stands judge.old basis []
        → IfErr result (LinesStop (J.is_wrong basis) J.error_at J.most_bytes most port name.now
        (D.view desk.old) (D.view desk.new)) }
{
    if let Err(Failed) = desk.open(port, name) {
        return Err(RunError::ReadFault);
    }
    let mut lines = Lines::new(alloc, port, judge.longest())?;
    let mut number = 0;
    'lines: while number < most {
        match lines.next(desk) {
            Ok(Some(line)) => {
                number += 1;
                judge.take(number, line)?;
            }
            Ok(None) => return Ok(()),
            Err(LineFault::Failed) => return Err(RunError::ReadFault),
            Err(LineFault::TooLong { line }) => return Err(judge.too_long(line)),
        }
    }
    Ok(())
}
