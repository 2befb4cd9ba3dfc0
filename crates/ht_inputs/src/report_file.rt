//! The report, from its file to what it claims.
ghost use Rattle.std.specs.Prelude.{◌≡◌, IfOk, IfErr, true};
ghost use Rattle.ht_ports.specs.Desk.{InCall};
ghost use Rattle.ht_ports.specs.declared.ports.InPort.TheVariants as in_port;
ghost use Rattle.ht_texts.specs.SearchReports.{HasShortNames, IsBudget};
ghost use Rattle.ht_valid.specs.ValidFiles.{Content};
ghost use Rattle.ht_asked.specs.Asked.{Asked};
ghost use Rattle.ht_inputs.specs.Grading.{HasDetections, IsOfCircuit};
ghost use Rattle.ht_inputs.specs.Jobs.{judges};
ghost use Rattle.ht_inputs.specs.Judging.{ReportIsRead, check_basis};
ghost use Rattle.ht_inputs.specs.Reading.{ReadStops};

use crate::graded::Graded;
use crate::judged_file::{LineJudge, read_lines};
use crate::listed::Listed;
use crate::run_error::RunError;
use ht_judge::{Claims, ReportJudge};
use ht_ports::{Desk, InPort};
use ht_texts::MAX_LINE_BYTES;
use ht_valid::Trouble;
use std::alloc::Global;

impl<'c> LineJudge for ReportJudge<'c> {
    ghost use Rattle.std.specs.Prelude.{IsTrue};
    ghost use Rattle.ht_texts.specs.declared.limits.TheConstants.{MAX_LINE_BYTES};
    ghost use Rattle.ht_valid.specs.declared.trouble.Trouble.TheVariants as trouble;
    ghost use Rattle.ht_inputs.specs.declared.run_error.RunError.TheVariants.{Denied};
    ghost use Rattle.ht_inputs.specs.Judging.{IsWrongInReport, StandsForReport};

    ghost most_bytes = { MAX_LINE_BYTES };

    ghost live = { λ judge. IsTrue judge.live };

    ghost stands = { StandsForReport };

    ghost is_wrong = { IsWrongInReport };

    ghost error_at = { λ line. Denied (trouble.Report line) };

    fn take(&mut self, _number: u64, line: &[u8]) -> Result<(), RunError> {
        self.line(line)?;
        Ok(())
    }

    fn longest(&self) -> u32 {
        MAX_LINE_BYTES
    }

    fn too_long(&self, line: u64) -> RunError {
        RunError::Denied {
            trouble: Trouble::Report { line },
        }
    }
}

/// Opens the report and reads what it claims, up to the first line that is malformed or contradicts the tests, which
/// detect the representatives at these places first, from the start.
///
/// # Errors
/// - `ReadFault`: the desk counted a fault.
/// - `Denied`: a line of the report is wrong.
/// - `NoMemory`: out of memory.
pub fn read_report<D: Desk>(
    alloc: Global,
    desk: &mut D,
    name: &str,
    graded: &Graded,
) -> Result<Claims, RunError>
    requires { IsOfCircuit graded.now }
    ensures frame { InCall in_port.Report (D.view desk.old) (D.view desk.new) }
    ensures budget { IfOk result (λ claims. IsBudget claims.budget) }
    ensures read { (content : Content)
        → HasDetections graded.now content.start content.list
        → IfOk result (λ claims. content.budget ≡ claims.budget
        → content.saids ≡ claims.saids.items → ReportIsRead
        (check_basis graded.now.circuit graded.now.listed.classes content) name.now
        (D.view desk.old)) }
    ensures stops { (job : Asked) (content : Content) → judges job.command ≡ true
        → HasDetections graded.now content.start content.list
        → HasShortNames graded.now.circuit
        → IfErr result (ReadStops job
        (check_basis graded.now.circuit graded.now.listed.classes content) in_port.Report name.now
        (D.view desk.old) (D.view desk.new)) }
{
    let Listed { faults, classes } = &graded.listed;
    let mut judge = ReportJudge::new(alloc, &graded.circuit, faults, classes, &graded.places)?;
    read_lines(alloc, desk, InPort::Report, name, u64::MAX, &mut judge)?;
    let claims = judge.end()?;
    Ok(claims)
}
