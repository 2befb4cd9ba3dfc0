//! The proofs, from their file to whether they back a report, or to the verdicts that they justify.
ghost use Rattle.std.specs.Prelude.{◌≡◌, [], List, length, IsTrue, IfOk, IfErr, OnOk};
ghost use Rattle.ht_ports.specs.Desk.{InCall};
ghost use Rattle.ht_ports.specs.declared.ports.InPort.TheVariants as in_port;
ghost use Rattle.ht_faults.specs.Sites.{faults_of};
ghost use Rattle.ht_texts.specs.SearchReports.{IsBudget};
ghost use Rattle.ht_entries.specs.declared.numbered.Numbered.{Numbered};
ghost use Rattle.ht_valid.specs.ValidFiles.{Content};
ghost use Rattle.ht_judge.specs.ProofJudging.{FollowsProofs, JudgesProofs};
ghost use Rattle.ht_asked.specs.Asked.{Asked};
ghost use Rattle.ht_asked.specs.Table.{check, report};
ghost use Rattle.ht_inputs.specs.Grading.{HasDetections, IsOfCircuit};
ghost use Rattle.ht_inputs.specs.Inputs.{JobBasis};
ghost use Rattle.ht_inputs.specs.Judging.{AgreeWithTests, ProofsAreRead, ProofsStop, StandsForProofs, VerdictsAreRead, check_basis, report_basis};
ghost use Rattle.ht_inputs.specs.Refusals.{before_proofs};
ghost use Rattle.ht_inputs.specs.Reading.{ReadStops};

use crate::graded::Graded;
use crate::judged_file::{LineJudge, read_lines};
use crate::listed::Listed;
use crate::run_error::RunError;
use ht_entries::MAX_PROOF_LINE_BYTES;
use ht_judge::{Claims, ProofJudge};
use ht_ports::{Desk, InPort};
use ht_valid::Trouble;
use std::alloc::Global;

impl<'c> LineJudge for ProofJudge<'c> {
    ghost use Rattle.ht_entries.specs.declared.limits.TheConstants.{MAX_PROOF_LINE_BYTES};
    ghost use Rattle.ht_valid.specs.declared.trouble.Trouble.TheVariants as trouble;
    ghost use Rattle.ht_inputs.specs.declared.run_error.RunError.TheVariants.{Denied};
    ghost use Rattle.ht_inputs.specs.Judging.{IsWrongInProofs, StandsForProofs};

    ghost most_bytes = { MAX_PROOF_LINE_BYTES };

    ghost live = { λ judge. IsTrue judge.live };

    ghost stands = { StandsForProofs };

    ghost is_wrong = { IsWrongInProofs };

    ghost error_at = { λ line. Denied (trouble.Proofs line) };

    fn take(&mut self, _number: u64, line: &[u8]) -> Result<(), RunError> {
        self.line(line)?;
        Ok(())
    }

    fn longest(&self) -> u32 {
        MAX_PROOF_LINE_BYTES
    }

    fn too_long(&self, line: u64) -> RunError {
        RunError::Denied {
            trouble: Trouble::Proofs { line },
        }
    }
}

// Opens the proofs and has them judged, up to the first line that is malformed, or with which something is wrong with an
// entry: what is claimed in the end. The judge goes by the claims of a report, or its claims follow the proofs.
fn judge_proofs<D: Desk>(
    alloc: Global,
    desk: &mut D,
    name: &str,
    judge: ProofJudge,
) -> Result<Claims, RunError>
    requires { IsTrue judge.live }
    ensures frame { InCall in_port.Proofs (D.view desk.old) (D.view desk.new) }
    ensures claimed { (content : Content) → JudgesProofs judge.entry (before_proofs content) []
        → AgreeWithTests judge.entry.circuit judge.entry.representatives content
        → OnOk result ((entries : List Numbered) × ProofsAreRead judge.entry.circuit
        judge.entry.representatives (record content { entries = entries }) name.now
        (D.view desk.old)) }
    ensures followed { (content : Content) → FollowsProofs judge.entry (before_proofs content) []
        → IfOk result (VerdictsAreRead judge.entry.circuit judge.entry.representatives content
        name.now (D.view desk.old)) }
    ensures stops { (basis : JobBasis) → StandsForProofs judge.entry basis []
        → IfErr result (ProofsStop basis name.now (D.view desk.old) (D.view desk.new)) }
{
    let mut judge = judge;
    let read = read_lines(alloc, desk, InPort::Proofs, name, u64::MAX, &mut judge);
    // for the proof: the judge ends before the way out, which so doesn't drop it
    let claims = judge.end();
    read?;
    Ok(claims?)
}

/// Opens the proofs and judges them by what the report claims, up to the first line that is malformed, or with which an
/// entry is wrong or missing.
///
/// # Errors
/// - `ReadFault`: the desk counted a fault.
/// - `Denied`: a line of the proofs is wrong, or an entry is wrong or missing.
/// - `NoMemory`: out of memory.
pub fn read_proofs<D: Desk>(
    alloc: Global,
    desk: &mut D,
    name: &str,
    graded: &Graded,
    claims: Claims,
) -> Result<(), RunError>
    requires graded { IsOfCircuit graded.now }
    requires budget { IsBudget claims.budget }
    requires each { length claims.saids.items ≡ length (faults_of graded.now.circuit) }
    ensures frame { InCall in_port.Proofs (D.view desk.old) (D.view desk.new) }
    ensures read { (content : Content) → content.start ≡ graded.now.start.items
        → content.budget ≡ claims.budget → content.saids ≡ claims.saids.items
        → AgreeWithTests graded.now.circuit graded.now.listed.classes content
        → OnOk result ((entries : List Numbered) × ProofsAreRead graded.now.circuit
        graded.now.listed.classes (record content { entries = entries }) name.now
        (D.view desk.old)) }
    ensures stops { (job : Asked) (content : Content) → job.command ≡ check
        → content.start ≡ graded.now.start.items
        → content.budget ≡ claims.budget → content.saids ≡ claims.saids.items
        → IfErr result (ReadStops job
        (check_basis graded.now.circuit graded.now.listed.classes content) in_port.Proofs name.now
        (D.view desk.old) (D.view desk.new)) }
{
    let circuit = &graded.circuit;
    let start = &graded.start;
    let Listed { faults, classes } = &graded.listed;
    let judge = ProofJudge::new(alloc, circuit, faults, classes, start, claims);
    judge_proofs(alloc, desk, name, judge)?;
    Ok(())
}

/// Opens the proofs where there is no report, and takes from them what they and the tests justify for the budget, up to
/// the first line that is malformed, or with which an entry is wrong.
///
/// # Errors
/// - `ReadFault`: the desk counted a fault.
/// - `Denied`: a line of the proofs is wrong, or an entry is.
/// - `NoMemory`: out of memory.
pub fn read_verdicts<D: Desk>(
    alloc: Global,
    desk: &mut D,
    name: &str,
    graded: &Graded,
    budget: u64,
) -> Result<Claims, RunError>
    requires graded { IsOfCircuit graded.now }
    requires budget { IsBudget budget }
    ensures frame { InCall in_port.Proofs (D.view desk.old) (D.view desk.new) }
    ensures read { (content : Content) → content.start ≡ graded.now.start.items
        → content.budget ≡ budget → HasDetections graded.now content.start content.list
        → IfOk result (VerdictsAreRead graded.now.circuit graded.now.listed.classes content
        name.now (D.view desk.old)) }
    ensures stops { (job : Asked) (content : Content) → job.command ≡ report
        → job.numbers.budget ≡ budget → content.start ≡ graded.now.start.items
        → content.budget ≡ budget
        → HasDetections graded.now content.start content.list
        → IfErr result (ReadStops job
        (report_basis graded.now.circuit graded.now.listed.classes content) in_port.Proofs name.now
        (D.view desk.old) (D.view desk.new)) }
{
    let circuit = &graded.circuit;
    let start = &graded.start;
    let places = &graded.places;
    let Listed { faults, classes } = &graded.listed;
    let judge = ProofJudge::of_tests(alloc, circuit, faults, classes, start, budget, places)?;
    judge_proofs(alloc, desk, name, judge)
}
