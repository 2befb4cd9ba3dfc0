//! A judge of a report for a part.
ghost use Rattle.std.specs.Prelude.{◌≡◌, ◌↔◌, [], true, List, Bool, ℕ, IsTrue, IfOk, IfErr};
ghost use Rattle.ht_tern.specs.declared.tern.Tern as tern;
ghost use Rattle.ht_faults.specs.Sites.{faults_of};
ghost use Rattle.ht_faults.specs.Classes.{AreClasses};
ghost use Rattle.ht_proofs.specs.Detections.{AreFirstDetections};
ghost use Rattle.ht_texts.specs.SearchReports.{IsBudget};
ghost use Rattle.ht_parts.specs.Parts.{IsPart};
ghost use Rattle.ht_parts.specs.PartReportJudging.{AgreesIfMember, AreClaimedInPart, JudgesPartReport, PartEndHasCause, PartReportJudged};

use crate::members::{is_member, members_of, set_others_aside};
use crate::part::Part;
use ht_faults::{Classes, FaultList};
use ht_judge::{Claims, JudgeError, agrees, keep, wrong_line};
use ht_net::{Circuit, Place};
use ht_texts::{Item, ReportReader, Said};
use std::alloc::{AllocError, Global};
use std::marker::Model;

/// Judges the report of a search for a part, line by line, beside the first detections of its tests: each line is to be
/// well formed, and one of a representative of the part is to agree with the tests. It keeps what the lines say.
#[derive(Drop)]
pub struct PartReportJudge<'c> {
    reader: ReportReader<'c>,
    // the first detection of each representative, by number from 0
    detections: &'c [Option<Place>],
    part: Part,
    // of each fault whether it is of the part
    members: Vec<bool>,
    // that of the head, and some budget before the head is read
    budget: u64,
    saids: Vec<Said>,
    live: bool,
}

impl<'c> Model for PartReportJudge<'c> {
    ghost use Rattle.ht_parts.specs.PartReportJudging.{PartReportView};

    ghost Value = { PartReportView };

    ghost use Rattle.ht_parts.specs.PartReportJudgeOf.{part_report_view, KeepsPartReport};

    ghost view = { part_report_view };

    ghost invariant = { KeepsPartReport };
}

// Whether what a line says agrees with the first detections, if it is the line of a member.
fn agrees_if_member(members: &[bool], detections: &[Option<Place>], item: Item) -> bool
    ensures { IsTrue result ↔ AgreesIfMember members.now detections.now item }
{
    match item {
        Item::Verdict { fault, .. } => {
            !is_member(members, fault as usize) || agrees(detections, item)
        },
        Item::Head { .. } | Item::Member { .. } | Item::Total => true,
    }
}

impl<'c> PartReportJudge<'c> {
    /// A judge before the first line of a report on the faults and classes of the circuit, whose tests detect each
    /// representative there first.
    ///
    /// # Errors
    /// Out of memory.
    pub fn new(
        alloc: Global,
        circuit: &'c Circuit,
        faults: &'c FaultList,
        classes: &'c Classes,
        part: Part,
        detections: &'c [Option<Place>],
    ) -> Result<PartReportJudge<'c>, AllocError>
        requires faults { faults.now ≡ faults_of circuit.now }
        requires classes { AreClasses circuit.now classes.now }
        requires part { IsPart part }
        ensures stands { (start : List tern.Tern) (list : List (List Bool))
            → AreFirstDetections circuit.now classes.now start list detections.now
            → IfOk result (λ judge. JudgesPartReport judge start list []) }
        ensures circuit { IfOk result (λ judge. judge.circuit ≡ circuit.now) }
        ensures classes { IfOk result (λ judge. judge.representatives ≡ classes.now) }
        ensures part { IfOk result (λ judge. judge.part ≡ part) }
        ensures live { IfOk result (λ judge. judge.live ≡ true) }
    {
        let members = members_of(alloc, classes, part)?;
        let saids = Vec::with_capacity(alloc, faults.len() as usize)?;
        Ok(PartReportJudge {
            reader: ReportReader::new(circuit, faults, classes),
            detections,
            part,
            members,
            budget: 1,
            saids,
            live: true,
        })
    }

    /// Whether `line` may be called: not after an error.
    pub fn live(&self) -> bool
        ensures { result ≡ self.now.live }
    {
        self.live
    }

    /// Judges the next line, without its LF.
    ///
    /// # Errors
    /// `Denied` at the line, exactly where no report has this line after the lines before, or it says of a fault of the
    /// part what the tests contradict. Out of memory. The judge isn't live then.
    pub fn line(&mut self, line: &[u8]) -> Result<(), JudgeError>
        requires { IsTrue self.old.live }
        ensures { PartReportJudged self.old self.new line.now result }
    {
        self.live = false;
        let item = match self.reader.line(line) {
            Ok(item) => item,
            Err(malformed) => return Err(wrong_line(malformed.line)),
        };
        if !agrees_if_member(&self.members, self.detections, item) {
            // after the head there is a line for each fault
            return Err(wrong_line(self.saids.len() as u64 + 2));
        }
        keep(&mut self.budget, &mut self.saids, item)?;
        self.live = true;
        Ok(())
    }

    /// What the whole report claims for the part: the verdicts of all faults that aren't of the part are set aside, as
    /// detections of which proofs have nothing to show.
    ///
    /// # Errors
    /// `Denied` at the line after the last, exactly where the report isn't whole.
    pub fn end(self) -> Result<Claims, JudgeError>
        ensures budget { IfOk result (λ claims. IsBudget claims.budget) }
        ensures ok { (start : List tern.Tern) (list : List (List Bool)) (lines : List (List ℕ))
            → JudgesPartReport self.entry start list lines
            → IfOk result (AreClaimedInPart self.entry.circuit self.entry.representatives
            self.entry.part start list lines) }
        ensures err { (start : List tern.Tern) (list : List (List Bool)) (lines : List (List ℕ))
            → JudgesPartReport self.entry start list lines
            → IfErr result (PartEndHasCause self.entry lines) }
    {
        match self.reader.end() {
            Ok(()) => {
                let mut saids = self.saids;
                set_others_aside(&self.members, &mut saids);
                Ok(Claims {
                    budget: self.budget,
                    saids,
                })
            },
            Err(malformed) => Err(wrong_line(malformed.line)),
        }
    }
}
