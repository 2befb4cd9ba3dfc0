//! A judge of a report.
ghost use Rattle.std.specs.Prelude.{◌≡◌, ◌↔◌, ◌++◌, [], true, List, Bool, ℕ, IsTrue, IfOk, IfErr, OnOk};
ghost use Rattle.ht_tern.specs.declared.tern.Tern as tern;
ghost use Rattle.ht_faults.specs.Sites.{faults_of};
ghost use Rattle.ht_faults.specs.Classes.{AreClasses};
ghost use Rattle.ht_proofs.specs.Detections.{AreFirstDetections, place_at};
ghost use Rattle.ht_texts.specs.SearchReports.{IsBudget};
ghost use Rattle.ht_judge.specs.ReportJudging.{AgreesWithPlace, AgreesWithPlaces, budget_with, saids_in, JudgesReport, ReportJudged, IsTrueReport, ReportEndHasCause};

use crate::judge_error::{JudgeError, wrong_line};
use ht_faults::{Classes, FaultList};
use ht_net::{Circuit, Place};
use ht_texts::{Item, ReportReader, Said};
use std::alloc::{AllocError, Global};
use std::marker::Model;

/// What a report says or may say: the budget, and what it says of each fault by number from 0. Of a fault that doesn't
/// represent its class it says nothing that has an effect.
#[derive(Drop)]
pub struct Claims {
    pub budget: u64,
    pub saids: Vec<Said>,
}

/// Judges the report of a search, line by line, beside the first detections of its tests. It keeps what the lines say.
#[derive(Drop)]
pub struct ReportJudge<'c> {
    reader: ReportReader<'c>,
    // the first detection of each representative, by number from 0
    detections: &'c [Option<Place>],
    // that of the head, and some budget before the head is read
    budget: u64,
    saids: Vec<Said>,
    live: bool,
}

impl<'c> Model for ReportJudge<'c> {
    ghost use Rattle.ht_judge.specs.ReportJudging.{ReportJudgeView};

    ghost Value = { ReportJudgeView };

    ghost use Rattle.ht_judge.specs.ReportJudgeOf.{report_judge_view, KeepsReport};

    ghost view = { report_judge_view };

    ghost invariant = { KeepsReport };
}

// The first detection of a fault, or none where the number is of no fault.
fn place_of(detections: &[Option<Place>], fault: u32) -> Option<Place>
    ensures { result ≡ place_at detections.now fault }
{
    let i = fault as usize;
    if i < detections.len() {
        detections[i]
    } else {
        None
    }
}

// Whether what is said of a fault agrees with its first detection.
fn agrees_with(place: Option<Place>, said: Said) -> bool
    ensures { IsTrue result ↔ AgreesWithPlace place said }
{
    match place {
        Some(place) => match said {
            Said::Detected(at) => place == at,
            Said::Untestable | Said::Undetectable | Said::Aborted | Said::Undetected => false,
        },
        None => match said {
            Said::Untestable | Said::Undetectable | Said::Aborted | Said::Undetected => true,
            Said::Detected(_) => false,
        },
    }
}

/// Whether what a line of a report says agrees with the first detections, which are by number from 0.
pub fn agrees(detections: &[Option<Place>], item: Item) -> bool
    ensures { IsTrue result ↔ AgreesWithPlaces detections.now item }
{
    match item {
        Item::Verdict { fault, said } => agrees_with(place_of(detections, fault), said),
        Item::Head { .. } | Item::Member { .. } | Item::Total => true,
    }
}

/// Keeps what a line of a report says: the budget of its head, or its verdict after those of the faults before.
///
/// # Errors
/// Out of memory.
pub fn keep(budget: &mut u64, saids: &mut Vec<Said>, item: Item) -> Result<(), AllocError>
    ensures budget { budget.new ≡ budget_with item budget.old }
    ensures saids { OnOk result (saids.new.items ≡ saids.old.items ++ saids_in item) }
{
    match item {
        Item::Head { budget: said } => {
            *budget = said;
            Ok(())
        },
        Item::Verdict { said, .. } => {
            saids.push(said)?;
            Ok(())
        },
        Item::Member { .. } => {
            saids.push(Said::Undetected)?;
            Ok(())
        },
        Item::Total => Ok(()),
    }
}

impl<'c> ReportJudge<'c> {
    /// A judge before the first line of a report on the faults and classes of the circuit, whose tests detect each
    /// representative there first.
    ///
    /// # Errors
    /// Out of memory.
    pub fn new(
        alloc: Global,
        circuit: &'c Circuit,
        faults: &'c FaultList,
        classes: &'c Classes,
        detections: &'c [Option<Place>],
    ) -> Result<ReportJudge<'c>, AllocError>
        requires faults { faults.now ≡ faults_of circuit.now }
        requires classes { AreClasses circuit.now classes.now }
        ensures stands { (start : List tern.Tern) (list : List (List Bool))
            → AreFirstDetections circuit.now classes.now start list detections.now
            → IfOk result (λ judge. JudgesReport judge start list []) }
        ensures circuit { IfOk result (λ judge. judge.circuit ≡ circuit.now) }
        ensures classes { IfOk result (λ judge. judge.representatives ≡ classes.now) }
        ensures live { IfOk result (λ judge. judge.live ≡ true) }
    {
        let saids = Vec::with_capacity(alloc, faults.len() as usize)?;
        Ok(ReportJudge {
            reader: ReportReader::new(circuit, faults, classes),
            detections,
            budget: 1,
            saids,
            live: true,
        })
    }

    /// Whether `line` may be called: not after an error.
    pub fn live(&self) -> bool
        ensures { result ≡ self.now.live }
    {
        self.live
    }

    /// Judges the next line, without its LF.
    ///
    /// # Errors
    /// `Denied` at the line, exactly where no report has this line after the lines before, or it says of a fault what
    /// the tests contradict. Out of memory. The judge isn't live then.
    pub fn line(&mut self, line: &[u8]) -> Result<(), JudgeError>
        requires { IsTrue self.old.live }
        ensures { ReportJudged self.old self.new line.now result }
    {
        self.live = false;
        let item = match self.reader.line(line) {
            Ok(item) => item,
            Err(malformed) => return Err(wrong_line(malformed.line)),
        };
        if !agrees(self.detections, item) {
            // after the head there is a line for each fault
            return Err(wrong_line(self.saids.len() as u64 + 2));
        }
        keep(&mut self.budget, &mut self.saids, item)?;
        self.live = true;
        Ok(())
    }

    /// What the whole report says.
    ///
    /// # Errors
    /// `Denied` at the line after the last, exactly where the report isn't whole.
    pub fn end(self) -> Result<Claims, JudgeError>
        ensures budget { IfOk result (λ claims. IsBudget claims.budget) }
        ensures ok { (start : List tern.Tern) (list : List (List Bool)) (lines : List (List ℕ))
            → JudgesReport self.entry start list lines
            → IfOk result (λ claims. IsTrueReport self.entry.circuit self.entry.representatives
            start list lines claims.budget claims.saids.items) }
        ensures err { (start : List tern.Tern) (list : List (List Bool)) (lines : List (List ℕ))
            → JudgesReport self.entry start list lines
            → IfErr result (ReportEndHasCause self.entry lines) }
    {
        match self.reader.end() {
            Ok(()) => Ok(Claims {
                budget: self.budget,
                saids: self.saids,
            }),
            Err(malformed) => Err(wrong_line(malformed.line)),
        }
    }
}
