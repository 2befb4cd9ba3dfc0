//! The report of a search, read line by line.
ghost use Rattle.std.specs.Prelude.{◌≡◌, ℕ, List, IsTrue};
ghost use Rattle.ht_faults.specs.Sites.{faults_of};
ghost use Rattle.ht_faults.specs.Classes.{AreClasses};
ghost use Rattle.ht_texts.specs.ReportReading.{ReportReading};
ghost use Rattle.ht_texts.specs.ReportStands.{new_report, ReportStands, ReportCalled, EndsReport};

use crate::item::Item;
use crate::malformed_line::MalformedLine;
use crate::read_line::read_line;
use crate::total::Sums;
use ht_faults::{Classes, FaultList};
use ht_net::Circuit;
use std::marker::Model;

/// A reader of the report of a search, line by line. It takes exactly the lines that a report of this circuit has, and
/// keeps none of them: it counts lines and verdicts, and takes no memory.
#[derive(Drop)]
pub struct ReportReader<'c> {
    circuit: &'c Circuit,
    faults: &'c FaultList,
    classes: &'c Classes,
    lines_read: u64,
    sums: Sums,
    live: bool,
}

impl<'c> Model for ReportReader<'c> {
    ghost use Rattle.ht_texts.specs.ReportStands.{ReportView};

    ghost Value = { ReportView };

    ghost use Rattle.ht_texts.specs.ReportReaderOf.{report_view, ReadsReport};

    ghost view = { report_view };

    ghost invariant = { ReadsReport };
}

impl<'c> ReportReader<'c> {
    /// A reader before the first line of a report on the faults and classes of the circuit.
    pub fn new(
        circuit: &'c Circuit,
        faults: &'c FaultList,
        classes: &'c Classes,
    ) -> ReportReader<'c>
        requires faults { faults.now ≡ faults_of circuit.now }
        requires classes { AreClasses circuit.now classes.now }
        ensures { result ≡ new_report circuit.now classes.now }
    {
        // for the proof: a circuit has few faults
        prove!(circuit.nets() < u32::MAX);
        ReportReader {
            circuit,
            faults,
            classes,
            lines_read: 0,
            sums: Sums::none(classes, true),
            live: true,
        }
    }

    /// Whether `line` may be called: not after an error.
    pub fn live(&self) -> bool
        ensures { result ≡ self.now.live }
    {
        self.live
    }

    /// What the next line says, without its LF: the budget, what is said of the next fault, or that it is the total.
    ///
    /// # Errors
    ///
    /// `MalformedLine` exactly where no report has this line after the lines before; the reader isn't live then.
    pub fn line(&mut self, line: &[u8]) -> Result<Item, MalformedLine>
        requires live { IsTrue self.old.live }
        ensures { ReportCalled self.old self.new line.now result }
    {
        let found = read_line(
            self.circuit,
            self.faults,
            self.classes,
            self.lines_read,
            self.sums,
            line,
        );
        let Some(item) = found else {
            self.live = false;
            return Err(MalformedLine {
                line: self.lines_read + 1,
            });
        };
        self.sums.count_item(item);
        self.lines_read += 1;
        Ok(item)
    }

    /// The end of the text.
    ///
    /// # Errors
    ///
    /// `MalformedLine` exactly where the report isn't whole: the line after the last one is missing.
    pub fn end(&self) -> Result<(), MalformedLine>
        ensures { (lines : List (List ℕ)) (at : ReportReading) → ReportStands self.now lines at
            → EndsReport self.now lines at result }
    {
        if self.lines_read == u64::from(self.faults.len()) + 2 {
            Ok(())
        } else {
            Err(MalformedLine {
                line: self.lines_read + 1,
            })
        }
    }
}
