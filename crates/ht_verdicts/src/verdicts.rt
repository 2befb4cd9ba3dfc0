//! The verdicts so far.
ghost use Rattle.std.specs.Prelude.{◌≡◌, ◌↔◌, ◌<◌, ◌++◌, [], List, Bool, IsTrue, Some, None, is_some, length, slice_set, IfOk, IfSome, OnOk, OnErr};
ghost use Rattle.ht_tern.specs.declared.tern.Tern as tern;
ghost use Rattle.ht_net.specs.Detect.Detection.{IsStart};
ghost use Rattle.ht_faults.specs.Sites.{faults_of};
ghost use Rattle.ht_faults.specs.Classes.{AreClasses};
ghost use Rattle.ht_proofs.specs.Detections.{place_at};
ghost use Rattle.ht_texts.specs.Verdicts.{IsSayable};
ghost use Rattle.ht_proofs.specs.ClassGraderView.{ClassGraderStandsFor};
ghost use Rattle.ht_valid.specs.ValidFiles.{Content, IsJustified, IsOwn, said_by_kind};
ghost use Rattle.ht_verdicts.specs.Contents.{IsContentOf};
ghost use Rattle.ht_verdicts.specs.Kept.{kept_text};
ghost use Rattle.ht_verdicts.specs.Standing.{AllDecide, AreNone, Decides, HasNoVerdict, entry_at, said_by_entry};

use ht_entries::write_entry;
use ht_faults::{Classes, FaultList};
use ht_net::{Circuit, Vectors};
use ht_proofs::ClassGrader;
use ht_tern::Tern;
use ht_texts::Said;
use ht_tree::{Entry, EntryKind};
use std::alloc::{AllocError, Global};
use std::marker::Model;

/// What is known of each class: what the vectors so far detect, and the entries.
#[derive(Drop)]
pub struct Verdicts<'c> {
    circuit: &'c Circuit,
    classes: &'c Classes,
    start: &'c [Tern],
    grader: ClassGrader<'c>,
    // the entry of each fault, by number from 0
    entries: Vec<Option<Entry>>,
}

impl<'c> Model for Verdicts<'c> {
    ghost use Rattle.ht_verdicts.specs.Standing.{VerdictsView};
    ghost use Rattle.ht_verdicts.specs.StandingOf.{AreVerdicts, verdicts_view};

    ghost Value = { VerdictsView };

    ghost view = { verdicts_view };

    ghost invariant = { AreVerdicts };
}

// No fault has an entry.
fn no_entries(alloc: Global, count: u32) -> Result<Vec<Option<Entry>>, AllocError>
    ensures each { IfOk result (λ entries. length entries.items ≡ count) }
    ensures none { IfOk result (λ entries. AreNone entries.items) }
{
    let mut entries = Vec::with_capacity(alloc, count as usize)?;
    for fault in 0..count {
        entries.push(None)?;
    }
    Ok(entries)
}

// What is said of a fault by the kind of its entry.
fn said_by_kind(kind: EntryKind) -> Said
    ensures { result ≡ said_by_kind kind }
{
    match kind {
        EntryKind::Untestable => Said::Untestable,
        EntryKind::Undetectable => Said::Undetectable,
        EntryKind::Aborted => Said::Aborted,
    }
}

// What an entry says of a fault that no vectors detect.
fn said_by_entry(entry: &Option<Entry>) -> Said
    ensures { result ≡ said_by_entry entry.now }
{
    match entry {
        None => Said::Undetected,
        Some(entry) => said_by_kind(entry.kind()),
    }
}

impl<'c> Verdicts<'c> {
    /// No vectors and no entries, from a start.
    ///
    /// # Errors
    /// Out of memory.
    pub fn new(
        alloc: Global,
        circuit: &'c Circuit,
        faults: &FaultList,
        classes: &'c Classes,
        start: &'c [Tern],
    ) -> Result<Verdicts<'c>, AllocError>
        requires faults { faults.now ≡ faults_of circuit.now }
        requires classes { AreClasses circuit.now classes.now }
        requires latches { IsStart circuit.now start.now }
        ensures circuit { IfOk result (λ verdicts. verdicts.circuit ≡ circuit.now) }
        ensures classes { IfOk result (λ verdicts. verdicts.representatives ≡ classes.now) }
        ensures start { IfOk result (λ verdicts. verdicts.start ≡ start.now) }
        ensures stands { IfOk result
            (λ verdicts. ClassGraderStandsFor verdicts.grader start.now []) }
        ensures none { IfOk result (λ verdicts. AreNone verdicts.entries) }
    {
        let entries = no_entries(alloc, classes.len())?;
        match ClassGrader::new_from(alloc, circuit, faults, classes, start) {
            Ok(grader) => Ok(Verdicts {
                circuit,
                classes,
                start,
                grader,
                entries,
            }),
            Err(error) => Err(error),
        }
    }

    /// Adds vectors after those so far, whoever found them, and keeps what they detect from the start.
    ///
    /// # Errors
    /// Out of memory, or there would be more than 2^62 vectors; every later call of this fails.
    pub fn apply(&mut self, list: &Vectors) -> Result<(), AllocError>
        requires { list.now.width ≡ self.old.circuit.inputs }
        ensures added { OnOk result ((start : List tern.Tern) (before : List (List Bool))
            → ClassGraderStandsFor self.old.grader start before
            → ClassGraderStandsFor self.new.grader start (before ++ list.now.list)) }
        ensures rest { self.new ≡ record self.old { grader = self.new.grader } }
        ensures err { OnErr result (self.new.grader.places ≡ self.old.grader.places) }
    {
        self.grader.apply(list)
    }

    /// Keeps an entry that decides a fault, by its number from 0.
    pub fn enter(&mut self, fault: u32, entry: Entry)
        requires inside { fault < length self.old.representatives }
        requires decides { Decides self.old.circuit self.old.representatives self.old.start
            fault entry }
        ensures { self.new
            ≡ record self.old { entries = slice_set self.old.entries fault (Some entry) } }
    {
        self.entries[fault as usize] = Some(entry);
    }

    /// The grader of all vectors so far, to be asked for detections and states.
    pub fn grader(&self) -> &ClassGrader<'c>
        ensures same { result.now ≡ self.now.grader }
        ensures circuit { self.now.grader.machines.circuit ≡ self.now.circuit }
        ensures classes { self.now.grader.representatives ≡ self.now.representatives }
    {
        &self.grader
    }

    /// Whether a representative is open: the vectors so far don't detect it, and it has no entry.
    pub fn is_open(&self, fault: u32) -> bool
        requires { IsOwn self.now.circuit self.now.representatives fault }
        ensures { IsTrue result ↔ HasNoVerdict self.now fault }
    {
        if self.grader.verdict(fault).is_some() {
            return false;
        }
        match self.entries.get(fault as usize) {
            Some(entry) => entry.is_none(),
            None => true,
        }
    }

    /// What is to be said of a representative: its first detection by the vectors so far, else what its entry says, and
    /// undetected where it has none.
    pub fn said(&self, fault: u32) -> Said
        requires { IsOwn self.now.circuit self.now.representatives fault }
        ensures detected { IfSome (place_at self.now.grader.places fault)
            (λ place. result ≡ Said.Detected place) }
        ensures undetected { place_at self.now.grader.places fault ≡ None
            → result ≡ said_by_entry (entry_at self.now fault) }
        ensures sayable { IsSayable self.now.circuit result }
    {
        match self.grader.verdict(fault) {
            Some(place) => Said::Detected(place),
            None => match self.entries.get(fault as usize) {
                Some(entry) => said_by_entry(entry),
                None => Said::Undetected,
            },
        }
    }

    /// Whether a fault has an entry, by its number from 0.
    pub fn has_entry(&self, fault: u32) -> bool
        ensures { result ≡ is_some (entry_at self.now fault) }
    {
        match self.entries.get(fault as usize) {
            Some(entry) => entry.is_some(),
            None => false,
        }
    }

    /// The lines that the entry of a fault has in the proofs, by its number from 0; none where it has no entry.
    ///
    /// # Errors
    /// Out of memory; so it is also where the fault has the number 2^32 - 1, which no circuit's has.
    pub fn entry_text(&self, alloc: Global, fault: u32) -> Result<Vec<u8>, AllocError>
        ensures { IfOk result (λ text. text.items ≡ kept_text fault (entry_at self.now fault)) }
    {
        if fault == u32::MAX {
            return Err(AllocError);
        }
        match self.entries.get(fault as usize) {
            Some(Some(entry)) => write_entry(alloc, fault + 1, entry),
            Some(None) => Ok(Vec::new(alloc)),
            None => Ok(Vec::new(alloc)),
        }
    }

    /// A law: there is room for an entry of each fault, and each entry that is kept decides its fault.
    pub fn entries_decide(&self)
        ensures room { length self.now.entries ≡ length self.now.representatives }
        ensures decide { AllDecide self.now }
        ensures classes { AreClasses self.now.circuit self.now.representatives }
        ensures latches { IsStart self.now.circuit self.now.start }
    {
        // for the proof: each entry that is kept decides its fault
        let _ = &self.entries;
    }

    /// A law: what files say is justified where they say what the verdicts do.
    pub fn are_justified(&self)
        ensures { (content : Content) → IsContentOf self.now content
            → IsJustified self.now.circuit self.now.representatives content }
    {
        // for the proof: each entry that is kept decides its fault
        let _ = &self.entries;
    }
}
