//! What words ask for, and how what several files and options say is read.
ghost use Rattle.std.specs.Prelude.{◌≡◌, IfOk, codes};
ghost use Rattle.clap.specs.Words.{first_of, found_of, rows_of};
ghost use Rattle.ht_asked.specs.Commands.{depth_of};
ghost use Rattle.ht_words.specs.Jobs.{IsReadAs, Hears, files_in, numbers_by, numbers_in, run_names};
ghost use Rattle.ht_words.specs.declared.job.WordsFault.TheVariants as fault;

use crate::file_name::FileName;
use crate::number::{budget, random, seed, work};
use crate::value::{given_text, optional_value, value};
use clap::ArgMatches;
use ht_asked::Depth;
use std::alloc::{AllocError, Global};
use thiserror::Error;

/// The names of a netlist and of the three files of a search for it.
#[derive(Debug, Drop)]
pub struct RunFiles {
    /// The netlist.
    pub netlist: FileName,
    /// The tests.
    pub tests: FileName,
    /// The report.
    pub report: FileName,
    /// The entries of the faults for which no test is found.
    pub proofs: FileName,
}

/// What the options of `gen` say.
#[derive(Debug, Drop)]
pub struct GenOptions {
    /// The budget of each search, 1 to 100,000.
    pub budget: u64,
    /// How many random vectors come first, 0 to 100,000.
    pub random: u32,
    /// The seed of the random and the weighted vectors.
    pub seed: u64,
    /// The start to read, if one is stated.
    pub start: Option<FileName>,
    /// The user's first vectors to read, if there are any; they come before the random ones.
    pub first: Option<FileName>,
    /// The numbers of the faults to read that are worked on; without them all are.
    pub faults: Option<FileName>,
    /// How many weighted vectors come after the random ones, 0 to 100,000.
    pub weighted: u32,
    /// How far the search goes.
    pub depth: Depth,
    /// The work of a full search, 1 to 1,000,000.
    pub work: u64,
}

/// The names of the files of `breed`.
#[derive(Debug, Drop)]
pub struct BreedFiles {
    /// The netlist to read.
    pub netlist: FileName,
    /// The tests to read.
    pub tests: FileName,
    /// The tests to write.
    pub out: FileName,
}

/// What the options of `breed` say.
#[derive(Debug, Drop)]
pub struct BreedOptions {
    /// How many vectors are bred at most, 0 to 100,000.
    pub vectors: u32,
    /// The seed of the bred vectors.
    pub seed: u64,
    /// The start to read, if one is stated.
    pub start: Option<FileName>,
}

/// A command with the names of its files, and with its numbers.
#[derive(Debug, Drop)]
pub enum Job {
    /// Runs the tests on the netlist, and reports each fault.
    Sim {
        /// The netlist to read.
        netlist: FileName,
        /// The tests to read.
        tests: FileName,
        /// The report to write.
        report: FileName,
        /// The start to read, if one is stated.
        start: Option<FileName>,
    },
    /// Generates tests for the netlist, and reports each fault.
    Gen {
        /// The netlist to read, and the files to write.
        files: RunFiles,
        /// What the options say.
        options: GenOptions,
    },
    /// Judges the tests, the report and the proofs that a search wrote.
    Check {
        /// The files to read.
        files: RunFiles,
        /// The start to read, if one is stated.
        start: Option<FileName>,
    },
    /// Writes the netlist in its normal form.
    Norm {
        /// The netlist to read.
        netlist: FileName,
        /// The normal netlist to write.
        out: FileName,
    },
    /// Makes a netlist from a size and a seed, and generates tests for it; no file is written.
    Demo {
        /// How many gates the netlist has, 1 to 20,000.
        size: u32,
        /// The seed of the netlist and of the random vectors.
        seed: u64,
    },
    /// Leaves out the tests that the netlist's faults don't need.
    Compact {
        /// The netlist to read.
        netlist: FileName,
        /// The tests to read.
        tests: FileName,
        /// The compacted tests to write.
        out: FileName,
        /// The longest run of tests that is left out at once, 1 to 64; without it one test, of few tests.
        runs: Option<u64>,
    },
    /// Says which of the netlist's faults aren't contradicted by the responses to the tests.
    Diagnose {
        /// The netlist to read.
        netlist: FileName,
        /// The tests to read.
        tests: FileName,
        /// The responses to read.
        responses: FileName,
        /// The diagnosis to write.
        out: FileName,
    },
    /// Finds flip-flops of the netlist that never get a definite value, and faults that they hide.
    Uninit {
        /// The netlist to read.
        netlist: FileName,
        /// The record to write.
        out: FileName,
        /// The budget of each search, 1 to 100,000.
        budget: u64,
    },
    /// Finds a shortest list of vectors after which every flip-flop of the netlist has a definite value.
    Sync {
        /// The netlist to read.
        netlist: FileName,
        /// The list to write.
        tests: FileName,
        /// The record to write.
        out: FileName,
        /// The budget of all lengths together, 1 to 100,000.
        budget: u64,
    },
    /// Says what a machine shows over the tests.
    Respond {
        /// The netlist to read.
        netlist: FileName,
        /// The tests to read.
        tests: FileName,
        /// The responses to write.
        out: FileName,
        /// The number of the machine's fault, from 1; without one it is the good machine.
        fault: Option<u32>,
        /// The start to read, if one is stated.
        start: Option<FileName>,
        /// Whether it is shown at each net, in place of the outputs.
        lines: bool,
    },
    /// Writes the tests, and then vectors that are bred after them.
    Breed {
        /// The netlist and the tests to read, and the tests to write.
        files: BreedFiles,
        /// What the options say.
        options: BreedOptions,
    },
    /// Writes the report that the tests and the proofs justify.
    Report {
        /// The netlist, the tests and the proofs to read, and the report to write.
        files: RunFiles,
        /// The budget of each search in the proofs, 1 to 100,000.
        budget: u64,
        /// The start to read, if one is stated.
        start: Option<FileName>,
    },
    /// Says why the tests don't detect each fault of the netlist.
    Causes {
        /// The netlist to read.
        netlist: FileName,
        /// The tests to read.
        tests: FileName,
        /// The report to write.
        out: FileName,
        /// The start to read, if one is stated.
        start: Option<FileName>,
    },
}

/// Why words are no job.
#[derive(Clone, Copy, Debug, PartialEq, Eq, Error)]
pub enum WordsFault {
    /// The words have no command's form.
    #[error("the words have no command's form")]
    Usage,
    /// Out of memory.
    #[error("out of memory")]
    NoMemory,
}

impl From<AllocError> for WordsFault {
    ghost from_gives = { λ _ e. e ≡ fault.NoMemory };

    fn from(_: AllocError) -> WordsFault {
        WordsFault::NoMemory
    }
}

/// The names of the files of a run.
pub fn run_files(alloc: Global, matches: &ArgMatches<'_>) -> Result<RunFiles, WordsFault>
    ensures { IsReadAs (files_in (rows_of (found_of matches.now))) run_names result }
{
    let netlist = value(alloc, matches, "netlist")?;
    let tests = value(alloc, matches, "tests")?;
    let report = value(alloc, matches, "report")?;
    let proofs = value(alloc, matches, "proofs")?;
    Ok(RunFiles {
        netlist,
        tests,
        report,
        proofs,
    })
}

/// The options of `gen`. The numbers are asked first, while nothing is owned.
pub fn gen_options(alloc: Global, matches: &ArgMatches<'_>) -> Result<GenOptions, WordsFault>
    ensures numbers { IsReadAs (numbers_in (rows_of (found_of matches.now))) numbers_by result }
    ensures start { IfOk result
        (λ o. first_of (codes "start") (rows_of (found_of matches.now)) ≡ o.start) }
    ensures first { IfOk result
        (λ o. first_of (codes "first") (rows_of (found_of matches.now)) ≡ o.first) }
    ensures faults { IfOk result
        (λ o. first_of (codes "faults") (rows_of (found_of matches.now)) ≡ o.faults) }
{
    let budget = budget(matches)?;
    let random_count = random(matches, "random")?;
    let seed = seed(matches)?;
    let weighted = random(matches, "weighted")?;
    let depth = depth(matches)?;
    let work = work(matches)?;
    Ok(GenOptions {
        budget,
        random: random_count,
        seed,
        start: optional_value(alloc, matches, "start")?,
        first: optional_value(alloc, matches, "first")?,
        faults: optional_value(alloc, matches, "faults")?,
        weighted,
        depth,
        work,
    })
}

// How far the search goes: the option's value is `plain`, `deep` or `full`.
fn depth(matches: &ArgMatches<'_>) -> Result<Depth, WordsFault>
    ensures { Hears (depth_of (first_of (codes "search") (rows_of (found_of matches.now)))) result }
{
    let Some(text) = given_text(matches, "search") else {
        return Ok(Depth::Plain);
    };
    match text {
        "plain" => Ok(Depth::Plain),
        "deep" => Ok(Depth::Deep),
        "full" => Ok(Depth::Full),
        _ => Err(WordsFault::Usage),
    }
}
