//! The commands: the names of their arguments, and how each is read.
ghost use Rattle.std.specs.Prelude.{◌≡◌, option_and_then, option_map};
ghost use Rattle.clap.specs.Words.{found_of, rows_of};
ghost use Rattle.ht_asked.specs.ByClap.{app_with, asked_in_rows};
ghost use Rattle.ht_asked.specs.Commands.{command_named, command_of};
ghost use Rattle.ht_asked.specs.Table as kind;
ghost use Rattle.ht_words.specs.Arguments.{arguments_form};
ghost use Rattle.ht_words.specs.Jobs.{IsAnswer, demo_in};

use crate::job::{BreedFiles, BreedOptions, Job, WordsFault, gen_options, run_files};
use crate::number::{bred, budget, fault_number, runs, seed, size, wanted_number};
use crate::value::{is_set, optional_value, value};
use clap::ArgMatches;
use ht_asked::MAX_SEED;
use std::alloc::Global;

/// The names of a command's arguments: the positionals in their order, each of them wanted, the options, and the flags.
#[derive(Clone, Copy)]
pub struct Arguments {
    /// The positionals.
    pub positionals: &'static [&'static str],
    /// The options, each with a value.
    pub options: &'static [&'static str],
    /// The flags, which have none.
    pub flags: &'static [&'static str],
}

/// The arguments of the command that the word names, in lower case.
pub fn arguments_of(word: &str) -> Option<Arguments>
    ensures { option_map (λ a. app_with word.now (arguments_form a)) result
        ≡ option_map (λ c. app_with c.name c.form) (command_named word.now) }
{
    let tests_out: &[&str] = &["netlist", "tests", "out"];
    let (positionals, options, flags): (&[&str], &[&str], &[&str]) = match word {
        "sim" => (&["netlist", "tests", "report"], &["start"], &[]),
        "gen" => (
            &["netlist", "tests", "report", "proofs"],
            &[
                "budget", "random", "seed", "start", "first", "faults", "weighted", "search",
                "work",
            ],
            &[],
        ),
        "check" => (&["netlist", "tests", "report", "proofs"], &["start"], &[]),
        "norm" => (&["netlist", "out"], &[], &[]),
        "demo" => (&["size", "seed"], &[], &[]),
        "compact" => (tests_out, &["runs"], &[]),
        "diagnose" => (&["netlist", "tests", "responses", "out"], &[], &[]),
        "uninit" => (&["netlist", "out"], &["budget"], &[]),
        "sync" => (tests_out, &["budget"], &[]),
        "respond" => (tests_out, &["fault", "start"], &["lines"]),
        "report" => (
            &["netlist", "tests", "proofs", "report"],
            &["budget", "start"],
            &[],
        ),
        "breed" => (tests_out, &["vectors", "seed", "start"], &[]),
        "causes" => (tests_out, &["start"], &[]),
        _ => return None,
    };
    Some(Arguments {
        positionals,
        options,
        flags,
    })
}

/// The job of the command that the word names, by the values that `clap` found.
pub fn job(alloc: Global, word: &str, matches: &ArgMatches<'_>) -> Result<Job, WordsFault>
    ensures { IsAnswer (option_and_then
        (λ c. asked_in_rows c (rows_of (found_of matches.now))) (command_named word.now)) result }
{
    match word {
        "sim" => sim_job(alloc, matches),
        "gen" => gen_job(alloc, matches),
        "check" => check_job(alloc, matches),
        "norm" => norm_job(alloc, matches),
        "demo" => demo_job(matches),
        "compact" => compact_job(alloc, matches),
        "diagnose" => diagnose_job(alloc, matches),
        "uninit" => uninit_job(alloc, matches),
        "sync" => sync_job(alloc, matches),
        "respond" => respond_job(alloc, matches),
        "report" => report_job(alloc, matches),
        "breed" => breed_job(alloc, matches),
        "causes" => causes_job(alloc, matches),
        _ => Err(WordsFault::Usage),
    }
}

// A job with the values of the arguments of these names, and with what is known of the others.
macro_rules! with_values {
    ($alloc:expr, $matches:expr => $made:ident { $($file:ident),+ $(; $($known:ident),+)? }) => {{
        $(let $file = value($alloc, $matches, stringify!($file))?;)+
        Ok(Job::$made { $($file,)+ $($($known,)+)? })
    }};
}

// The job of `sim`.
fn sim_job(alloc: Global, matches: &ArgMatches<'_>) -> Result<Job, WordsFault>
    ensures { IsAnswer (asked_in_rows (command_of kind.sim) (rows_of (found_of matches.now)))
        result }
{
    let start = optional_value(alloc, matches, "start")?;
    with_values!(alloc, matches => Sim { netlist, tests, report; start })
}

// The job of `gen`.
fn gen_job(alloc: Global, matches: &ArgMatches<'_>) -> Result<Job, WordsFault>
    ensures { IsAnswer (asked_in_rows (command_of kind.gen) (rows_of (found_of matches.now)))
        result }
{
    let options = gen_options(alloc, matches)?;
    let files = run_files(alloc, matches)?;
    Ok(Job::Gen { files, options })
}

// The job of `check`.
fn check_job(alloc: Global, matches: &ArgMatches<'_>) -> Result<Job, WordsFault>
    ensures { IsAnswer (asked_in_rows (command_of kind.check) (rows_of (found_of matches.now)))
        result }
{
    let start = optional_value(alloc, matches, "start")?;
    let files = run_files(alloc, matches)?;
    Ok(Job::Check { files, start })
}

// The job of `norm`.
fn norm_job(alloc: Global, matches: &ArgMatches<'_>) -> Result<Job, WordsFault>
    ensures { IsAnswer (asked_in_rows (command_of kind.norm) (rows_of (found_of matches.now)))
        result }
{
    with_values!(alloc, matches => Norm { netlist, out })
}

// The job of `demo`.
fn demo_job(matches: &ArgMatches<'_>) -> Result<Job, WordsFault>
    ensures { IsAnswer (demo_in (rows_of (found_of matches.now))) result }
{
    Ok(Job::Demo {
        size: size(matches)?,
        seed: wanted_number(matches, "seed", 0, MAX_SEED)?,
    })
}

// The job of `compact`.
fn compact_job(alloc: Global, matches: &ArgMatches<'_>) -> Result<Job, WordsFault>
    ensures { IsAnswer (asked_in_rows (command_of kind.compact) (rows_of (found_of matches.now)))
        result }
{
    let runs = runs(matches)?;
    with_values!(alloc, matches => Compact { netlist, tests, out; runs })
}

// The job of `diagnose`.
fn diagnose_job(alloc: Global, matches: &ArgMatches<'_>) -> Result<Job, WordsFault>
    ensures { IsAnswer (asked_in_rows (command_of kind.diagnose) (rows_of (found_of matches.now)))
        result }
{
    with_values!(alloc, matches => Diagnose { netlist, tests, responses, out })
}

// The job of `uninit`.
fn uninit_job(alloc: Global, matches: &ArgMatches<'_>) -> Result<Job, WordsFault>
    ensures { IsAnswer (asked_in_rows (command_of kind.uninit) (rows_of (found_of matches.now)))
        result }
{
    let budget = budget(matches)?;
    with_values!(alloc, matches => Uninit { netlist, out; budget })
}

// The job of `sync`.
fn sync_job(alloc: Global, matches: &ArgMatches<'_>) -> Result<Job, WordsFault>
    ensures { IsAnswer (asked_in_rows (command_of kind.sync) (rows_of (found_of matches.now)))
        result }
{
    let budget = budget(matches)?;
    with_values!(alloc, matches => Sync { netlist, tests, out; budget })
}

// The job of `respond`.
fn respond_job(alloc: Global, matches: &ArgMatches<'_>) -> Result<Job, WordsFault>
    ensures { IsAnswer (asked_in_rows (command_of kind.respond) (rows_of (found_of matches.now)))
        result }
{
    let fault = fault_number(matches)?;
    let lines = is_set(matches, "lines");
    let start = optional_value(alloc, matches, "start")?;
    with_values!(alloc, matches => Respond { netlist, tests, out; fault, start, lines })
}

// The job of `report`.
fn report_job(alloc: Global, matches: &ArgMatches<'_>) -> Result<Job, WordsFault>
    ensures { IsAnswer (asked_in_rows (command_of kind.report) (rows_of (found_of matches.now)))
        result }
{
    let budget = budget(matches)?;
    let start = optional_value(alloc, matches, "start")?;
    let files = run_files(alloc, matches)?;
    Ok(Job::Report {
        files,
        budget,
        start,
    })
}

// The job of `breed`.
fn breed_job(alloc: Global, matches: &ArgMatches<'_>) -> Result<Job, WordsFault>
    ensures { IsAnswer (asked_in_rows (command_of kind.breed) (rows_of (found_of matches.now)))
        result }
{
    let vectors = bred(matches)?;
    let seed = seed(matches)?;
    let start = optional_value(alloc, matches, "start")?;
    let options = BreedOptions {
        vectors,
        seed,
        start,
    };
    let files = BreedFiles {
        netlist: value(alloc, matches, "netlist")?,
        tests: value(alloc, matches, "tests")?,
        out: value(alloc, matches, "out")?,
    };
    Ok(Job::Breed { files, options })
}

// The job of `causes`.
fn causes_job(alloc: Global, matches: &ArgMatches<'_>) -> Result<Job, WordsFault>
    ensures { IsAnswer (asked_in_rows (command_of kind.causes) (rows_of (found_of matches.now)))
        result }
{
    let start = optional_value(alloc, matches, "start")?;
    with_values!(alloc, matches => Causes { netlist, tests, out; start })
}
