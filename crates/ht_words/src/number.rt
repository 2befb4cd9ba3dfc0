//! Numbers among the words: as their text, and as the values that `clap` found.
ghost use Rattle.std.specs.Prelude.{codes, option_and_then};
ghost use Rattle.clap.specs.Words.{first_of, found_of, rows_of};
ghost use Rattle.ht_asked.specs.Commands.{bred_of, budget_of, fault_of, number_if, random_of, runs_of, seed_of, work_of};
ghost use Rattle.ht_asked.specs.declared.limits.TheConstants as limit;
ghost use Rattle.ht_asked.specs.Numbers.{number_in, number_or};
ghost use Rattle.ht_words.specs.Jobs.{Hears};

use crate::job::WordsFault;
use crate::value::given_text;
use clap::ArgMatches;
use ht_asked::{
    DEFAULT_BRED, DEFAULT_BUDGET, DEFAULT_RANDOM, DEFAULT_SEED, DEFAULT_WORK, MAX_BRED, MAX_BUDGET,
    MAX_FAULT, MAX_RANDOM, MAX_RUN, MAX_SEED, MAX_SIZE, MAX_WORK, MIN_BUDGET, MIN_FAULT, MIN_RUN,
    MIN_SIZE, MIN_WORK,
};

/// The number that the text writes in the digits `0` to `9` and nothing else, where it is one from the least to the
/// most. Leading zeros don't matter.
fn read_number(text: &str, least: u64, most: u64) -> Result<u64, WordsFault>
    ensures { Hears (number_in least most text.now) result }
{
    // `parse` takes a plus, and a word of digits has none.
    if text.starts_with('+') {
        return Err(WordsFault::Usage);
    }
    let Ok(number) = text.parse::<u64>() else {
        return Err(WordsFault::Usage);
    };
    if number < least || number > most {
        return Err(WordsFault::Usage);
    }
    Ok(number)
}

/// The number of an argument that has to be there.
pub fn wanted_number(
    matches: &ArgMatches<'_>,
    id: &str,
    least: u64,
    most: u64,
) -> Result<u64, WordsFault>
    ensures { Hears (option_and_then (number_in least most)
        (first_of id.now (rows_of (found_of matches.now)))) result }
{
    match given_text(matches, id) {
        Some(text) => read_number(text, least, most),
        None => Err(WordsFault::Usage),
    }
}

/// The number of an option, or the default where it is left out.
fn number_or_default(
    matches: &ArgMatches<'_>,
    id: &str,
    default: u64,
    least: u64,
    most: u64,
) -> Result<u64, WordsFault>
    ensures { Hears (number_or default least most
        (first_of id.now (rows_of (found_of matches.now)))) result }
{
    match given_text(matches, id) {
        Some(text) => read_number(text, least, most),
        None => Ok(default),
    }
}

/// The budget of each search.
pub fn budget(matches: &ArgMatches<'_>) -> Result<u64, WordsFault>
    ensures { Hears (budget_of (first_of (codes "budget") (rows_of (found_of matches.now))))
        result }
{
    number_or_default(matches, "budget", DEFAULT_BUDGET, MIN_BUDGET, MAX_BUDGET)
}

/// How many random vectors come first, or how many weighted ones after them, as the option of this name says.
pub fn random(matches: &ArgMatches<'_>, id: &str) -> Result<u32, WordsFault>
    ensures { Hears (random_of (first_of id.now (rows_of (found_of matches.now)))) result }
{
    let number = number_or_default(matches, id, DEFAULT_RANDOM, 0, MAX_RANDOM)?;
    Ok(number as u32)
}

/// How many vectors are bred at most.
pub fn bred(matches: &ArgMatches<'_>) -> Result<u32, WordsFault>
    ensures { Hears (bred_of (first_of (codes "vectors") (rows_of (found_of matches.now)))) result }
{
    let number = number_or_default(matches, "vectors", DEFAULT_BRED, 0, MAX_BRED)?;
    Ok(number as u32)
}

/// The seed of the random, the weighted and the bred vectors.
pub fn seed(matches: &ArgMatches<'_>) -> Result<u64, WordsFault>
    ensures { Hears (seed_of (first_of (codes "seed") (rows_of (found_of matches.now)))) result }
{
    number_or_default(matches, "seed", DEFAULT_SEED, 0, MAX_SEED)
}

/// The work of a full search.
pub fn work(matches: &ArgMatches<'_>) -> Result<u64, WordsFault>
    ensures { Hears (work_of (first_of (codes "work") (rows_of (found_of matches.now)))) result }
{
    number_or_default(matches, "work", DEFAULT_WORK, MIN_WORK, MAX_WORK)
}

// The number of an option, or none where it is left out.
fn number_if_given(
    matches: &ArgMatches<'_>,
    id: &str,
    least: u64,
    most: u64,
) -> Result<Option<u64>, WordsFault>
    ensures { Hears (number_if least most (first_of id.now (rows_of (found_of matches.now))))
        result }
{
    match given_text(matches, id) {
        Some(text) => Ok(Some(read_number(text, least, most)?)),
        None => Ok(None),
    }
}

/// The number of a fault, if one is given.
pub fn fault_number(matches: &ArgMatches<'_>) -> Result<Option<u32>, WordsFault>
    ensures { Hears (fault_of (first_of (codes "fault") (rows_of (found_of matches.now)))) result }
{
    match given_text(matches, "fault") {
        Some(text) => Ok(Some(read_number(text, MIN_FAULT, MAX_FAULT)? as u32)),
        None => Ok(None),
    }
}

/// The longest run of vectors that is left out at once, if it is given.
pub fn runs(matches: &ArgMatches<'_>) -> Result<Option<u64>, WordsFault>
    ensures { Hears (runs_of (first_of (codes "runs") (rows_of (found_of matches.now)))) result }
{
    number_if_given(matches, "runs", MIN_RUN, MAX_RUN)
}

/// The size of a demonstration netlist.
pub fn size(matches: &ArgMatches<'_>) -> Result<u32, WordsFault>
    ensures { Hears (option_and_then (number_in limit.MIN_SIZE limit.MAX_SIZE)
        (first_of (codes "size") (rows_of (found_of matches.now)))) result }
{
    let number = wanted_number(matches, "size", MIN_SIZE, MAX_SIZE)?;
    Ok(number as u32)
}
