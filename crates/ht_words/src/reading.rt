//! From words to a job.
ghost use Rattle.std.specs.Prelude.{◌≡◌, IfOk, false, true};
ghost use Rattle.clap.specs.Words.{app_of, found_of, is_simple_and_free, matches_of, rows_of};
ghost use Rattle.ht_asked.specs.Commands.{asked, words_of};
ghost use Rattle.ht_asked.specs.ByClap.{asked_by_clap, is_taken};
ghost use Rattle.ht_words.specs.Jobs.{IsAnswer};
ghost use Rattle.ht_words.specs.declared.job.WordsFault.TheVariants as fault;

use crate::commands::job;
use crate::definitions::definition;
use crate::job::{Job, WordsFault};
use clap::error::ErrorKind;
use clap::{ArgMatches, Command};
use std::alloc::Global;

/// The job that the words ask for: the words after the program's name, of which the first names the command, in lower
/// case.
///
/// # Errors
/// - `Usage`: only where the words have no command's form.
/// - `NoMemory`: out of memory.
pub fn command(alloc: Global, words: &[String]) -> Result<Job, WordsFault>
    ensures answer { IsAnswer (asked (words_of words.now)) result }
    // `clap` takes the words by its definitions of the commands exactly where they ask for a job in plain steps.
    ensures by_clap { asked (words_of words.now) ≡ asked_by_clap (words_of words.now) }
{
    let Some(first) = words.first() else {
        return Err(WordsFault::Usage);
    };
    let word = first.as_str();
    let Some(definition) = definition(alloc, word)? else {
        return Err(WordsFault::Usage);
    };
    let matches = matches_for(definition, words)?;
    job(alloc, word, &matches)
}

// How `clap` reads the words.
fn matches_for<'a>(command: Command<'a>, words: &'a [String]) -> Result<ArgMatches<'a>, WordsFault>
    requires { is_simple_and_free (app_of command) ≡ true }
    ensures usage { result ≡ Err fault.Usage → is_taken (app_of command.entry)
        (words_of words.entry.now) ≡ false }
    ensures taken { IfOk result (λ m. is_taken (app_of command.entry) (words_of words.entry.now)
        ≡ true) }
    ensures rows { IfOk result
        (λ m. rows_of (found_of m) ≡ matches_of (app_of command.entry) (words_of words.entry.now)) }
{
    match command.try_get_matches_from(words) {
        Ok(matches) => Ok(matches),
        Err(error) if error.kind() == ErrorKind::OutOfMemory => Err(WordsFault::NoMemory),
        Err(_) => Err(WordsFault::Usage),
    }
}
