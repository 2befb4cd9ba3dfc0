//! The values of the arguments, as `clap` found them.
ghost use Rattle.std.specs.Prelude.{◌≡◌, ◌≢◌, IfOk, is_some, option_map};
ghost use Rattle.clap.specs.Words.{first_of, found_of, rows_of};
ghost use Rattle.ht_asked.specs.Forms.{set_text};
ghost use Rattle.ht_words.specs.Jobs.{Hears};
ghost use Rattle.ht_words.specs.declared.job.WordsFault.TheVariants as fault;

use crate::file_name::FileName;
use crate::job::WordsFault;
use clap::ArgMatches;
use std::alloc::Global;

/// The text of an argument, if it is given.
pub fn given_text<'a>(matches: &ArgMatches<'a>, id: &str) -> Option<&'a str>
    ensures { option_map (λ text. text.now) result
        ≡ first_of id.now (rows_of (found_of matches.now)) }
{
    matches.get_str(id)
}

/// The file name of an option, if it is given.
pub fn optional_value(
    alloc: Global,
    matches: &ArgMatches<'_>,
    id: &str,
) -> Result<Option<FileName>, WordsFault>
    ensures usage { result ≢ Err fault.Usage }
    ensures ok { IfOk result (λ name. first_of id.now (rows_of (found_of matches.now)) ≡ name) }
{
    match given_text(matches, id) {
        Some(text) => Ok(Some(FileName::new(String::from_str(alloc, text)?))),
        None => Ok(None),
    }
}

/// The file name of an argument that has to be there.
pub fn value(alloc: Global, matches: &ArgMatches<'_>, id: &str) -> Result<FileName, WordsFault>
    ensures { Hears (first_of id.now (rows_of (found_of matches.now))) result }
{
    optional_value(alloc, matches, id)?.ok_or(WordsFault::Usage)
}

/// Whether a flag is given: then its text is `true`.
pub fn is_set(matches: &ArgMatches<'_>, id: &str) -> bool
    ensures { result ≡ is_some (set_text (first_of id.now (rows_of (found_of matches.now)))) }
{
    match given_text(matches, id) {
        Some(text) => text == "true",
        None => false,
    }
}
