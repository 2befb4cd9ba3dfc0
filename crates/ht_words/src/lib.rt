//! The words of the command line, read by `clap`: which of them ask for which job.
//!
//! The table of the commands is ht_asked's (`specs/Table`); `commands` has it for `clap`, and reads the job of each. The
//! first word names the command, in lower case. An option stands anywhere after it, at most once, with its value in the
//! next word or after `=`. A number has digits alone. Any other word that begins with a hyphen and has more after it is
//! refused, as is a request for help or for a version; `-` alone is a name like any other. The first `--` is left out, and
//! after it each word is a name, or the size or the seed of `demo`.
//!
//! The contract of `command` cites `asked` (ht_asked), which says the same in plain steps and is proved to be `clap`'s
//! own reading.
#![tactic(auto)]

mod commands;
mod definitions;
mod file_name;
mod job;
mod number;
mod reading;
mod value;

pub use file_name::FileName;
pub use job::{BreedFiles, BreedOptions, GenOptions, Job, RunFiles, WordsFault};
pub use reading::command;
