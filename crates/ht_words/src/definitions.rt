//! One `clap` command for each command of the program.
ghost use Rattle.std.specs.Prelude.{◌≡◌, IfOk, IfSome, false, map, option_map, true};
ghost use Rattle.clap.specs.Walk.{texts};
ghost use Rattle.clap.specs.Words.{app_of, is_simple_and_free, rule_of};
ghost use Rattle.ht_asked.specs.Commands.{command_named};
ghost use Rattle.ht_asked.specs.ByClap.{app_named, app_with};
ghost use Rattle.ht_words.specs.Arguments.{arguments_form, rule_for, with_rules};

use crate::commands::{Arguments, arguments_of};
use clap::{Arg, ArgAction, Command};
use std::alloc::{AllocError, Global};

/// How an argument stands among the words.
#[derive(Clone, Copy)]
pub enum ArgumentKind {
    /// At its place; it has to be there.
    Positional,
    /// After its name, where it may be left out.
    Option,
    /// By its name alone, which may be left out.
    Flag,
}

// A command that takes no request for help or for a version.
fn plain_command<'a>(alloc: Global, name: &'a str) -> Command<'a>
    ensures { app_of result ≡ app_named name.entry.now }
{
    Command::new(alloc, name)
        .disable_help_flag(true)
        .disable_version_flag(true)
}

// A positional argument that has to be there, an option with one value, or a flag; either may be left out.
fn argument<'a>(alloc: Global, id: &'a str, kind: ArgumentKind) -> Arg<'a>
    ensures rule { rule_of result ≡ rule_for kind id.entry.now }
    ensures local { result.global ≡ false }
{
    match kind {
        ArgumentKind::Positional => Arg::new(alloc, id).required(true),
        ArgumentKind::Option => Arg::new(alloc, id).long(id),
        ArgumentKind::Flag => Arg::new(alloc, id).long(id).action(ArgAction::SetTrue),
    }
}

// The command with these arguments after its own.
fn with_arguments<'a>(
    alloc: Global,
    command: Command<'a>,
    ids: &[&'a str],
    kind: ArgumentKind,
) -> Result<Command<'a>, AllocError>
    ensures { IfOk result (λ c. app_of c
        ≡ with_rules (app_of command.entry) (map (rule_for kind) (texts ids.now))) }
{
    let mut command = command;
    for id in ids {
        command = command.arg(argument(alloc, id, kind))?;
    }
    Ok(command)
}

// The command of this name with these arguments.
fn command_with<'a>(
    alloc: Global,
    name: &'a str,
    arguments: Arguments,
) -> Result<Command<'a>, AllocError>
    ensures { IfOk result (λ c. app_of c ≡ app_with name.entry.now (arguments_form arguments)) }
{
    let command = with_arguments(
        alloc,
        plain_command(alloc, name),
        arguments.positionals,
        ArgumentKind::Positional,
    )?;
    let command = with_arguments(alloc, command, arguments.options, ArgumentKind::Option)?;
    with_arguments(alloc, command, arguments.flags, ArgumentKind::Flag)
}

/// The definition of the command that the word names, in lower case.
pub fn definition<'a>(alloc: Global, word: &'a str) -> Result<Option<Command<'a>>, AllocError>
    ensures named { IfOk result (λ found. option_map app_of found
        ≡ option_map (λ c. app_with c.name c.form) (command_named word.entry.now)) }
    ensures simple { IfOk result
        (λ found. IfSome found (λ c. is_simple_and_free (app_of c) ≡ true)) }
{
    let Some(arguments) = arguments_of(word) else {
        return Ok(None);
    };
    Ok(Some(command_with(alloc, word, arguments)?))
}
