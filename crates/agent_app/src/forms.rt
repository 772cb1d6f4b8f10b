//! The forms of the command line, as `clap` reads them.
ghost use Rattle.std.specs.Prelude.{◌≡◌, ◌≤◌, map, false, true, IfOk, IfErr};
ghost use Rattle.clap.specs.declared.builder.command.Command.TheViews.{out-Command};
ghost use Rattle.clap.specs.Words.{app_of, fault_of, subcommand_of, subcommand_rows_of, FailsBy};
ghost use Rattle.agent_app.specs.Forms.{forms, program, with_words};

use clap::{Arg, ArgAction, ArgMatches, Command, Error};
use std::alloc::{AllocError, Global};

/// A command with `least` to `most` words behind its name.
fn with_words<'a>(
    alloc: Global,
    name: &'a str,
    least: usize,
    most: usize,
) -> Result<Command<'a>, AllocError>
    requires { least ≤ most }
    ensures app { IfOk result (λ command. app_of command ≡ with_words name.entry.now least most) }
    ensures local { IfOk result (λ command. (out-Command command).has_globals ≡ false) }
{
    let words = Arg::new(alloc, "words")
        .action(ArgAction::Append)
        .num_args(least..=most)
        .required(true);
    Command::new(alloc, name).arg(words)
}

/// The program without its commands. A word that asks `clap` for help is in no form.
fn program<'a>(alloc: Global) -> Command<'a>
    ensures app { app_of result ≡ program }
    ensures local { (out-Command result).has_globals ≡ false }
{
    Command::new(alloc, "nda")
        .no_binary_name(true)
        .disable_help_flag(true)
        .disable_help_subcommand(true)
        .subcommand_required(true)
}

/// The program with its commands.
fn forms<'a>(alloc: Global) -> Result<Command<'a>, AllocError>
    ensures { IfOk result (λ command. app_of command ≡ forms) }
{
    program(alloc)
        .subcommand(with_words(alloc, "collect", 3, usize::MAX)?)?
        .subcommand(Command::new(alloc, "convert"))?
        .subcommand(Command::new(alloc, "health"))?
        .subcommand(with_words(alloc, "log", 1, usize::MAX)?)?
        .subcommand(with_words(alloc, "new", 1, 7)?)?
        .subcommand(with_words(alloc, "query", 5, usize::MAX)?)?
        .subcommand(with_words(alloc, "receive", 1, usize::MAX)?)?
        .subcommand(Command::new(alloc, "run"))?
        .subcommand(with_words(alloc, "send", 1, usize::MAX)?)
}

/// What `clap` makes of the words.
pub(crate) fn parse<'a>(alloc: Global, words: &'a [&'a str]) -> Result<ArgMatches<'a>, Error>
    ensures fails { FailsBy (fault_of forms (map (λ word. word.now) words.entry.now)) result }
    ensures matches { IfOk result (λ matches. subcommand_rows_of matches
        ≡ subcommand_of forms (map (λ word. word.now) words.entry.now)) }
{
    forms(alloc)?.try_get_matches_from(words)
}
