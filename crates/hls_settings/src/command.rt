//! The command line of `serve`, for `clap`.
ghost use Rattle.std.specs.Prelude.{◌≡◌, IfOk, false, map};
ghost use Rattle.clap.specs.Words.{app_of, new_app, rule_of};
ghost use Rattle.hls_settings.specs.ClapCommand.{command_with, option_rule};
ghost use Rattle.hls_settings.specs.Command.{serve_app, without_name};

use clap::{Arg, ArgAction, Command};
use std::alloc::{AllocError, Global};

/// The options by their long names, and whether each takes a value.
pub const OPTIONS: [(&str, bool); 23] = [
    ("target", true),
    ("preferred", true),
    ("window", true),
    ("keep", true),
    ("live", true),
    ("epoch", true),
    ("workers", true),
    ("connections", true),
    ("planners", true),
    ("patience", true),
    ("log", true),
    ("run", true),
    ("base", true),
    ("mend", false),
    ("snap", true),
    ("fill", true),
    ("wait", true),
    ("job-life", true),
    ("unit-rate", true),
    ("journal", true),
    ("sync", true),
    ("journal-lost", true),
    ("anew", false),
];

/// Builds an option by its long name, with or without a value.
fn build_option<'a>(alloc: Global, name: &'a str, takes_value: bool) -> Arg<'a>
    ensures rule { rule_of result ≡ option_rule name.entry.now takes_value }
    ensures local { result.global ≡ false }
{
    let option = Arg::new(alloc, name).long(name);
    if takes_value {
        option
    } else {
        option.action(ArgAction::SetTrue)
    }
}

/// Builds a command with this name, whose arguments don't begin with it.
fn build_subcommand<'a>(alloc: Global, name: &'a str) -> Command<'a>
    ensures { app_of result ≡ without_name (new_app name.entry.now) }
{
    Command::new(alloc, name).no_binary_name(true)
}

/// Builds a command with this name and these options: their long names, and whether each takes a value.
pub fn with_options<'a>(
    alloc: Global,
    name: &'a str,
    options: &[(&'a str, bool)],
) -> Result<Command<'a>, AllocError>
    ensures { IfOk result (λ made. app_of made ≡ command_with name.entry.now (map (λ o. (o.0.now, o.1)) options.entry.now)) }
{
    let mut command = build_subcommand(alloc, name);
    for (long, takes_value) in options {
        command = command.arg(build_option(alloc, long, *takes_value))?;
    }
    Ok(command)
}

/// Builds the command as `clap` parses it.
pub fn serve_command<'a>(alloc: Global) -> Result<Command<'a>, AllocError>
    ensures { IfOk result (λ made. app_of made ≡ serve_app) }
{
    let command = with_options(alloc, "serve", &OPTIONS)?;
    let command = command.arg(Arg::new(alloc, "address"))?;
    let arguments = Arg::new(alloc, "renditions").action(ArgAction::Append);
    command.arg(arguments)
}
