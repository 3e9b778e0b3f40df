//! The command line as `clap` reads it.
ghost use Rattle.std.specs.Prelude.{◌≡◌, IfOk, false};
ghost use Rattle.clap.specs.Built.{IsPlainArg};
ghost use Rattle.clap.specs.Simple.{App};
ghost use Rattle.clap.specs.Walk.{rule_of};
ghost use Rattle.ps_words.specs.Command.{command, mode_rule, option_rule, with_option};
ghost use Rattle.ps_words.specs.inner.Commands.{IsMade};

use crate::option_name::OptionName;
use clap::{Arg, ArgAction, Command, value_parser};
use std::alloc::{AllocError, Global};

/// The name of the positional argument.
pub(crate) const MODE: &str = "MODE";

/// The command: a mode, and the options.
pub(crate) fn command<'a>(alloc: Global) -> Result<Command<'a>, AllocError>
    ensures { IfOk result (λ made. IsMade made command) }
{
    let made = Command::new(alloc, "proofspace").arg(mode_arg(alloc))?;
    let made = with_option(alloc, made, OptionName::Explorers)?;
    let made = with_option(alloc, made, OptionName::Provers)?;
    let made = with_option(alloc, made, OptionName::Nodes)?;
    let made = with_option(alloc, made, OptionName::Traces)?;
    let made = with_option(alloc, made, OptionName::Width)?;
    with_option(alloc, made, OptionName::Size)
}

/// The command with one option more.
fn with_option<'a>(
    alloc: Global,
    made: Command<'a>,
    option: OptionName,
) -> Result<Command<'a>, AllocError>
    ensures { (app : App) → IsMade made.entry app
        → IfOk result (λ more. IsMade more (with_option app option)) }
{
    made.arg(option_arg(alloc, option))
}

/// The argument of the mode.
fn mode_arg<'a>(alloc: Global) -> Arg<'a>
    ensures rule { rule_of result ≡ mode_rule }
    ensures plain { IsPlainArg result }
    ensures local { result.global ≡ false }
{
    Arg::new(alloc, MODE).required(true).action(ArgAction::Set)
}

/// The argument of an option.
fn option_arg<'a>(alloc: Global, option: OptionName) -> Arg<'a>
    ensures rule { rule_of result ≡ option_rule option }
    ensures plain { IsPlainArg result }
    ensures local { result.global ≡ false }
{
    let name: &'a str = option.name();
    let least = i64::from(option.least());
    let most = i64::from(option.most());
    Arg::new(alloc, name)
        .long(name)
        .action(ArgAction::Set)
        .value_parser(value_parser!(u32).range(least..=most))
        .default_value(option.default_text())
}
