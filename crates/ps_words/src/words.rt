//! What words ask for, and how they are read.
ghost use Rattle.std.specs.Prelude.{◌≡◌, ◌≢◌, map, codes, string_bytes, IfOk, IfSome, IsErrOf, MatchOption};
ghost use Rattle.clap.specs.Matches.{found_of};
ghost use Rattle.clap.specs.Values.{kind_of};
ghost use Rattle.clap.specs.Walk.{first_of, rows_of};
ghost use Rattle.clap.specs.declared.error.kind.ErrorKind.TheVariants.{OutOfMemory};
ghost use Rattle.ps_words.specs.Asked.{AskFor, AskForNothing, HasNumbersInRange, IsMatched};
ghost use Rattle.ps_words.specs.Modes.{mode_name};
ghost use Rattle.ps_words.specs.declared.mode.Mode.{Mode};
ghost use Rattle.ps_words.specs.declared.option_name.OptionName.TheVariants.{Explorers, Provers, Nodes, Traces, Width};
ghost use Rattle.ps_words.specs.declared.words.Words.{Words};
ghost use Rattle.ps_words.specs.declared.words_end.WordsEnd.TheVariants.{Refused};
ghost use Rattle.ps_words.specs.inner.Commands.{AreRead};
ghost use Rattle.ps_words.specs.inner.Numbers.{IsOptionNumber};

use crate::command::{MODE, command};
use crate::mode::Mode;
use crate::option_name::OptionName;
use crate::words_end::WordsEnd;
use clap::error::ErrorKind;
use clap::{ArgMatches, Error};
use ps_config::Limits;
use std::alloc::{AllocError, Global};
use std::string::String;

/// What words ask for.
#[derive(Clone, Copy)]
pub struct Words {
    /// The mode.
    pub mode: Mode,
    /// The limits of a search.
    pub limits: Limits,
    /// The size of a program that is made.
    pub size: u32,
}

/// Reads the words of the command line, of which the first is the program's name: a mode, and the options that
/// `OptionName` lists, in any order. `Refused` where they ask for nothing, `Memory` where memory runs out. It takes a
/// pass over the words.
pub fn read_words(alloc: Global, words: &[String]) -> Result<Words, WordsEnd>
    ensures asked { IfOk result (AskFor (map string_bytes words.now)) }
    ensures range { IfOk result HasNumbersInRange }
    ensures refused { IsErrOf result Refused → AskForNothing (map string_bytes words.now) }
{
    match command(alloc) {
        Ok(command) => match command.try_get_matches_from(words) {
            Ok(matches) => words_matched(&matches).ok_or(WordsEnd::Refused),
            Err(error) => Err(end_of(&error)),
        },
        Err(end) => Err(WordsEnd::Memory(end)),
    }
}

/// Why there are no matches.
fn end_of(error: &Error) -> WordsEnd
    ensures refused { result ≡ Refused → kind_of error.now ≢ OutOfMemory }
    ensures memory { kind_of error.now ≢ OutOfMemory → result ≡ Refused }
{
    match error.kind() {
        ErrorKind::OutOfMemory => WordsEnd::Memory(AllocError),
        _ => WordsEnd::Refused,
    }
}

/// What the matches ask for, where MODE is the name of a mode.
fn words_matched(matches: &ArgMatches<'_>) -> Option<Words>
    requires { AreRead (found_of matches.now) }
    ensures matched { MatchOption result
        ((asked : Words) → ¬ IsMatched (rows_of (found_of matches.now)) asked)
        (IsMatched (rows_of (found_of matches.now))) }
    ensures range { IfSome result HasNumbersInRange }
{
    match mode_matched(matches) {
        Some(mode) => Some(Words {
            mode,
            limits: limits_matched(matches),
            size: number_matched(matches, OptionName::Size),
        }),
        None => None,
    }
}

/// The mode that MODE names.
fn mode_matched(matches: &ArgMatches<'_>) -> Option<Mode>
    ensures { MatchOption result ((mode : Mode)
        → ¬ (first_of (codes "MODE") (rows_of (found_of matches.now)) ≡ Some (mode_name mode)))
        (λ mode. first_of (codes "MODE") (rows_of (found_of matches.now)) ≡ Some (mode_name mode)) }
{
    match matches.get_str(MODE) {
        Some(name) => Mode::named(name),
        None => None,
    }
}

/// The limits that the matches have.
fn limits_matched(matches: &ArgMatches<'_>) -> Limits
    requires { AreRead (found_of matches.now) }
    ensures explorers { IsOptionNumber Explorers matches.now result.explorers }
    ensures provers { IsOptionNumber Provers matches.now result.provers }
    ensures nodes { IsOptionNumber Nodes matches.now result.nodes }
    ensures traces { IsOptionNumber Traces matches.now result.traces }
    ensures width { IsOptionNumber Width matches.now result.width }
{
    Limits {
        nodes: number_matched(matches, OptionName::Nodes),
        traces: number_matched(matches, OptionName::Traces),
        width: number_matched(matches, OptionName::Width),
        explorers: number_matched(matches, OptionName::Explorers),
        provers: number_matched(matches, OptionName::Provers),
    }
}

/// The number that the matches have for an option.
fn number_matched(matches: &ArgMatches<'_>, option: OptionName) -> u32
    requires { AreRead (found_of matches.now) }
    ensures { IsOptionNumber option matches.now result }
{
    let matched = matches.get_one::<u32>(option.name());
    matched.unwrap_or(option.default())
}
