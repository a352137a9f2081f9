ghost use Rattle.std.specs.Prelude.{◌≡◌, true, false, map, option_map, string_bytes, IfOk};
ghost use Rattle.std.specs.Option.{option_copied};
ghost use Rattle.clap.specs.Words.{app_of, found_of, rows_of, rule_of};
ghost use Rattle.clap.specs.Walk.{first_of, all_of};
ghost use Rattle.server_words.specs.Command.{option, rest, serve, member, is_named, found_by, is_plain};

use clap::error::ErrorKind;
use clap::{Arg, ArgMatches, Command};
use link_ends::NoMemory;
use std::alloc::Global;

/// The names of the commands, and of what stands behind them.
pub const SERVE: &str = "serve";

pub const MEMBER: &str = "member";

pub const LISTEN: &str = "listen";

pub const RDB: &str = "rdb";

pub const SESSIONS: &str = "sessions";

pub const WORKERS: &str = "workers";

pub const CAP: &str = "cap";

pub const USER: &str = "user";

/// Whether the first word is this name.
pub fn is_named(words: &[String], name: &str) -> bool
    ensures { result ≡ is_named name.now (map string_bytes words.now) }
{
    match words {
        [] => false,
        [word, ..] => word.as_str() == name,
    }
}

/// An option of this name, which is required and takes one value.
fn option<'a>(alloc: Global, name: &'a str) -> Arg<'a>
    ensures rule { rule_of result ≡ option name.entry.now }
    ensures local { result.global ≡ false }
{
    Arg::new(alloc, name).long(name).required(true)
}

/// The words behind the options, at least one.
fn rest<'a>(alloc: Global, name: &'a str) -> Arg<'a>
    ensures rule { rule_of result ≡ rest name.entry.now }
    ensures local { result.global ≡ false }
{
    Arg::new(alloc, name).num_args(1..).required(true)
}

/// The command `serve`.
pub fn serve<'a>(alloc: Global) -> Result<Command<'a>, NoMemory>
    ensures { IfOk result (λ command. app_of command ≡ serve) }
{
    let command = Command::new(alloc, SERVE)
        .arg(option(alloc, LISTEN))?
        .arg(option(alloc, RDB))?
        .arg(option(alloc, SESSIONS))?
        .arg(option(alloc, WORKERS))?
        .arg(option(alloc, CAP))?
        .arg(rest(alloc, MEMBER))?;
    Ok(command)
}

/// The command `member`.
pub fn member<'a>(alloc: Global) -> Result<Command<'a>, NoMemory>
    ensures { IfOk result (λ command. app_of command ≡ member) }
{
    let command = Command::new(alloc, MEMBER)
        .arg(option(alloc, LISTEN))?
        .arg(option(alloc, SESSIONS))?
        .arg(option(alloc, WORKERS))?
        .arg(rest(alloc, USER))?;
    Ok(command)
}

/// What is found in words. None exactly where the command doesn't take them.
pub fn parse<'a>(
    command: Command<'a>,
    words: &'a [String],
) -> Result<Option<ArgMatches<'a>>, NoMemory>
    requires { is_plain (app_of command) ≡ true }
    ensures { IfOk result (λ found. option_map (λ matches. rows_of (found_of matches)) found
        ≡ found_by (app_of command.entry) (map string_bytes words.entry.now)) }
{
    match command.try_get_matches_from(words) {
        Ok(matches) => Ok(Some(matches)),
        Err(error) => match error.kind() {
            ErrorKind::OutOfMemory => Err(NoMemory),
            _ => Ok(None),
        },
    }
}

/// The value of an option.
pub fn value_in<'a>(matches: &ArgMatches<'a>, name: &str) -> Option<&'a str>
    ensures { option_copied result ≡ first_of name.now (rows_of (found_of matches.now)) }
{
    matches.get_str(name)
}

/// The words behind the options.
pub fn rest_in<'m, 'a>(matches: &'m ArgMatches<'a>, name: &str) -> Option<&'m [&'a str]>
    ensures { option_map (λ words. map (λ word. word.now) words.now) result ≡ all_of name.now (rows_of (found_of matches.now)) }
{
    matches.get_raw(name)
}
