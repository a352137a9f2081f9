ghost use Rattle.std.specs.Prelude.{◌≡◌, map, option_map, string_bytes, length, IfOk};
ghost use Rattle.std.specs.Option.{option_copied};
ghost use Rattle.clap.specs.Words.{found_of, rows_of};
ghost use Rattle.clap.specs.Walk.{first_of};
ghost use Rattle.reply_texts.specs.RdbName.{characters_of};
ghost use Rattle.server_words.specs.Field.{given, each_of, address_of, sessions_of, workers_of, cap_of, member_address, member_weight};
ghost use Rattle.server_words.specs.Serve.{rdb_of, options_of, with_members, serving_of, serve_said, options_in, said_in};

use crate::command::{
    CAP, LISTEN, MEMBER, RDB, SERVE, SESSIONS, WORKERS, is_named, parse, rest_in, serve, value_in,
};
use crate::field::{member_address, member_weight, read_address};
use clap::ArgMatches;
use link_ends::NoMemory;
use reply_texts::RdbName;
use script_words::read_within;
use std::alloc::Global;

/// What `serve` is called with, as its users are told.
pub const SERVE_USAGE: &[u8] =
    b"usage: drda_gateway serve --listen ADDR --rdb NAME --sessions N --workers N --cap N MEMBER...\n";

/// How many members there are at most.
const MOST_MEMBERS: usize = 32;

/// How many sessions there are at most.
const MOST_SESSIONS: u32 = 1_000_000;

/// How many workers there are at most.
const MOST_WORKERS: u32 = 64;

/// How many transports may be lent at a time at most.
const MOST_CAP: u32 = 32;

/// What the words of `serve` say.
#[derive(Debug, Drop)]
pub struct ServeWords {
    /// The address at which applications are taken.
    pub listen: String,
    /// The relational database that applications name.
    pub rdb: RdbName,
    /// How many sessions are served, 1 to 1,000,000.
    pub sessions: u32,
    /// How many threads serve them, 1 to 64.
    pub workers: u32,
    /// How many transports may be lent at a time, 1 to 32.
    pub cap: u32,
    /// Where each member is dialled, in the order of their numbers from 1; 1 to 32.
    pub addresses: Vec<String>,
    /// The weight of each of them.
    pub weights: Vec<u16>,
}

/// What the options of `serve` say.
#[derive(Clone, Copy)]
struct ServeOptions<'a> {
    listen: &'a str,
    rdb: RdbName,
    sessions: u32,
    workers: u32,
    cap: u32,
}

/// The address at which links are taken.
pub fn listen_in<'a>(matches: &ArgMatches<'a>) -> Option<&'a str>
    ensures { option_copied result ≡ given (first_of LISTEN.now (rows_of (found_of matches.now))) address_of }
{
    read_address(value_in(matches, LISTEN)?)
}

/// How many sessions there are.
pub fn sessions_in(matches: &ArgMatches) -> Option<u32>
    ensures { result ≡ given (first_of SESSIONS.now (rows_of (found_of matches.now))) sessions_of }
{
    read_within(value_in(matches, SESSIONS)?.as_bytes(), 1, MOST_SESSIONS)
}

/// How many workers there are.
pub fn workers_in(matches: &ArgMatches) -> Option<u32>
    ensures { result ≡ given (first_of WORKERS.now (rows_of (found_of matches.now))) workers_of }
{
    read_within(value_in(matches, WORKERS)?.as_bytes(), 1, MOST_WORKERS)
}

/// How many transports may be lent at a time.
fn cap_in(matches: &ArgMatches) -> Option<u32>
    ensures { result ≡ given (first_of CAP.now (rows_of (found_of matches.now))) cap_of }
{
    read_within(value_in(matches, CAP)?.as_bytes(), 1, MOST_CAP)
}

/// The relational database.
fn rdb_in(matches: &ArgMatches) -> Option<RdbName>
    ensures { option_map characters_of result ≡ given (first_of RDB.now (rows_of (found_of matches.now))) rdb_of }
{
    RdbName::of(value_in(matches, RDB)?.as_bytes())
}

/// What the options say.
#[tactic(auto, unfolding(crate::specs::Serve::options_of))]
fn options_in<'a>(matches: &ArgMatches<'a>) -> Option<ServeOptions<'a>>
    ensures { option_map options_in result ≡ options_of (rows_of (found_of matches.now)) }
{
    Some(ServeOptions {
        listen: listen_in(matches)?,
        rdb: rdb_in(matches)?,
        sessions: sessions_in(matches)?,
        workers: workers_in(matches)?,
        cap: cap_in(matches)?,
    })
}

/// The addresses of the members.
fn read_addresses(alloc: Global, words: &[&str]) -> Result<Option<Vec<String>>, NoMemory>
    ensures { IfOk result (λ read. option_map (λ addresses. map string_bytes addresses.items) read
        ≡ each_of member_address (map (λ word. word.now) words.now)) }
{
    let mut addresses = Vec::new(alloc);
    for word in words {
        match member_address(word) {
            Some(address) => addresses.push(String::from_str(alloc, address)?)?,
            None => return Ok(None),
        }
    }
    Ok(Some(addresses))
}

/// The weights of the members.
fn read_weights(alloc: Global, words: &[&str]) -> Result<Option<Vec<u16>>, NoMemory>
    ensures { IfOk result (λ read. option_map (λ weights. weights.items) read
        ≡ each_of member_weight (map (λ word. word.now) words.now)) }
{
    let mut weights = Vec::new(alloc);
    for word in words {
        match member_weight(word) {
            Some(weight) => weights.push(weight)?,
            None => return Ok(None),
        }
    }
    Ok(Some(weights))
}

/// What is said with these options and these members.
#[tactic(auto, unfolding(crate::specs::Serve::with_members))]
fn with_members(
    alloc: Global,
    options: ServeOptions,
    words: &[&str],
) -> Result<Option<ServeWords>, NoMemory>
    ensures { IfOk result (λ read. option_map said_in read ≡ with_members (options_in options.entry) (map (λ word. word.now) words.now)) }
{
    if words.is_empty() || MOST_MEMBERS < words.len() {
        return Ok(None);
    }
    let Some(addresses) = read_addresses(alloc, words)? else {
        return Ok(None);
    };
    let Some(weights) = read_weights(alloc, words)? else {
        return Ok(None);
    };
    Ok(Some(ServeWords {
        listen: String::from_str(alloc, options.listen)?,
        rdb: options.rdb,
        sessions: options.sessions,
        workers: options.workers,
        cap: options.cap,
        addresses,
        weights,
    }))
}

/// What is said by what was found.
#[tactic(auto, unfolding(crate::specs::Serve::serving_of))]
fn serving_in(alloc: Global, matches: &ArgMatches) -> Result<Option<ServeWords>, NoMemory>
    ensures { IfOk result (λ read. option_map said_in read ≡ serving_of (rows_of (found_of matches.now))) }
{
    let Some(options) = options_in(matches) else {
        return Ok(None);
    };
    match rest_in(matches, MEMBER) {
        Some(words) => with_members(alloc, options, words),
        None => Ok(None),
    }
}

/// What the words of `serve` say, the name of the command first. None exactly where they aren't right: where clap's
/// command doesn't take them, or a value isn't as it has to be. The only error is want of memory.
#[tactic(auto, unfolding(crate::specs::Serve::serve_said))]
pub fn read_serve(alloc: Global, words: &[String]) -> Result<Option<ServeWords>, NoMemory>
    ensures { IfOk result (λ read. option_map said_in read ≡ serve_said (map string_bytes words.now)) }
{
    if !is_named(words, SERVE) {
        return Ok(None);
    }
    match parse(serve(alloc)?, words)? {
        Some(matches) => serving_in(alloc, &matches),
        None => Ok(None),
    }
}
