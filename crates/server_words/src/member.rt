ghost use Rattle.std.specs.Prelude.{◌≡◌, map, option_map, string_bytes, IfOk};
ghost use Rattle.std.specs.List.{list_any};
ghost use Rattle.std.specs.Str.{bytes_eq};
ghost use Rattle.clap.specs.Words.{found_of, rows_of};
ghost use Rattle.server_words.specs.Field.{each_of, user_of, users_of, has_user, are_distinct};
ghost use Rattle.server_words.specs.Member.{options_of, with_users, membership_of, member_said, options_in, said_in, user_in};

use crate::command::{MEMBER, USER, is_named, member, parse, rest_in};
use crate::field::read_user;
use crate::serve::{listen_in, sessions_in, workers_in};
use clap::ArgMatches;
use link_ends::NoMemory;
use std::alloc::Global;

/// What `member` is called with, as its users are told.
pub const MEMBER_USAGE: &[u8] =
    b"usage: drda_gateway member --listen ADDR --sessions N --workers N USER...\n";

/// A user of a member, with the password.
#[derive(Drop)]
pub struct User {
    pub name: String,
    pub password: String,
}

/// What the words of `member` say.
#[derive(Drop)]
pub struct MemberWords {
    /// The address at which gateways are taken.
    pub listen: String,
    /// How many sessions are served, 1 to 1,000,000.
    pub sessions: u32,
    /// How many threads serve them, 1 to 64.
    pub workers: u32,
    /// The users, no two of one name.
    pub users: Vec<User>,
}

/// What the options of `member` say.
#[derive(Clone, Copy)]
struct MemberOptions<'a> {
    listen: &'a str,
    sessions: u32,
    workers: u32,
}

/// What the options say.
#[tactic(auto, unfolding(crate::specs::Member::options_of))]
fn options_in<'a>(matches: &ArgMatches<'a>) -> Option<MemberOptions<'a>>
    ensures { option_map options_in result ≡ options_of (rows_of (found_of matches.now)) }
{
    Some(MemberOptions {
        listen: listen_in(matches)?,
        sessions: sessions_in(matches)?,
        workers: workers_in(matches)?,
    })
}

/// Whether a user of this name is among these.
fn has_name(users: &[User], name: &str) -> bool
    ensures { result ≡ list_any (λ user. bytes_eq (string_bytes user.name) name.now) users.now }
{
    users.iter().any(|user| user.name.as_str() == name)
}

/// The same, of what is said of users.
fn has_user(users: &[User], name: &str) -> bool
    ensures { result ≡ has_user name.now (map user_in users.now) }
{
    has_name(users, name)
}

/// Whether no two users have one name.
fn are_distinct(users: &[User]) -> bool
    ensures { result ≡ are_distinct (map user_in users.now) }
{
    let mut rest = users;
    while let [user, behind @ ..] = rest {
        if has_user(behind, user.name.as_str()) {
            return false;
        }
        rest = behind;
    }
    true
}

/// The user of this name, with this password.
fn user_of(alloc: Global, parts: (&str, &str)) -> Result<User, NoMemory>
    ensures { IfOk result (λ user. user_in user ≡ (parts.entry.0.now, parts.entry.1.now)) }
{
    Ok(User {
        name: String::from_str(alloc, parts.0)?,
        password: String::from_str(alloc, parts.1)?,
    })
}

/// Each user, in order.
fn read_each(alloc: Global, words: &[&str]) -> Result<Option<Vec<User>>, NoMemory>
    ensures { IfOk result (λ read. option_map (λ users. map user_in users.items) read
        ≡ each_of user_of (map (λ word. word.now) words.now)) }
{
    let mut users = Vec::new(alloc);
    for word in words {
        match read_user(word) {
            Some(parts) => users.push(user_of(alloc, parts)?)?,
            None => return Ok(None),
        }
    }
    Ok(Some(users))
}

/// The users, where no two have one name.
#[tactic(auto, unfolding(crate::specs::Field::users_of))]
fn read_users(alloc: Global, words: &[&str]) -> Result<Option<Vec<User>>, NoMemory>
    ensures { IfOk result (λ read. option_map (λ users. map user_in users.items) read
        ≡ users_of (map (λ word. word.now) words.now)) }
{
    match read_each(alloc, words)? {
        Some(users) if are_distinct(users.as_slice()) => Ok(Some(users)),
        _ => Ok(None),
    }
}

/// What is said with these options and these users.
fn with_users(
    alloc: Global,
    options: MemberOptions,
    words: &[&str],
) -> Result<Option<MemberWords>, NoMemory>
    ensures { IfOk result (λ read. option_map said_in read ≡ with_users (options_in options.entry) (map (λ word. word.now) words.now)) }
{
    match read_users(alloc, words)? {
        Some(users) => Ok(Some(MemberWords {
            listen: String::from_str(alloc, options.listen)?,
            sessions: options.sessions,
            workers: options.workers,
            users,
        })),
        None => Ok(None),
    }
}

/// What is said by what was found.
#[tactic(auto, unfolding(crate::specs::Member::membership_of))]
fn membership_in(alloc: Global, matches: &ArgMatches) -> Result<Option<MemberWords>, NoMemory>
    ensures { IfOk result (λ read. option_map said_in read ≡ membership_of (rows_of (found_of matches.now))) }
{
    let Some(options) = options_in(matches) else {
        return Ok(None);
    };
    match rest_in(matches, USER) {
        Some(words) => with_users(alloc, options, words),
        None => Ok(None),
    }
}

/// What the words of `member` say, the name of the command first. None exactly where they aren't right: where clap's
/// command doesn't take them, or a value isn't as it has to be. The only error is want of memory.
#[tactic(auto, unfolding(crate::specs::Member::member_said))]
pub fn read_member(alloc: Global, words: &[String]) -> Result<Option<MemberWords>, NoMemory>
    ensures { IfOk result (λ read. option_map said_in read ≡ member_said (map string_bytes words.now)) }
{
    if !is_named(words, MEMBER) {
        return Ok(None);
    }
    match parse(member(alloc)?, words)? {
        Some(matches) => membership_in(alloc, &matches),
        None => Ok(None),
    }
}
