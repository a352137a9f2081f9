ghost use Rattle.std.specs.Prelude.{◌≡◌};
ghost use Rattle.std.specs.List.{before_first, after_first};
ghost use Rattle.server_list.specs.Lists.{no_rows};
ghost use Rattle.script_reader.specs.Weights.{listed_member, weight_read, row_added, weight_added, weights_read, sent_by_all};
ghost use Rattle.script_words.specs.Words.{words_of};

use gateway_setup::SentLists;
use hex_lines::cut_at;
use script_words::{SPACE, read_within};
use server_list::{ServerList, ServerRow};

const EQUALS: u8 = b'=';

/// The number of a member of these.
pub fn read_member(members: &ServerList, word: &[u8]) -> Option<u32>
    ensures { result ≡ listed_member members.now.rows word.now }
{
    let member = read_within(word, 1, 32)?;
    if members.has(member) {
        Some(member)
    } else {
        None
    }
}

/// A member of these, and its weight.
#[tactic(auto, unfolding(crate::specs::Weights::weight_read))]
fn read_weight(members: &ServerList, word: &[u8]) -> Option<ServerRow>
    ensures { result ≡ weight_read members.now.rows word.now }
{
    let (member, weight) = cut_at(word, EQUALS);
    let member = read_member(members, member)?;
    let weight = read_within(weight, 0, 65_535)?;
    Some(ServerRow {
        member,
        weight: weight as u16,
    })
}

/// The list with one row more, where its member isn't there yet.
fn add_row(mut list: ServerList, row: ServerRow) -> Option<ServerList>
    ensures { result ≡ row_added list row }
{
    if list.push(row) { Some(list) } else { None }
}

/// The list with the row that a word says.
fn add_weight(members: &ServerList, list: ServerList, word: &[u8]) -> Option<ServerList>
    ensures { result ≡ weight_added members.now.rows list word.now }
{
    add_row(list, read_weight(members, word)?)
}

/// A list with this number and a row for each word: each names a member of these, and none comes twice.
pub fn read_weights(members: &ServerList, number: u32, words: &[u8]) -> Option<ServerList>
    ensures { result ≡ weights_read members.now.rows (record no_rows { number = number }) (words_of words.now) }
{
    let mut list = ServerList::new();
    list.set_number(number);
    let mut rest = words;
    loop {
        let (word, after) = cut_at(rest, SPACE);
        list = add_weight(members, list, word)?;
        if word.len() == rest.len() {
            return Some(list);
        }
        rest = after;
    }
}

/// Lets each of these members send this list.
pub fn send_by_all(lists: &mut SentLists, list: ServerList, members: &ServerList)
    ensures { lists.new ≡ sent_by_all lists.old list members.now.rows }
{
    for row in members.rows() {
        lists.set(row.member, list);
    }
}
