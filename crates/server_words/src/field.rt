ghost use Rattle.std.specs.Prelude.{◌≡◌, ◌≤◌, map, option_map, string_bytes, IfOk, IfSome};
ghost use Rattle.std.specs.Option.{option_copied};
ghost use Rattle.std.specs.List.{list_all};
ghost use Rattle.script_words.specs.Number.{number_within};
ghost use Rattle.server_words.specs.Field.{is_host_character, is_host, is_port, is_address, address_of, member_address, member_weight, user_of};

use hex_lines::cut_at;
use script_words::{is_name, read_within};

/// How many characters the name of a host has at most.
const LONGEST_HOST: usize = 253;

/// The greatest port.
const MOST_PORT: u32 = 65535;

/// The greatest weight of a member.
const MOST_WEIGHT: u32 = 65535;

/// Whether each of these is a letter, a digit, a point or a hyphen.
fn are_host_characters(text: &[u8]) -> bool
    ensures { result ≡ list_all is_host_character text.now }
{
    text.iter().all(|byte| byte.is_ascii_alphanumeric() || *byte == b'.' || *byte == b'-')
}

/// Whether a text is the name of a host: 1 to 253 letters, digits, points and hyphens, the first no hyphen.
fn is_host(text: &[u8]) -> bool
    ensures { result ≡ is_host text.now }
{
    1 <= text.len() && text.len() <= LONGEST_HOST && are_host_characters(text) && text[0] != b'-'
}

/// Whether a text is an address: the name of a host, a colon and a port.
#[tactic(auto, unfolding(crate::specs::Field::is_address))]
fn is_address(text: &str) -> bool
    ensures { result ≡ is_address text.now }
{
    let (host, port) = cut_at(text.as_bytes(), b':');
    is_host(host) && read_within(port, 0, MOST_PORT).is_some()
}

/// The same text, where it is an address.
pub fn read_address(text: &str) -> Option<&str>
    ensures { option_copied result ≡ address_of text.now }
{
    if is_address(text) { Some(text) } else { None }
}

/// The address of a member, which stands before the first `=`.
pub fn member_address(word: &str) -> Option<&str>
    ensures { option_copied result ≡ member_address word.now }
{
    match word.split_once('=') {
        Some((address, _)) => read_address(address),
        None => read_address(word),
    }
}

/// A weight.
fn weight_of(word: &[u8]) -> Option<u16>
    ensures { result ≡ number_within 0 65535 word.now }
{
    Some(read_within(word, 0, MOST_WEIGHT)? as u16)
}

/// The weight of a member, which stands behind the first `=`.
pub fn member_weight(word: &str) -> Option<u16>
    ensures { result ≡ member_weight word.now }
{
    weight_of(cut_at(word.as_bytes(), b'=').1)
}

/// The name and the password of a user, which stand round the first colon.
pub fn read_user(word: &str) -> Option<(&str, &str)>
    ensures { option_map (λ user. (user.0.now, user.1.now)) result ≡ user_of word.now }
{
    match word.split_once(':') {
        Some((name, password)) if is_name(name.as_bytes()) && is_name(password.as_bytes()) => {
            Some((name, password))
        }
        _ => None,
    }
}
