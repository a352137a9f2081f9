ghost use Rattle.std.specs.Prelude.{◌≡◌, ◌≤◌, ◌↔◌, IsTrue, IsSome, IfSome, length, take};
ghost use Rattle.std.specs.List.{list_all};
ghost use Rattle.reply_texts.specs.Name.{is_name_character, is_rdb_name};

/// How many characters a name has at most.
const LONGEST: usize = 18;

/// A name of a relational database: 1 to 18 of A to Z and 0 to 9, in ASCII. DDM, volume 3, RDBNAM.
#[derive(Clone, Copy, Debug)]
pub struct RdbName {
    characters: [u8; 18],
    length: usize,
    ghost fits: { length ≤ 18 },
    ghost is_name: { IsTrue (is_rdb_name (take length characters)) },
}

impl RdbName {
    ghost use Rattle.reply_texts.specs.RdbName.{characters_of};

    /// The name with these characters: None exactly where they are none, more than 18, or one isn't A to Z or 0 to 9.
    pub fn of(ascii: &[u8]) -> Option<RdbName>
        ensures exactly { IsSome result ↔ IsTrue (is_rdb_name ascii.now) }
        ensures named { IfSome result (λ name. characters_of name ≡ ascii.now) }
    {
        if ascii.is_empty() || ascii.len() > LONGEST || !are_name_characters(ascii) {
            return None;
        }
        let mut characters = [0; LONGEST];
        characters[..ascii.len()].copy_from_slice(ascii);
        Some(RdbName {
            characters,
            length: ascii.len(),
        })
    }

    /// The characters of the name.
    pub fn as_slice(&self) -> &[u8]
        ensures characters { result.now ≡ characters_of self.now }
        ensures is_name { IsTrue (is_rdb_name result.now) }
    {
        &self.characters[..self.length]
    }
}

/// Whether each of these is A to Z or 0 to 9.
fn are_name_characters(ascii: &[u8]) -> bool
    ensures { result ≡ list_all is_name_character ascii.now }
{
    ascii
        .iter()
        .all(|byte| byte.is_ascii_uppercase() || byte.is_ascii_digit())
}
