ghost use Rattle.std.specs.Prelude.{◌≡◌, ◌≤◌, length, IfOk};
ghost use Rattle.member_statements.specs.Statement.{most_text};

use link_ends::{NoMemory, Octets};
use std::marker::Model;

/// A row's text or a register's value, in ASCII: at most 200 characters.
#[derive(Debug, Drop)]
pub struct Text {
    characters: Octets,
}

impl Model for Text {
    ghost use Rattle.std.specs.Prelude.{◌≤◌, ℕ, List, length};
    ghost use Rattle.member_statements.specs.Statement.{most_text};

    ghost Value = { List ℕ };

    ghost view = { λ t. t.characters };

    ghost invariant = { λ t. length t.characters ≤ most_text };
}

impl Text {
    /// These characters.
    pub(crate) fn of(characters: Octets) -> Text
        requires { length characters ≤ most_text }
        ensures { result ≡ characters }
    {
        Text { characters }
    }

    /// Its characters.
    pub(crate) fn as_slice(&self) -> &[u8]
        ensures characters { result.now ≡ self.now }
        ensures most { length result.now ≤ most_text }
    {
        self.characters.as_slice()
    }

    /// The same characters again.
    pub(crate) fn copy(&self) -> Result<Text, NoMemory>
        ensures { IfOk result (λ copy. copy ≡ self.now) }
    {
        let characters = self.characters.part(0, self.characters.len())?;
        Ok(Text { characters })
    }
}
