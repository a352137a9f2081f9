ghost use Rattle.std.specs.Prelude.{◌≡◌, ◌≤◌, not, length, IfOk, OnOk, OnErr};
ghost use Rattle.ddm_codepoints.specs.declared.typdef.TypDef.TheVariants.{Sql370};
ghost use Rattle.reply_texts.specs.Text.{codes_in};
ghost use Rattle.member_statements.specs.Statement.{most_text};
ghost use Rattle.group_store.specs.Rows.{rows_there};
ghost use Rattle.group_store.specs.Setup.{user_name, has_user, with_user, has_row, with_row};

use crate::rows::{Place, Row, RowList, Version};
use crate::store::Store;
use crate::text::Text;
use bytes::Bytes;
use ddm_codepoints::{TypDef, trimmed};
use link_ends::{NoMemory, Octets, Sequence};
use reply_texts::encode;
use std::alloc::Global;

impl Store {
    /// Adds a user. The answer is false, and nothing is changed, exactly where a user has this name. Names are compared without
    /// spaces at their ends, and passwords with them. Both are in ASCII; a character that has no code in EBCDIC counts as a
    /// space. After want of memory nothing is changed.
    pub fn add_user(&mut self, name: &[u8], password: &[u8]) -> Result<bool, NoMemory>
        ensures answer { IfOk result (λ added. added ≡ not (has_user name.now self.old.users)) }
        ensures ok { OnOk result (self.new ≡ with_user name.now password.now self.old) }
        ensures err { OnErr result (self.new ≡ self.old) }
    {
        let name = user_name(self.alloc, name)?;
        if self.users.contains_key(&name) {
            return Ok(false);
        }
        let password = ebcdic(self.alloc, password)?;
        let password = Bytes::copy_from_slice(self.alloc, password.as_slice())?;
        self.users.insert(name, password)?;
        Ok(true)
    }

    /// Adds a row, whose schema and text are in ASCII. The answer is false, and nothing is changed, exactly where the schema has
    /// a row with this key. After want of memory nothing is changed.
    pub fn add_row(&mut self, schema: &[u8], key: u32, text: &[u8]) -> Result<bool, NoMemory>
        requires { length text.now ≤ most_text }
        ensures answer { IfOk result (λ added. added ≡ not (has_row (record { schema = schema.now; key = key }) self.old)) }
        ensures ok { OnOk result (self.new ≡ with_row (record { schema = schema.now; key = key }) text.now self.old) }
        ensures err { OnErr result (self.new ≡ self.old) }
    {
        let place = Place {
            schema: Bytes::copy_from_slice(self.alloc, schema)?,
            key,
        };
        let number = match self.rows.get(&place) {
            None => 0,
            Some(version) if version.text.is_none() => version.number,
            Some(_) => return Ok(false),
        };
        let text = Some(Text::of(Octets::of(self.alloc, text)?));
        self.rows.insert(place, Version { text, number })?;
        Ok(true)
    }

    /// The rows that are there, by the bytes of their schemas, then by key.
    pub fn rows(&self) -> Result<RowList, NoMemory>
        ensures { IfOk result (λ rows. rows ≡ rows_there self.now.rows) }
    {
        let mut rows = Sequence::new(self.alloc);
        for (place, version) in &self.rows {
            if let Some(text) = &version.text {
                rows.push(Row {
                    schema: Octets::of(self.alloc, place.schema.as_slice())?,
                    key: place.key,
                    text: Octets::of(self.alloc, text.as_slice())?,
                })?;
            }
        }
        Ok(rows)
    }
}

/// A name in EBCDIC, without spaces at its end.
fn user_name(alloc: Global, name: &[u8]) -> Result<Bytes, NoMemory>
    ensures { IfOk result (λ found. found ≡ user_name name.now) }
{
    let name = ebcdic(alloc, name)?;
    Ok(Bytes::copy_from_slice(alloc, trimmed(name.as_slice()))?)
}

/// A text in EBCDIC.
fn ebcdic(alloc: Global, text: &[u8]) -> Result<Vec<u8>, NoMemory>
    ensures { IfOk result (λ found. found.items ≡ codes_in Sql370 text.now) }
{
    let mut bytes = Vec::from_slice(alloc, text)?;
    encode(&mut bytes, TypDef::Sql370);
    Ok(bytes)
}
