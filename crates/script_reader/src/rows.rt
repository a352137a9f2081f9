ghost use Rattle.std.specs.Prelude.{◌≡◌, ◌++◌, ◌∷◌, [], not, IfOk, OnErr, if◌then◌else◌};
ghost use Rattle.script_reader.specs.Names.{KnowsRows, is_row, row_name};

use crate::script::Row;
use link_ends::{NoMemory, Octets};
use std::alloc::Global;
use std::collections::BTreeSet;
use std::marker::Model;

/// Rows in their order, no two of one schema and key.
#[derive(Debug, Drop)]
pub struct Rows {
    list: Vec<Row>,
    names: BTreeSet<Vec<u8>>,
}

impl Model for Rows {
    ghost use Rattle.std.specs.Prelude.{List};
    ghost use Rattle.script_reader.specs.declared.script.Row.{Row};
    ghost use Rattle.script_reader.specs.Names.{KnowsRows};

    ghost Value = { List Row };

    ghost view = { λ r. r.list.items };

    ghost invariant = { λ r. KnowsRows r.names r.list.items };
}

/// The bytes by which a row is found: its key in four bytes, and its schema.
fn row_name(alloc: Global, schema: &[u8], key: u32) -> Result<Vec<u8>, NoMemory>
    ensures { IfOk result (λ name. name.items ≡ row_name schema.now key) }
{
    let mut name = Vec::from_slice(alloc, &key.to_be_bytes())?;
    name.extend_from_slice(schema)?;
    Ok(name)
}

/// Adds a row whose name is this one, unless a row has it, and answers whether none had. An `Err` changes no row.
fn insert_row(
    list: &mut Vec<Row>,
    names: &mut BTreeSet<Vec<u8>>,
    name: Vec<u8>,
    row: Row,
) -> Result<bool, NoMemory>
    requires known { KnowsRows names.old list.old.items }
    requires name { name.items ≡ row_name row.schema row.key }
    ensures added { IfOk result (λ added. added ≡ not (is_row row.schema row.key list.old.items)) }
    ensures rows { IfOk result (λ added. list.new.items ≡ (if added then list.old.items ++ row ∷ [] else list.old.items)) }
    ensures err { OnErr result (list.new.items ≡ list.old.items) }
    ensures still_known { KnowsRows names.new list.new.items }
{
    list.reserve(1)?;
    if !names.insert(name)? {
        return Ok(false);
    }
    list.push(row).unwrap();
    Ok(true)
}

impl Rows {
    /// No row yet.
    pub fn new(alloc: Global) -> Rows
        ensures { result ≡ [] }
    {
        Rows {
            list: Vec::new(alloc),
            names: BTreeSet::new(alloc),
        }
    }

    /// Adds a row, unless one has this schema and key, and answers whether none had. An `Err` changes nothing.
    pub fn add(
        &mut self,
        alloc: Global,
        schema: &[u8],
        key: u32,
        text: &[u8],
    ) -> Result<bool, NoMemory>
        ensures added { IfOk result (λ added. added ≡ not (is_row schema.now key self.old)) }
        ensures rows { IfOk result (λ added. self.new ≡ (if added
            then self.old ++ record { schema = schema.now; key = key; text = text.now } ∷ []
            else self.old)) }
        ensures err { OnErr result (self.new ≡ self.old) }
    {
        let row = Row {
            schema: Octets::of(alloc, schema)?,
            key,
            text: Octets::of(alloc, text)?,
        };
        let name = row_name(alloc, schema, key)?;
        insert_row(&mut self.list, &mut self.names, name, row)
    }

    /// All rows, in the order in which they were added.
    pub fn as_slice(&self) -> &[Row]
        ensures { result.now ≡ self.now }
    {
        self.list.as_slice()
    }
}
