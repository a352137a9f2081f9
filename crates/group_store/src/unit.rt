ghost use Rattle.std.specs.Prelude.{◌≡◌, filter, IfOk, OnOk, OnErr};
ghost use Rattle.member_statements.specs.Register.{IsRegister};
ghost use Rattle.group_store.specs.Unit.{nothing_at, checked_as, accessed_as, schema_of, after_commit, after_roll_back};
ghost use Rattle.group_store.specs.Execute.{place_in, writes, with_value};

use crate::rows::{Place, Write};
use crate::text::Text;
use access_handshake::Stage;
use bytes::Bytes;
use ddm_codepoints::TypDef;
use link_ends::NoMemory;
use member_statements::Register;
use std::alloc::Global;
use std::collections::BTreeMap;
use std::marker::Model;
use std::mem;

/// An open cursor.
#[derive(Drop)]
pub(crate) struct Cursor {
    /// Whether a commit holds it.
    pub(crate) held: bool,
    /// The rows that aren't fetched yet: their texts by their keys.
    pub(crate) rows: BTreeMap<u32, Text>,
}

impl Model for Cursor {
    ghost use Rattle.group_store.specs.Unit.{CursorState};

    ghost Value = { CursorState };

    ghost view = { λ c. record { held = c.held; rows = c.rows.entries } };
}

/// What a conversation with a member of the small group has of its own: its access, its open unit of work, its registers, its
/// prepared statements and its cursors.
#[derive(Drop)]
pub struct StoreUnit {
    pub(crate) alloc: Global,
    pub(crate) stage: Stage,
    pub(crate) user: Bytes,
    pub(crate) typdef: TypDef,
    pub(crate) registers: BTreeMap<Register, Text>,
    pub(crate) writes: BTreeMap<Place, Write>,
    pub(crate) prepared: BTreeMap<u16, bool>,
    pub(crate) cursors: BTreeMap<u16, Cursor>,
}

impl Model for StoreUnit {
    ghost use Rattle.group_store.specs.Unit.{UnitState};

    ghost Value = { UnitState };

    ghost use Rattle.group_store.specs.Unit.{AreRegisters};

    ghost view = { λ u. record {
      stage = u.stage;
      user = u.user;
      typdef = u.typdef;
      registers = u.registers.entries;
      writes = u.writes.entries;
      prepared = u.prepared.entries;
      cursors = u.cursors.entries;
    } };

    ghost invariant = { λ u. AreRegisters u.registers.entries };
}

impl StoreUnit {
    /// Nothing is kept besides the stage.
    pub(crate) fn at(alloc: Global, stage: Stage) -> StoreUnit
        ensures { result ≡ nothing_at stage }
    {
        StoreUnit {
            alloc,
            stage,
            user: Bytes::new(),
            typdef: TypDef::Sql370,
            registers: BTreeMap::new(alloc),
            writes: BTreeMap::new(alloc),
            prepared: BTreeMap::new(alloc),
            cursors: BTreeMap::new(alloc),
        }
    }

    /// This user may go on.
    pub(crate) fn checked(alloc: Global, user: Bytes) -> StoreUnit
        ensures { result ≡ checked_as user }
    {
        let mut unit = StoreUnit::at(alloc, Stage::Checked);
        unit.user = user;
        unit
    }

    /// The user accesses the database, with data in this type definition.
    pub(crate) fn access(&mut self, typdef: TypDef)
        ensures { self.new ≡ accessed_as self.old.user typdef }
    {
        let mut unit = StoreUnit::at(self.alloc, Stage::Accessed);
        unit.user = mem::replace(&mut self.user, Bytes::new());
        unit.typdef = typdef;
        *self = unit;
    }

    /// CURRENT SCHEMA, which is the user's name until it is set.
    pub(crate) fn schema(&self) -> &[u8]
        ensures { result.now ≡ schema_of self.now }
    {
        match self.registers.get(&Register::Schema) {
            Some(schema) => schema.as_slice(),
            None => self.user.as_slice(),
        }
    }

    /// The place with this key in the current schema.
    pub(crate) fn place(&self, key: u32) -> Result<Place, NoMemory>
        ensures { IfOk result (λ place. place ≡ place_in self.now key) }
    {
        Ok(Place {
            schema: Bytes::copy_from_slice(self.alloc, self.schema())?,
            key,
        })
    }

    /// Writes this text in the row with this key, or that the row goes, where so many units were committed.
    pub(crate) fn write(
        &mut self,
        commits: u64,
        key: u32,
        text: Option<Text>,
    ) -> Result<(), NoMemory>
        ensures { OnOk result (self.new ≡ writes commits self.old key text) }
    {
        let place = self.place(key)?;
        let since = match self.writes.get(&place) {
            Some(write) => write.since,
            None => commits,
        };
        self.writes.insert(place, Write { text, since })?;
        Ok(())
    }

    /// Sets a register.
    pub(crate) fn set(&mut self, register: Register, value: Text) -> Result<(), NoMemory>
        requires { IsRegister register }
        ensures { OnOk result (self.new ≡ record self.old { registers = with_value register value self.old.registers }) }
    {
        put_register(&mut self.registers, register, value)
    }

    /// The unit of work is committed: what is prepared and the cursors that aren't held are dropped. Its writes are handed out.
    pub(crate) fn commit(&mut self) -> BTreeMap<Place, Write>
        ensures writes { result.entries ≡ self.old.writes }
        ensures unit { self.new ≡ after_commit self.old }
    {
        self.prepared.clear();
        keep_held(&mut self.cursors);
        mem::replace(&mut self.writes, BTreeMap::new(self.alloc))
    }

    /// The unit of work is rolled back: its writes are dropped, what is prepared, and all cursors.
    pub(crate) fn roll_back(&mut self)
        ensures { self.new ≡ after_roll_back self.old }
    {
        self.writes.clear();
        self.prepared.clear();
        self.cursors.clear();
    }
}

/// Gives a register this value. After want of memory nothing is changed.
fn put_register(
    registers: &mut BTreeMap<Register, Text>,
    register: Register,
    value: Text,
) -> Result<(), NoMemory>
    ensures ok { OnOk result (registers.new.entries ≡ with_value register value registers.old.entries) }
    ensures err { OnErr result (registers.new.entries ≡ registers.old.entries) }
{
    registers.insert(register, value)?;
    Ok(())
}

/// Drops the cursors that a commit doesn't hold.
fn keep_held(cursors: &mut BTreeMap<u16, Cursor>)
    ensures { cursors.new.entries ≡ filter (λ cursor. cursor.1.held) cursors.old.entries }
{
    cursors.retain(|_, cursor| cursor.held);
}
