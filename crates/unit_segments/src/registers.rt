ghost use Rattle.std.specs.Prelude.{◌≡◌, ◌==◌, ◌+◌, ◌≤◌, ◌&&◌, not, nat_lt, nat_le, [], length, position, Ok, IfOk, IfErr, OnOk, OnErr};
ghost use Rattle.unit_segments.specs.Registers.{most_registers, most_text, set_of, equals_sign, key_of, has_key, with_register, with_set};
ghost use Rattle.unit_segments.specs.Registers.{set_command, log_bytes, IsRefusal};
ghost use Rattle.std.specs.List.{before_first};
ghost use Rattle.ddm_objects.specs.Objects.{canonical_object, greatest_extended};
ghost use Rattle.unit_segments.specs.SeenStatement.{seen_statement};
ghost use Rattle.unit_segments.specs.Kept.{most_statement};
ghost use Rattle.unit_segments.specs.declared.registers.RegisterFault.TheVariants.{NoMemory as OutOfMemory};

use crate::command::Command;
use crate::share::share;
use crate::statement::{Statement, statement_of};
use crate::write::write_chain;
use bytes::Bytes;
use ddm_codepoints::TypDef;
use ddm_codepoints::code_point::{EXCSQLSET, SQLSTT};
use ddm_objects::Builder;
use indexmap::IndexMap;
use link_ends::{NoMemory, Octets, Sequence};
use std::alloc::Global;
use std::marker::Model;

/// How many registers a session may set.
const MOST_REGISTERS: usize = 64;

/// How many bytes the texts of one statement may have.
const MOST_TEXT: usize = 4096;

/// Why a SET statement can't be added to the log. The log is as before.
#[derive(Clone, Copy, Debug, PartialEq, Eq)]
pub enum RegisterFault {
    /// It sets one register more than a session may.
    TooMany,
    /// Its texts have more bytes than they may.
    TooLong,
    /// Memory ran out.
    NoMemory,
}

impl From<NoMemory> for RegisterFault {
    ghost from_gives = { λ _ e. e ≡ OutOfMemory };

    fn from(_error: NoMemory) -> RegisterFault {
        RegisterFault::NoMemory
    }
}

/// The special registers that a session has set, each by the SET statement that set it last, in the order in which they were
/// first set. A register is known by the text before the statement's first equals sign.
#[derive(Drop)]
pub struct RegisterLog {
    alloc: Global,
    /// The data of the SQLSTTs, by the registers' keys.
    statements: IndexMap<Bytes, Octets>,
}

impl Model for RegisterLog {
    ghost use Rattle.std.specs.Prelude.{List};
    ghost use Rattle.unit_segments.specs.Registers.{Register};
    ghost use Rattle.unit_segments.specs.Kept.{registers_of, IsKept};

    ghost Value = { List Register };

    ghost view = { λ l. registers_of l.statements.entries };

    ghost invariant = { λ l. IsKept l.statements.entries };
}

impl RegisterLog {
    /// No register is set yet. What is added is stored in memory of this allocator.
    pub fn new(alloc: Global) -> RegisterLog
        ensures { result ≡ [] }
    {
        RegisterLog {
            alloc,
            statements: IndexMap::new(alloc),
        }
    }

    /// How many registers are set, at most 64.
    pub fn len(&self) -> usize
        ensures len { result ≡ length self.now }
        ensures most { result ≤ most_registers }
    {
        self.statements.len()
    }

    /// A log with the same registers, which goes on by itself: what is added to either isn't added to the other. Long
    /// statements are shared.
    pub fn copy(&self) -> Result<RegisterLog, NoMemory>
        ensures { IfOk result (λ log. log ≡ self.now) }
    {
        let mut statements = IndexMap::new(self.alloc);
        let mut left = self.statements.as_slice();
        while let Some(((key, statement), rest)) = left.split_first() {
            statements.insert(key.clone()?, share(statement)?)?;
            left = rest;
        }
        Ok(RegisterLog {
            alloc: self.alloc,
            statements,
        })
    }

    /// Adds the SET statement that the data of a SQLSTT are, in a type definition of the application's. A register that is set
    /// already keeps its place. `TooLong` comes exactly where the texts have more than 4,096 bytes, `TooMany` exactly where
    /// it would be the 65th register and isn't too long. After an `Err` the log is as before.
    #[tactic(auto, unfolding(crate::specs::Registers::with_set))]
    pub fn add(&mut self, sqlstt: &[u8], typdef: TypDef) -> Result<(), RegisterFault>
        ensures ok { OnOk result (with_set typdef self.old sqlstt.now ≡ Ok self.new) }
        ensures err { OnErr result (self.new ≡ self.old) }
        ensures why { IfErr result (λ fault. IsRefusal fault (with_set typdef self.old sqlstt.now)) }
    {
        if is_too_long(sqlstt) {
            return Err(RegisterFault::TooLong);
        }
        let key = key_of(self.alloc, sqlstt, typdef)?;
        let count = self.len();
        let is_set = self.has(&key);
        if is_full(count, is_set) {
            return Err(RegisterFault::TooMany);
        }
        self.put(key, sqlstt)?;
        Ok(())
    }

    /// Whether a register with this key is set.
    fn has(&self, key: &Bytes) -> bool
        ensures { result ≡ has_key key.now self.now }
    {
        self.statements.contains_key(key)
    }

    /// Sets a register, for which there is room.
    fn put(&mut self, key: Bytes, sqlstt: &[u8]) -> Result<(), NoMemory>
        requires room { length (with_register (record { key = key; statement = sqlstt.now }) self.old) ≤ most_registers }
        requires size { length sqlstt.now ≤ most_statement }
        ensures ok { OnOk result (self.new ≡ with_register (record { key = key; statement = sqlstt.now }) self.old) }
        ensures err { OnErr result (self.new ≡ self.old) }
    {
        let statement = Octets::of(self.alloc, sqlstt)?;
        self.statements.insert(key, statement)?;
        Ok(())
    }

    /// The chain that sets all registers again, in canonical bytes: one EXCSQLSET with number 1, and each statement in an object
    /// DSS of its own (DRDA, volume 3, EXCSQLSET). It is empty where no register is set.
    pub fn chain(&self) -> Result<Octets, NoMemory>
        ensures { IfOk result (λ bytes. bytes ≡ log_bytes self.now) }
    {
        let mut commands = Sequence::new(self.alloc);
        if self.len() > 0 {
            commands.push(self.command()?)?;
        }
        write_chain(self.alloc, &commands)
    }

    /// The command that sets all registers again: one EXCSQLSET with number 1, and each statement in an object of its own.
    pub fn command(&self) -> Result<Command, NoMemory>
        ensures { IfOk result (λ command. command ≡ set_command self.now) }
    {
        let mut objects = Sequence::new(self.alloc);
        let mut left = self.statements.as_slice();
        while let Some(((_, statement), rest)) = left.split_first() {
            objects.push(object(self.alloc, SQLSTT, statement.as_slice())?)?;
            left = rest;
        }
        Ok(Command {
            code: EXCSQLSET,
            corr: 1,
            go_on: false,
            at: 0,
            body: object(self.alloc, EXCSQLSET, &[])?,
            objects,
        })
    }
}

/// The statement of a SQLSTT; where its data are no two texts, all of them are the text.
fn set_of(sqlstt: &[u8]) -> Statement<'_>
    ensures statement { seen_statement result ≡ set_of sqlstt.now }
    ensures size { length sqlstt.now ≤ result.size + 10 }
{
    match statement_of(sqlstt) {
        Some(statement) => statement,
        None => Statement {
            text: sqlstt,
            size: sqlstt.len(),
        },
    }
}

/// Whether the texts of a statement have more bytes than they may.
fn is_too_long(sqlstt: &[u8]) -> bool
    ensures long { result ≡ nat_lt most_text (set_of sqlstt.now).size }
    ensures size { length sqlstt.now ≤ (set_of sqlstt.now).size + 10 }
{
    set_of(sqlstt).size > MOST_TEXT
}

/// Whether there is no room for a register, where so many are set, and this one is or isn't.
fn is_full(count: usize, is_set: bool) -> bool
    ensures { result ≡ (nat_le most_registers count && not is_set) }
{
    count >= MOST_REGISTERS && !is_set
}

/// The key of the register that a statement sets.
fn key_of(alloc: Global, sqlstt: &[u8], typdef: TypDef) -> Result<Bytes, NoMemory>
    ensures { IfOk result (λ key. key ≡ key_of typdef sqlstt.now) }
{
    let text = set_of(sqlstt).text;
    Ok(Bytes::copy_from_slice(alloc, before(text, equals_sign(typdef)))?)
}

/// The bytes of a statement before its first equals sign, or all where there is none.
fn before(text: &[u8], sign: u8) -> &[u8]
    ensures { result.now ≡ before_first (λ byte. byte == sign) text.now }
{
    match place_of(text, sign) {
        Some(end) => &text[..end],
        None => text,
    }
}

/// The first place of a byte, from 0.
fn place_of(bytes: &[u8], sign: u8) -> Option<usize>
    ensures { result ≡ position (λ byte. byte == sign) bytes.now }
{
    bytes.iter().position(|byte| *byte == sign)
}

/// The byte of an equals sign.
fn equals_sign(typdef: TypDef) -> u8
    ensures { result ≡ equals_sign typdef }
{
    match typdef {
        TypDef::Sql370 => 0x7E,
        TypDef::SqlAsc | TypDef::SqlX86 => 0x3D,
    }
}

/// The object with this code point and this content.
fn object(alloc: Global, code: u16, content: &[u8]) -> Result<Octets, NoMemory>
    requires { length content.now + 8 ≤ greatest_extended }
    ensures { IfOk result (λ object. object ≡ canonical_object code content.now) }
{
    let mut builder = Builder::new(alloc);
    builder.begin(code)?;
    builder.put(content)?;
    builder.end()?;
    Ok(builder.finish())
}
