ghost use Rattle.std.specs.Prelude.{◌≡◌, ◌++◌, IfOk, OnOk};
ghost use Rattle.member_statements.specs.Register.{IsRegister, register_name, set_text};

use link_ends::{NoMemory, Octets};
use std::alloc::Global;

/// A special register of the small member, in the order in which they are told.
#[derive(Clone, Copy, Debug, PartialEq, Eq, PartialOrd, Ord)]
pub enum Register {
    /// CURRENT SCHEMA.
    Schema,
    /// CURRENT DEGREE.
    Degree,
    /// CURRENT PATH.
    Path,
    /// One of the registers R1 to R99.
    Numbered(u8),
}

/// The text of the SET statement that gives a register this value.
pub fn write_set(alloc: Global, register: Register, value: &[u8]) -> Result<Octets, NoMemory>
    requires { IsRegister register }
    ensures { IfOk result (λ text. text ≡ set_text register value.now) }
{
    let mut text = Octets::of(alloc, b"SET ")?;
    register.write_name(&mut text)?;
    text.push_all(b" = '")?;
    text.push_all(value)?;
    text.push_all(b"'")?;
    Ok(text)
}

impl Register {
    /// Appends the name as statements have it.
    fn write_name(self, text: &mut Octets) -> Result<(), NoMemory>
        requires { IsRegister self }
        ensures { OnOk result (text.new ≡ text.old ++ register_name self) }
    {
        match self {
            Register::Schema => text.push_all(b"CURRENT SCHEMA"),
            Register::Degree => text.push_all(b"CURRENT DEGREE"),
            Register::Path => text.push_all(b"CURRENT PATH"),
            Register::Numbered(number) if number < 10 => text.push_all(&[b'R', b'0' + number]),
            Register::Numbered(number) => text.push_all(&[
                b'R',
                b'0' + number / 10,
                b'0' + number % 10,
            ]),
        }
    }
}
