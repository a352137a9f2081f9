ghost use Rattle.std.specs.Prelude.{◌≡◌, ◌+◌, ◌<◌, ◌≤◌, length, IfOk, OnOk};
ghost use Rattle.ddm_objects.specs.Objects.{canonical_object};
ghost use Rattle.ddm_objects.specs.Builder.{building_size, after_put};

use ddm_objects::Builder;
use link_ends::{NoMemory, Octets};
use std::alloc::Global;

/// An object with these data.
pub(crate) fn object(alloc: Global, code: u16, bytes: &[u8]) -> Result<Octets, NoMemory>
    requires { length bytes.now ≤ 33554424 }
    ensures { IfOk result (λ object. object ≡ canonical_object code bytes.now) }
{
    let mut builder = Builder::new(alloc);
    builder.begin(code)?;
    builder.put(bytes)?;
    builder.end()?;
    Ok(builder.finish())
}

/// Writes an object with these data within the innermost one that is begun.
pub(crate) fn put_object(builder: &mut Builder, code: u16, bytes: &[u8]) -> Result<(), NoMemory>
    requires begun { 0 < length builder.old.begun }
    requires depth { length builder.old.begun < 8 }
    requires room { building_size builder.old + (length bytes.now + 8) ≤ 33554432 }
    ensures { OnOk result (builder.new ≡ after_put builder.old (canonical_object code bytes.now)) }
{
    builder.begin(code)?;
    builder.put(bytes)?;
    builder.end()?;
    Ok(())
}
