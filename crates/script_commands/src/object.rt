ghost use Rattle.std.specs.Prelude.{◌≡◌, ◌+◌, ◌<◌, ◌≤◌, ◌∷◌, length, vec_len, IfOk, OnOk};
ghost use Rattle.byteorder.specs.Endian.{big_bytes};
ghost use Rattle.ddm_objects.specs.Objects.{canonical_object};
ghost use Rattle.ddm_objects.specs.Builder.{building_size, after_put};
ghost use Rattle.ddm_codepoints.specs.declared.typdef.TypDef.TheVariants.{Sql370};
ghost use Rattle.reply_texts.specs.Text.{codes_in};
ghost use Rattle.script_commands.specs.Objects.{text_data, section_data, section_object};

use byteorder::{BigEndian, ByteOrder};
use ddm_codepoints::code_point::PKGNAMCSN;
use ddm_codepoints::{TypDef, padded_name};
use ddm_objects::Builder;
use link_ends::{NoMemory, Octets};
use reply_texts::encode;
use std::alloc::Global;

/// What stands for a text that is absent. DRDA, volume 3, SQLSTT.
const ABSENT: u8 = 0xFF;

/// An object with these data.
pub(crate) fn object(alloc: Global, code: u16, bytes: &[u8]) -> Result<Octets, NoMemory>
    requires { length bytes.now ≤ 33554424 }
    ensures { IfOk result (λ object. object ≡ canonical_object code bytes.now) }
{
    let mut builder = Builder::new(alloc);
    builder.begin(code)?;
    builder.put(bytes)?;
    builder.end()?;
    Ok(builder.finish())
}

/// Writes an object with these data within the innermost one that is begun.
pub(crate) fn put_object(builder: &mut Builder, code: u16, bytes: &[u8]) -> Result<(), NoMemory>
    requires begun { 0 < length builder.old.begun }
    requires depth { length builder.old.begun < 8 }
    requires room { building_size builder.old + (length bytes.now + 8) ≤ 33554432 }
    ensures { OnOk result (builder.new ≡ after_put builder.old (canonical_object code bytes.now)) }
{
    builder.begin(code)?;
    builder.put(bytes)?;
    builder.end()?;
    Ok(())
}

/// Writes an object that has one object alone within the innermost one that is begun.
pub(crate) fn put_outer(
    builder: &mut Builder,
    outer: u16,
    code: u16,
    bytes: &[u8],
) -> Result<(), NoMemory>
    requires begun { 0 < length builder.old.begun }
    requires depth { length builder.old.begun < 7 }
    requires room { building_size builder.old + (length bytes.now + 16) ≤ 33554432 }
    requires short { length bytes.now ≤ 1000 }
    ensures { OnOk result (builder.new ≡ after_put builder.old (canonical_object outer (canonical_object code bytes.now))) }
{
    builder.begin(outer)?;
    put_object(builder, code, bytes)?;
    builder.end()?;
    Ok(())
}

/// A text as data of QTDSQL370 have it.
pub(crate) fn codes_of(alloc: Global, text: &[u8]) -> Result<Vec<u8>, NoMemory>
    ensures { IfOk result (λ codes. codes.items ≡ codes_in Sql370 text.now) }
{
    let mut codes = Vec::from_slice(alloc, text)?;
    encode(codes.as_mut_slice(), TypDef::Sql370);
    Ok(codes)
}

/// The byte that says that a text is there, and its length.
fn length_bytes(count: u32) -> [u8; 5]
    ensures { result ≡ 0 ∷ big_bytes 4 count }
{
    let mut bytes = [0; 5];
    BigEndian::write_u32(&mut bytes[1..], count);
    bytes
}

/// SQLSTT or SQLATTR with this text. DRDA, volume 3, SQLSTT, SQLATTR.
pub(crate) fn text_object(alloc: Global, code: u16, text: &[u8]) -> Result<Octets, NoMemory>
    requires { length text.now ≤ 16777216 }
    ensures { IfOk result (λ object. object ≡ canonical_object code (text_data text.now)) }
{
    let codes = codes_of(alloc, text)?;
    let mut builder = Builder::new(alloc);
    builder.begin(code)?;
    builder.put(&length_bytes(text.len() as u32))?;
    builder.put(codes.as_slice())?;
    builder.put(&[ABSENT])?;
    builder.end()?;
    Ok(builder.finish())
}

/// The data of PKGNAMCSN. DDM, volume 3, PKGNAMCSN.
fn section_data(alloc: Global, rdb: &[u8], section: u16) -> Result<Vec<u8>, NoMemory>
    requires { length rdb.now ≤ 18 }
    ensures bytes { IfOk result (λ bytes. bytes.items ≡ section_data rdb.now section) }
    ensures size { IfOk result (λ bytes. vec_len bytes ≡ 64) }
{
    let mut bytes = Vec::from_slice(alloc, &padded_name(rdb))?;
    bytes.extend_from_slice(&padded_name(b"NULLID"))?;
    bytes.extend_from_slice(&padded_name(b"SCRIPT"))?;
    bytes.extend_from_slice(&[1; 8])?;
    bytes.extend_from_slice(&section.to_be_bytes())?;
    Ok(bytes)
}

/// An object that has PKGNAMCSN of a section alone. DDM, volume 3, PKGNAMCSN.
#[tactic(auto, unfolding(crate::specs::Objects::section_object))]
pub(crate) fn object_of_section(
    alloc: Global,
    code: u16,
    rdb: &[u8],
    section: u16,
) -> Result<Octets, NoMemory>
    requires { length rdb.now ≤ 18 }
    ensures { IfOk result (λ object. object ≡ canonical_object code (section_object rdb.now section)) }
{
    let bytes = section_data(alloc, rdb, section)?;
    let mut builder = Builder::new(alloc);
    builder.begin(code)?;
    put_object(&mut builder, PKGNAMCSN, bytes.as_slice())?;
    builder.end()?;
    Ok(builder.finish())
}
