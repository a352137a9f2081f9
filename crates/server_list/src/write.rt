ghost use Rattle.std.specs.Prelude.{◌≡◌, ℕ, ◌+◌, ◌<◌, ◌≤◌, ◌++◌, length, IfOk, OnOk};
ghost use Rattle.server_list.specs.Layout.{row_bytes, counted_rows, list_data, list_object};

use crate::list::{ServerList, ServerRow};
use crate::read::{NUMBERED, PLAIN};
use byteorder::{BigEndian, ByteOrder};
use ddm_codepoints::code_point::SRVLST;
use ddm_objects::Builder;
use link_ends::{NoMemory, Octets};
use std::alloc::Global;

/// SRVLST with this list, the whole object.
pub fn write_list(alloc: Global, list: &ServerList) -> Result<Octets, NoMemory>
    requires { 0 < length list.now.rows }
    ensures object { IfOk result (λ object. object ≡ list_object list.now) }
    ensures size { IfOk result (λ object. length object ≤ 138) }
{
    let data = list_data(alloc, list)?;
    let mut builder = Builder::new(alloc);
    builder.begin(SRVLST)?;
    builder.put(data.as_slice())?;
    builder.end()?;
    Ok(builder.finish())
}

/// The data of SRVLST.
fn list_data(alloc: Global, list: &ServerList) -> Result<Octets, NoMemory>
    ensures data { IfOk result (λ bytes. bytes ≡ list_data list.now) }
    ensures size { IfOk result (λ bytes. length bytes ≤ 134) }
{
    let mut data = Octets::new(alloc);
    if list.number() == 0 {
        data.push_all(&[PLAIN])?;
    } else {
        data.push_all(&[NUMBERED])?;
        data.push_all(&list.number().to_be_bytes())?;
    }
    put_rows(&mut data, list)?;
    Ok(data)
}

/// Appends the rows behind their count.
fn put_rows(bytes: &mut Octets, list: &ServerList) -> Result<(), NoMemory>
    ensures rows { OnOk result (bytes.new ≡ bytes.old ++ counted_rows list.now.rows) }
    ensures size { OnOk result (length bytes.new ≤ length bytes.old + 129) }
{
    bytes.push_all(&[list.len() as u8])?;
    for row in list.rows() {
        bytes.push_all(&row_bytes(*row))?;
    }
    Ok(())
}

/// The bytes of a row.
fn row_bytes(row: ServerRow) -> [u8; 4]
    requires { row.member ≤ 32 }
    ensures { result ≡ row_bytes row }
{
    let mut bytes = [0; 4];
    BigEndian::write_u16(&mut bytes, row.member as u16);
    BigEndian::write_u16(&mut bytes[2..], row.weight);
    bytes
}
