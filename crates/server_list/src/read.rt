ghost use Rattle.std.specs.Prelude.{◌≡◌, ℕ, ◌<◌, ◌≤◌, ◌*◌, length, fold, IfSome, Some, None};
ghost use Rattle.server_list.specs.Lists.{Listing, no_rows};
ghost use Rattle.server_list.specs.Layout.{rows_of, counted_list, numbered_list, spelled_list, row_at, with_known, known_rows, read_known, read_list};

use crate::list::{ServerList, ServerRow};
use crate::tried::Tried;
use byteorder::{BigEndian, ByteOrder};

/// The byte that the data of a list without a number begin with.
pub(crate) const PLAIN: u8 = 1;

/// The byte that the data of a list with a number begin with.
pub(crate) const NUMBERED: u8 = 2;

/// How many bytes a list's number takes.
pub(crate) const NUMBER: usize = 4;

/// How many bytes a row takes.
const ROW: usize = 4;

/// The list that these data of SRVLST spell, of the known members alone; of a member that is named again the first row
/// counts. `None` where the layout isn't met, or no row is left.
pub fn read_list(bytes: &[u8], known: &Tried) -> Option<ServerList>
    ensures { result ≡ read_list bytes.now known.now }
{
    match *bytes.first()? {
        PLAIN => read_rows(0, &bytes[1..], known),
        NUMBERED => read_numbered(&bytes[1..], known),
        _ => None,
    }
}

/// The list behind its number, which isn't 0.
fn read_numbered(bytes: &[u8], known: &Tried) -> Option<ServerList>
    ensures { result ≡ read_known known.now (numbered_list bytes.now) }
{
    if bytes.len() < NUMBER {
        return None;
    }
    match BigEndian::read_u32(bytes) {
        0 => None,
        number => read_rows(number, &bytes[NUMBER..], known),
    }
}

/// The list with this number and the rows behind their count.
fn read_rows(number: u32, bytes: &[u8], known: &Tried) -> Option<ServerList>
    ensures { result ≡ read_known known.now (counted_list number bytes.now) }
{
    let (count, rows) = bytes.split_first()?;
    if *count < 1 || *count > 32 || rows.len() != ROW * *count as usize {
        return None;
    }
    let list = known_list(number, rows, known);
    if list.is_empty() { None } else { Some(list) }
}

/// The rows of known members that these bytes spell, each member once.
fn known_list(number: u32, bytes: &[u8], known: &Tried) -> ServerList
    ensures { result ≡ fold (with_known known.now) (record no_rows { number = number }) (rows_of bytes.now) }
{
    let mut list = ServerList::new();
    list.set_number(number);
    let mut rest = bytes;
    while rest.len() >= ROW {
        let (bytes, after) = rest.split_at(ROW);
        add_known(&mut list, row_of(bytes), known);
        rest = after;
    }
    list
}

/// Adds a row, where its member is known and isn't there yet.
fn add_known(list: &mut ServerList, row: ServerRow, known: &Tried)
    ensures { list.new ≡ with_known known.now list.old row }
{
    if known.has(row.member) {
        list.push(row);
    }
}

/// The row that these bytes begin with.
fn row_of(bytes: &[u8]) -> ServerRow
    requires { 4 ≤ length bytes.now }
    ensures { result ≡ row_at bytes.now }
{
    ServerRow {
        member: u32::from(BigEndian::read_u16(bytes)),
        weight: BigEndian::read_u16(&bytes[2..]),
    }
}
