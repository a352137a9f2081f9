use crate::{Register, Statement, read_statement, write_set};
use std::test::Fail;

/// What a text is read as, without memory of its own.
#[derive(Clone, Copy, Debug, PartialEq, Eq)]
enum Form {
    Insert(u32),
    Update(u32),
    Delete(u32),
    Set(Register),
    Select,
    Nothing,
}

/// The form of what was read, and whether its text or value is this one.
fn form_of(read: &Option<Statement>, wanted: &[u8]) -> (Form, bool) {
    match read {
        Some(Statement::Insert { key, text }) => (Form::Insert(*key), text.as_slice() == wanted),
        Some(Statement::Update { key, text }) => (Form::Update(*key), text.as_slice() == wanted),
        Some(Statement::Delete { key }) => (Form::Delete(*key), wanted.is_empty()),
        Some(Statement::Set { register, value }) => (
            Form::Set(*register),
            value.as_slice() == wanted,
        ),
        Some(Statement::Select) => (Form::Select, wanted.is_empty()),
        None => (Form::Nothing, wanted.is_empty()),
    }
}

/// A text, what it is read as, and the text or value in it.
struct Row(&'static [u8], Form, &'static [u8]);

static ROWS: [Row; 26] = [
    Row(b"INSERT INTO T VALUES (1, 'A')", Form::Insert(1), b"A"),
    Row(
        b"INSERT INTO T VALUES (000000042, '')",
        Form::Insert(42),
        b"",
    ),
    Row(
        b"INSERT INTO T VALUES (999999999, 'a, b')",
        Form::Insert(999_999_999),
        b"a, b",
    ),
    Row(
        b"INSERT INTO T VALUES (1000000000, 'A')",
        Form::Nothing,
        b"",
    ),
    Row(b"INSERT INTO T VALUES (, 'A')", Form::Nothing, b""),
    Row(b"INSERT INTO T VALUES (1,'A')", Form::Nothing, b""),
    Row(b"INSERT INTO T VALUES (1, 'A'B')", Form::Nothing, b""),
    Row(b"INSERT INTO T VALUES (1, 'A') ", Form::Nothing, b""),
    Row(b"INSERT INTO T VALUES (1, 'A!')", Form::Nothing, b""),
    Row(b"insert into T values (1, 'A')", Form::Nothing, b""),
    Row(b"UPDATE T SET V = 'B' WHERE K = 1", Form::Update(1), b"B"),
    Row(b"UPDATE T SET V = 'B' WHERE K = 1 ", Form::Nothing, b""),
    Row(b"UPDATE T SET V = 'B'' WHERE K = 1", Form::Nothing, b""),
    Row(b"DELETE FROM T WHERE K = 07", Form::Delete(7), b""),
    Row(b"DELETE FROM T WHERE K = -7", Form::Nothing, b""),
    Row(
        b"SET CURRENT SCHEMA = 'S1'",
        Form::Set(Register::Schema),
        b"S1",
    ),
    Row(
        b"SET CURRENT DEGREE = 'ANY'",
        Form::Set(Register::Degree),
        b"ANY",
    ),
    Row(
        b"SET CURRENT PATH = 'a=b'",
        Form::Set(Register::Path),
        b"a=b",
    ),
    Row(b"SET R1 = 'A'", Form::Set(Register::Numbered(1)), b"A"),
    Row(b"SET R99 = 'A'", Form::Set(Register::Numbered(99)), b"A"),
    Row(b"SET R0 = 'A'", Form::Nothing, b""),
    Row(b"SET R01 = 'A'", Form::Nothing, b""),
    Row(b"SET R100 = 'A'", Form::Nothing, b""),
    Row(b"SET CURRENT  PATH = 'A'", Form::Nothing, b""),
    Row(b"SELECT K, V FROM T", Form::Select, b""),
    Row(b"COMMIT", Form::Nothing, b""),
];

#[test]
fn statements_are_read(rt: HostRuntime) -> Result<(), Fail> {
    for row in ROWS.iter() {
        let read = read_statement(rt.alloc(), row.0)?;
        assert_eq!(rt; form_of(&read, row.2), (row.1, true));
    }
    Ok(())
}

#[test]
fn texts_have_200_characters(rt: HostRuntime) -> Result<(), Fail> {
    for (count, wanted) in [(200, Form::Insert(1)), (201, Form::Nothing)] {
        let mut text = Vec::from_slice(rt.alloc(), b"INSERT INTO T VALUES (1, '")?;
        for _ in 0..count {
            text.push(b'x')?;
        }
        text.extend_from_slice(b"')")?;
        let read = read_statement(rt.alloc(), text.as_slice())?;
        assert_eq!(rt; form_of(&read, b"").0, wanted);
    }
    Ok(())
}

#[test]
fn sets_are_written(rt: HostRuntime) -> Result<(), Fail> {
    let schema = write_set(rt.alloc(), Register::Schema, b"S1")?;
    assert_eq!(rt; schema.as_slice(), b"SET CURRENT SCHEMA = 'S1'".as_slice());
    let numbered = write_set(rt.alloc(), Register::Numbered(10), b"")?;
    assert_eq!(rt; numbered.as_slice(), b"SET R10 = ''".as_slice());
    Ok(())
}
