use crate::reply::{
    accrdbrm, card, endqryrm, enduowrm, message, opnqryrm, put_data, put_message, qrydsc, qrydta,
    qrynoprm, reply_data, secchkrm, sqlcard, sqlstt, valnsprm,
};
use crate::sql_outcome::SqlOutcome;
use ddm_codepoints::TypDef;
use dss_frame::Kind;
use link_ends::{Octets, Sequence};
use member_statements::Register;
use std::alloc::Global;
use std::test::Fail;

/// Fails where an object isn't these bytes.
fn is_object(object: &Octets, bytes: &[u8]) -> Result<(), Fail> {
    if object.as_slice() != bytes {
        return Err(Fail::from("the object is another"));
    }
    Ok(())
}

#[test]
fn access_is_answered(rt: HostRuntime) -> Result<(), Fail> {
    let alloc = rt.alloc();
    is_object(
        &secchkrm(alloc, 8, 0x13)?,
        &[
            0x00, 0x0F, 0x12, 0x19, 0x00, 0x06, 0x11, 0x49, 0x00, 0x08, 0x00, 0x05, 0x11, 0xA4,
            0x13,
        ],
    )?;
    is_object(
        &valnsprm(alloc)?,
        &[
            0x00, 0x10, 0x12, 0x52, 0x00, 0x06, 0x11, 0x49, 0x00, 0x08, 0x00, 0x06, 0x00, 0x0C,
            0x00, 0x2F,
        ],
    )?;
    is_object(
        &accrdbrm(alloc)?,
        &[
            0x00, 0x2D, 0x22, 0x01, 0x00, 0x06, 0x11, 0x49, 0x00, 0x00, 0x00, 0x0C, 0x11, 0x2E,
            0xC7, 0xD9, 0xD7, 0xF0, 0xF1, 0xF0, 0xF1, 0xF0, 0x00, 0x0D, 0x00, 0x2F, 0xD8, 0xE3,
            0xC4, 0xE2, 0xD8, 0xD3, 0xF3, 0xF7, 0xF0, 0x00, 0x0A, 0x00, 0x35, 0x00, 0x06, 0x11,
            0x9C, 0x00, 0x25,
        ],
    )
}

#[test]
fn cursors_are_answered(rt: HostRuntime) -> Result<(), Fail> {
    let alloc = rt.alloc();
    is_object(
        &opnqryrm(alloc)?,
        &[0x00, 0x0A, 0x22, 0x05, 0x00, 0x06, 0x11, 0x49, 0x00, 0x00],
    )?;
    is_object(
        &endqryrm(alloc)?,
        &[0x00, 0x0A, 0x22, 0x0B, 0x00, 0x06, 0x11, 0x49, 0x00, 0x04],
    )?;
    is_object(
        &qrynoprm(alloc)?,
        &[0x00, 0x0A, 0x22, 0x02, 0x00, 0x06, 0x11, 0x49, 0x00, 0x04],
    )?;
    is_object(
        &qrydsc(alloc)?,
        &[
            0x00, 0x16, 0x24, 0x1A, 0x09, 0x76, 0xD0, 0x02, 0x00, 0x04, 0x3F, 0x00, 0xC8, 0x09,
            0x71, 0xE0, 0x54, 0x00, 0x01, 0xD0, 0x00, 0x01,
        ],
    )?;
    is_object(
        &qrydta(alloc, 258, b"AB")?,
        &[
            0x00, 0x0F, 0x24, 0x1B, 0xFF, 0x00, 0x00, 0x00, 0x01, 0x02, 0x00, 0x00, 0x02, 0xC1,
            0xC2,
        ],
    )
}

#[test]
fn ends_of_units_are_answered(rt: HostRuntime) -> Result<(), Fail> {
    let alloc = rt.alloc();
    is_object(
        &enduowrm(alloc, 1, true)?,
        &[
            0x00, 0x14, 0x22, 0x0C, 0x00, 0x06, 0x11, 0x49, 0x00, 0x04, 0x00, 0x05, 0x21, 0x15,
            0x01, 0x00, 0x05, 0x11, 0x9F, 0xF2,
        ],
    )?;
    is_object(
        &enduowrm(alloc, 2, false)?,
        &[
            0x00, 0x0F, 0x22, 0x0C, 0x00, 0x06, 0x11, 0x49, 0x00, 0x04, 0x00, 0x05, 0x21, 0x15,
            0x02,
        ],
    )?;
    is_object(
        &sqlstt(alloc, Register::Numbered(7), b"A", TypDef::SqlAsc)?,
        b"\x00\x16\x24\x14\x00\x00\x00\x00\x0CSET R7 = 'A'\xFF",
    )?;
    is_object(
        &sqlcard(alloc, SqlOutcome::Success)?,
        &[0x00, 0x05, 0x24, 0x08, 0xFF],
    )
}

#[test]
fn replies_have_the_number(rt: HostRuntime) -> Result<(), Fail> {
    let alloc = rt.alloc();
    let mut replies = Sequence::new(alloc);
    put_message(&mut replies, 5, opnqryrm(alloc)?)?;
    put_data(&mut replies, 5, qrydsc(alloc)?)?;
    let one = message(alloc, 6, endqryrm(alloc)?)?;
    let row = reply_data(alloc, 7, qrydsc(alloc)?)?;
    let failed = card(alloc, 8, SqlOutcome::Duplicate)?;
    let table = [
        (replies.as_slice().first(), Kind::Reply, 5),
        (replies.as_slice().last(), Kind::Object, 5),
        (one.as_slice().first(), Kind::Reply, 6),
        (row.as_slice().first(), Kind::Object, 7),
        (failed.as_slice().first(), Kind::Object, 8),
    ];
    for (found, kind, corr) in table {
        match found {
            Some(dss) if dss.kind == kind && dss.corr == corr && !dss.chained => {}
            _ => return Err(Fail::from("a reply is another")),
        }
    }
    Ok(())
}
