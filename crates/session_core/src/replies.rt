ghost use Rattle.std.specs.Prelude.{◌≡◌, IsTrue, IfOk};
ghost use Rattle.dss_frame.specs.declared.dss.Kind.TheVariants.{Reply, Object};
ghost use Rattle.ddm_objects.specs.Objects.{canonical_object};
ghost use Rattle.reply_texts.specs.RdbName.{characters_of};
ghost use Rattle.reply_texts.specs.Reply.{severity, abnuow_object};
ghost use Rattle.reply_texts.specs.Sqlcard.{has_text, sqlcard_object};
ghost use Rattle.reply_texts.specs.Closing.{last, ended_card};
ghost use Rattle.plain_model.specs.Lost.{rerouted_card};
ghost use Rattle.session_core.specs.Seen.{seen_owed};

use byteorder::{BigEndian, ByteOrder};
use ddm_codepoints::TypDef;
use ddm_codepoints::code_point::SVRCOD;
use dss_frame::{Dss, Kind};
use link_ends::{NoMemory, Octets};
use reply_texts::{Card, RdbName, Sqlca, abnuow, write_sqlcard};
use requester_core::Owed;
use std::alloc::Global;

/// The SQLCODE of a session that goes on with another server.
const REROUTED: i32 = -30108;

/// The SQLCODE of a session that has no member left.
const NO_MEMBER: i32 = -30081;

/// A DSS that is the last of its chain.
pub(crate) fn last(kind: Kind, corr: u16, body: Octets) -> Dss
    ensures { result ≡ last kind corr body }
{
    Dss {
        kind,
        chained: false,
        same: false,
        go_on: false,
        corr,
        body,
    }
}

/// What is said where the session goes on with another server.
#[tactic(auto, unfolding(ddm_codepoints::specs::Character::ebcdic_of))]
pub(crate) fn rerouted_card(owed: Option<Owed>) -> Card
    ensures card { result ≡ rerouted_card (seen_owed owed) }
    ensures text { IsTrue (has_text result) }
{
    match owed {
        Some(Owed::Unknown) => Card::Full(Sqlca {
            code: REROUTED,
            state: *b"08007",
            proc: [b' '; 8],
        }),
        Some(Owed::Rerouted) | None => Card::Full(Sqlca {
            code: REROUTED,
            state: *b"08506",
            proc: [b' '; 8],
        }),
    }
}

/// What is said where no member is left.
#[tactic(auto, unfolding(ddm_codepoints::specs::Character::ebcdic_of))]
pub(crate) fn ended_card(unknown: bool) -> Card
    ensures card { result ≡ ended_card unknown }
    ensures text { IsTrue (has_text result) }
{
    if unknown {
        return Card::Full(Sqlca {
            code: NO_MEMBER,
            state: *b"08007",
            proc: [b' '; 8],
        });
    }
    Card::Full(Sqlca {
        code: NO_MEMBER,
        state: *b"08001",
        proc: [b' '; 8],
    })
}

/// ABNUOWRM with this correlation number (DDM, volume 3, ABNUOWRM).
pub(crate) fn rolled_back(alloc: Global, rdb: &RdbName, number: u16) -> Result<Dss, NoMemory>
    ensures { IfOk result (λ dss. dss ≡ last Reply number (abnuow_object (characters_of rdb.now))) }
{
    Ok(last(Kind::Reply, number, abnuow(alloc, rdb)?))
}

/// SQLCARD with this correlation number, in this type definition (DDM, volume 3, SQLCARD).
pub(crate) fn sqlcard(
    alloc: Global,
    card: &Card,
    typdef: TypDef,
    number: u16,
) -> Result<Dss, NoMemory>
    requires { IsTrue (has_text card.now) }
    ensures { IfOk result (λ dss. dss ≡ last Object number (sqlcard_object typdef card.now)) }
{
    Ok(last(Kind::Object, number, write_sqlcard(alloc, card, typdef)?))
}

/// A reply message with its severity alone (DDM, volume 3, SVRCOD).
pub(crate) fn message(alloc: Global, code: u16, value: u16, number: u16) -> Result<Dss, NoMemory>
    ensures { IfOk result (λ dss. dss ≡ last Reply number (canonical_object code (severity value))) }
{
    Ok(last(
        Kind::Reply,
        number,
        Octets::of(alloc, &message_bytes(code, value))?,
    ))
}

fn message_bytes(code: u16, value: u16) -> [u8; 10]
    ensures { result ≡ canonical_object code (severity value) }
{
    let mut object = [0; 10];
    BigEndian::write_u16_into(&[10, code, 6, SVRCOD, value], &mut object);
    object
}
