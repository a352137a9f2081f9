ghost use Rattle.std.specs.Prelude.{◌≡◌};
ghost use Rattle.reply_texts.specs.RdbName.{characters_of};
ghost use Rattle.byteorder.specs.Endian.{big_bytes};
ghost use Rattle.dss_frame.specs.declared.dss.Kind.TheVariants.{Reply, Object};
ghost use Rattle.dss_frame.specs.Dss.{canonical};
ghost use Rattle.ddm_objects.specs.Objects.{canonical_object};
ghost use Rattle.ddm_codepoints.specs.CodePoint.{svrcod};
ghost use Rattle.reply_texts.specs.Reply.{abnuow_object};
ghost use Rattle.reply_texts.specs.Sqlcard.{sqlcard_object};
ghost use Rattle.reply_texts.specs.Closing.{last, before_same, syntax_error, syntax_reply, agent_reply, limit_reply, memory_reply, ended_card, ended_reply};
ghost use Rattle.reply_texts.specs.declared.sqlcard.Card.TheVariants.{Full};

use crate::rdb_name::RdbName;
use crate::reply::abnuow_bytes;
use crate::sqlcard::{Sqlca, full_card};
use byteorder::{BigEndian, ByteOrder};
use ddm_codepoints::TypDef;
use ddm_codepoints::code_point::{AGNPRMRM, RSCLMTRM, SVRCOD, SYNERRCD, SYNTAXRM};
use ddm_codepoints::value::{ERROR, SEVERE};
use dss_frame::Why;

/// What stands behind the length of a reply DSS that is the last of its chain: D0 and the format byte.
const REPLY: u16 = 0xD002;

/// The same for a reply DSS before a DSS with the same number.
const REPLY_BEFORE_SAME: u16 = 0xD052;

/// The same for an object DSS that is the last of its chain.
const OBJECT: u16 = 0xD003;

/// The SQLCODE of a conversation that has no member left.
const NO_MEMBER: i32 = -30081;

/// The SYNERRCD that says what is wrong with the bytes of a DSS. DDM, volume 3, SYNERRCD.
pub fn syntax_error(why: Why) -> u8
    ensures { result ≡ syntax_error why }
{
    match why {
        Why::Short => 0x01,
        Why::NoD0 => 0x03,
        Why::Format => 0x04,
        Why::Continue => 0x05,
    }
}

/// SYNTAXRM with this SYNERRCD, as a whole DSS with this correlation number. DDM, volume 3, SYNTAXRM.
#[tactic(auto, unfolding(crate::specs::Closing::syntax_reply, dss_frame::specs::Dss::canonical, dss_frame::specs::Dss::further))]
pub fn syntax_dss(corr: u16, code: u8) -> [u8; 21]
    ensures { result ≡ syntax_reply corr code }
{
    let mut dss = [code; 21];
    let fields = [21, REPLY, corr, 15, SYNTAXRM, 6, SVRCOD, ERROR, 5, SYNERRCD];
    BigEndian::write_u16_into(&fields, &mut dss[..20]);
    dss
}

/// AGNPRMRM, as a whole DSS with this correlation number: no member gives access. DDM, volume 3, AGNPRMRM.
#[tactic(auto, unfolding(crate::specs::Closing::agent_reply))]
pub fn agnprm_dss(corr: u16) -> [u8; 16]
    ensures { result ≡ agent_reply corr }
{
    alone(corr, AGNPRMRM, SEVERE)
}

/// RSCLMTRM, as a whole DSS with this correlation number: a limit was passed. DDM, volume 3, RSCLMTRM.
#[tactic(auto, unfolding(crate::specs::Closing::limit_reply))]
pub fn limit_dss(corr: u16) -> [u8; 16]
    ensures { result ≡ limit_reply corr }
{
    alone(corr, RSCLMTRM, ERROR)
}

/// RSCLMTRM, as a whole DSS with this correlation number: memory ran out. DDM, volume 3, RSCLMTRM.
#[tactic(auto, unfolding(crate::specs::Closing::memory_reply))]
pub fn memory_dss(corr: u16) -> [u8; 16]
    ensures { result ≡ memory_reply corr }
{
    alone(corr, RSCLMTRM, SEVERE)
}

/// ABNUOWRM and a SQLCARD with SQLCODE -30081, as two whole DSSs with this correlation number: no member is left. SQLSTATE
/// says whether the outcome of the unit of work is unknown. DDM, volume 3, ABNUOWRM and SQLCARD.
pub fn ended_dss(corr: u16, rdb: &RdbName, unknown: bool, typdef: TypDef) -> [u8; 68]
    ensures { result ≡ ended_reply corr (characters_of rdb.now) unknown typdef }
{
    let mut dsss = [0; 68];
    dsss[..38].copy_from_slice(&abnuow_dss(corr, rdb));
    dsss[38..].copy_from_slice(&card_dss(corr, &ended_card(unknown), typdef));
    dsss
}

/// ABNUOWRM, as a whole DSS before one with the same correlation number.
fn abnuow_dss(corr: u16, rdb: &RdbName) -> [u8; 38]
    ensures { result ≡ canonical (before_same Reply corr (abnuow_object (characters_of rdb.now))) }
{
    let mut dss = [0; 38];
    BigEndian::write_u16_into(&[38, REPLY_BEFORE_SAME, corr], &mut dss[..6]);
    dss[6..].copy_from_slice(&abnuow_bytes(rdb));
    dss
}

/// SQLCARD, as a whole DSS that ends its chain.
fn card_dss(corr: u16, sqlca: &Sqlca, typdef: TypDef) -> [u8; 30]
    ensures { result ≡ canonical (last Object corr (sqlcard_object typdef (Full sqlca.now))) }
{
    let mut dss = [0; 30];
    BigEndian::write_u16_into(&[30, OBJECT, corr], &mut dss[..6]);
    dss[6..].copy_from_slice(&full_card(sqlca, typdef));
    dss
}

/// A reply message with its severity alone, as a whole DSS with this correlation number.
#[tactic(auto, unfolding(dss_frame::specs::Dss::canonical, dss_frame::specs::Dss::further))]
fn alone(corr: u16, code: u16, severity: u16) -> [u8; 16]
    ensures { result ≡ canonical (last Reply corr (canonical_object code (canonical_object svrcod (big_bytes 2 severity)))) }
{
    let mut dss = [0; 16];
    let fields = [16, REPLY, corr, 10, code, 6, SVRCOD, severity];
    BigEndian::write_u16_into(&fields, &mut dss);
    dss
}

/// What is said where no member is left.
fn ended_card(unknown: bool) -> Sqlca
    ensures { Full result ≡ ended_card unknown }
{
    Sqlca {
        code: NO_MEMBER,
        state: if unknown { *b"08007" } else { *b"08001" },
        proc: [b' '; 8],
    }
}
