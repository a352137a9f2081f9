ghost use Rattle.std.specs.Prelude.{◌≡◌, IfOk};
ghost use Rattle.std.specs.List.{list_any};
ghost use Rattle.ddm_codepoints.specs.CodePoint.{secchkrm};
ghost use Rattle.unit_segments.specs.Command.{data_of};
ghost use Rattle.unit_segments.specs.Strip.{is_object_of, tells_error};
ghost use Rattle.unit_segments.specs.Accepts.{gives_admission, is_admission, has_accrdbrm, is_success, is_good_card, sets_only};
ghost use Rattle.plain_model.specs.Group.{told_typdef};
ghost use Rattle.plain_model.specs.Answered.{without_error};
ghost use Rattle.session_core.specs.Seen.{stands_by_access};

use access_handshake::{find_parameter, read_accepted};
use ddm_codepoints::TypDef;
use ddm_codepoints::code_point::{
    ACCRDB, ACCRDBRM, EXCSQLSET, SECCHK, SECCHKCD, SECCHKRM, SQLCARD,
};
use ddm_codepoints::value::ADMITTED;
use dss_frame::Dss;
use link_ends::NoMemory;
use reply_texts::{Card, read_sqlcard};
use std::alloc::Global;
use unit_segments::{Command, data_of, is_object_of, tells_error};

/// Whether the replies to these commands lead the session by its access alone, and by no unit of work: the first is SECCHK or
/// ACCRDB, or there is none (DDM, volume 3, SECCHK, ACCRDB).
pub(crate) fn stands_by_access(commands: &[Command]) -> bool
    ensures { result ≡ stands_by_access commands.now }
{
    match commands.first() {
        Some(command) => command.code == SECCHK || command.code == ACCRDB,
        None => true,
    }
}

/// Whether the first SECCHKRM among these replies says that the user may go on (DDM, volume 3, SECCHKRM).
pub(crate) fn gives_admission(replies: &[Dss]) -> bool
    ensures { result ≡ gives_admission replies.now }
{
    let mut left = replies;
    while let Some((reply, rest)) = left.split_first() {
        if is_object_of(SECCHKRM, reply) {
            return match find_parameter(data_of(reply.body.as_slice()), SECCHKCD) {
                Some(code) => code == [ADMITTED].as_slice(),
                None => false,
            };
        }
        left = rest;
    }
    false
}

/// Whether there is an ACCRDBRM among these replies (DDM, volume 3, ACCRDBRM).
pub(crate) fn has_accrdbrm(replies: &[Dss]) -> bool
    ensures { result ≡ has_accrdbrm replies.now }
{
    replies.iter().any(|reply| is_object_of(ACCRDBRM, reply))
}

/// The type definition that the first ACCRDBRM among these replies tells, or else this one.
pub(crate) fn told_typdef(
    alloc: Global,
    typdef: TypDef,
    replies: &[Dss],
) -> Result<TypDef, NoMemory>
    ensures { IfOk result (λ told. told ≡ told_typdef typdef replies.now) }
{
    let mut left = replies;
    while let Some((reply, rest)) = left.split_first() {
        if is_object_of(ACCRDBRM, reply) {
            return match read_accepted(alloc, data_of(reply.body.as_slice()))? {
                Some(accepted) => Ok(accepted.typdef),
                None => Ok(typdef),
            };
        }
        left = rest;
    }
    Ok(typdef)
}

/// Whether none of these replies tells an error (DDM, volume 3, SVRCOD).
pub(crate) fn without_error(replies: &[Dss]) -> bool
    ensures { result ≡ without_error replies.now }
{
    !tell_error(replies)
}

/// Whether one of these replies tells an error.
fn tell_error(replies: &[Dss]) -> bool
    ensures { result ≡ list_any tells_error replies.now }
{
    replies.iter().any(|reply| tells_error(reply))
}

/// Whether these commands set registers alone, and each was answered by just one SQLCARD that tells no error.
#[tactic(auto, unfolding(unit_segments::specs::Accepts::sets_only))]
pub(crate) fn sets_only(typdef: TypDef, commands: &[Command], replies: &[Dss]) -> bool
    ensures { result ≡ sets_only typdef commands.now replies.now }
{
    let mut left = commands;
    let mut behind = replies;
    while let Some((command, rest)) = left.split_first() {
        let Some((reply, others)) = behind.split_first() else {
            return false;
        };
        if command.code != EXCSQLSET || reply.corr != command.corr || !is_good_card(typdef, reply) {
            return false;
        }
        left = rest;
        behind = others;
    }
    behind.is_empty()
}

/// Whether it is a SQLCARD that can be read, and is null or has a SQLCODE that isn't negative.
fn is_good_card(typdef: TypDef, reply: &Dss) -> bool
    ensures { result ≡ is_good_card typdef reply.now }
{
    is_object_of(SQLCARD, reply) && is_success(read_sqlcard(data_of(reply.body.as_slice()), typdef))
}

/// Whether a card tells no error.
fn is_success(card: Option<Card>) -> bool
    ensures { result ≡ is_success card }
{
    match card {
        None => false,
        Some(Card::Null) => true,
        Some(Card::Full(sqlca)) => sqlca.code >= 0,
    }
}
