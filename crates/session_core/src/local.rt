ghost use Rattle.std.specs.Prelude.{◌≡◌, ◌++◌, option_map, IfOk, OnOk};
ghost use Rattle.std.specs.List.{AllByRecursion};
ghost use Rattle.reply_texts.specs.RdbName.{characters_of};
ghost use Rattle.plain_model.specs.Group.{IsCommand};
ghost use Rattle.plain_model.specs.Local.{local_answer, allowed_answer, to_excsat, to_accsec, is_local, answered_locally};
ghost use Rattle.session_core.specs.SeenAnswer.{seen_answer};

use crate::replies::last;
use crate::standing::Standing;
use access_handshake::{
    AccsecAnswer, ExcsatAnswer, answer_accsec, answer_excsat, answer_rdbnam, next_stage,
};
use ddm_codepoints::class;
use ddm_codepoints::code_point::{ACCRDB, ACCSEC, EXCSAT};
use dss_frame::{DssList, Kind};
use link_ends::{NoMemory, Octets};
use reply_texts::{RdbName, cmdnsp, prccnv};
use std::alloc::Global;
use unit_segments::{Command, data_of};

/// What the gateway itself answers to a command.
#[derive(Drop)]
pub(crate) enum LocalAnswer {
    /// A reply message, which tells an error.
    Refuses(Octets),
    /// Reply data; the session stays where it stands.
    Offers(Octets),
    /// Reply data; the session stands there now.
    Moves { object: Octets, to: Standing },
}

/// What a command is answered of a session that stands so; None exactly where a server answers it. A command that isn't known is
/// refused first, then one that the stage doesn't allow (DDM, volume 3, CMDNSPRM, PRCCNVRM).
#[tactic(auto, unfolding(plain_model::specs::Local::local_answer))]
pub(crate) fn local_answer(
    alloc: Global,
    rdb: &RdbName,
    standing: &Standing,
    command: &Command,
) -> Result<Option<LocalAnswer>, NoMemory>
    requires { IsCommand command.now }
    ensures { IfOk result (λ answer. option_map seen_answer answer ≡ local_answer (characters_of rdb.now) standing.now command.now) }
{
    if !class(command.code).is_command() {
        return Ok(Some(LocalAnswer::Refuses(cmdnsp(alloc, command.code)?)));
    }
    if next_stage(standing.stage(), command.code).is_none() {
        return Ok(Some(LocalAnswer::Refuses(prccnv(alloc)?)));
    }
    allowed_answer(alloc, rdb, command)
}

/// The same of a command that the stage allows.
fn allowed_answer(
    alloc: Global,
    rdb: &RdbName,
    command: &Command,
) -> Result<Option<LocalAnswer>, NoMemory>
    requires { IsCommand command.now }
    ensures { IfOk result (λ answer. option_map seen_answer answer ≡ allowed_answer (characters_of rdb.now) command.now) }
{
    let params = data_of(command.body.as_slice());
    match command.code {
        EXCSAT => Ok(Some(to_excsat(alloc, answer_excsat(alloc, params)?))),
        ACCSEC => Ok(Some(to_accsec(alloc, answer_accsec(alloc, params)?))),
        ACCRDB => match answer_rdbnam(alloc, params, rdb.as_slice())? {
            Some(object) => Ok(Some(LocalAnswer::Refuses(object))),
            None => Ok(None),
        },
        _ => Ok(None),
    }
}

/// EXCSAT attaches the session, unless its levels are too low.
fn to_excsat(alloc: Global, answer: ExcsatAnswer) -> LocalAnswer
    ensures { seen_answer result ≡ to_excsat answer }
{
    match answer {
        ExcsatAnswer::Granted(object) => LocalAnswer::Moves {
            object,
            to: Standing::attached(alloc),
        },
        ExcsatAnswer::TooLow(object) => LocalAnswer::Refuses(object),
    }
}

/// ACCSEC chooses a mechanism, or is offered those that are known.
fn to_accsec(alloc: Global, answer: AccsecAnswer) -> LocalAnswer
    ensures { seen_answer result ≡ to_accsec answer }
{
    match answer {
        AccsecAnswer::Chosen { secmec, object } => LocalAnswer::Moves {
            object,
            to: Standing::chosen(alloc, secmec),
        },
        AccsecAnswer::Offer(object) => LocalAnswer::Offers(object),
    }
}

/// Whether the gateway itself answers a segment of a session that stands so.
pub(crate) fn is_local(
    alloc: Global,
    rdb: &RdbName,
    standing: &Standing,
    segment: &[Command],
) -> Result<bool, NoMemory>
    requires { AllByRecursion IsCommand segment.now }
    ensures { IfOk result (λ local. local ≡ is_local (characters_of rdb.now) standing.now segment.now) }
{
    match segment.first() {
        Some(command) => Ok(local_answer(alloc, rdb, standing, command)?.is_some()),
        None => Ok(false),
    }
}

/// Answers the commands of a segment in order, up to an error after which the chain doesn't go on, and says whether there was one.
/// The replies are appended to these, and the session stands where the commands lead.
#[tactic(auto, unfolding(plain_model::specs::Local::answered_locally))]
pub(crate) fn answer_locally(
    alloc: Global,
    rdb: &RdbName,
    segment: &[Command],
    standing: &mut Standing,
    replies: &mut DssList,
) -> Result<bool, NoMemory>
    requires { AllByRecursion IsCommand segment.now }
    ensures stopped { IfOk result (λ stopped. stopped ≡ (answered_locally (characters_of rdb.now) segment.now standing.old).stopped) }
    ensures standing { OnOk result (standing.new ≡ (answered_locally (characters_of rdb.now) segment.now standing.old).standing) }
    ensures replies { OnOk result (replies.new ≡ replies.old ++ (answered_locally (characters_of rdb.now) segment.now standing.old).replies) }
{
    let mut left = segment;
    while let Some((command, rest)) = left.split_first() {
        match local_answer(alloc, rdb, standing, command)? {
            None => return Ok(false),
            Some(LocalAnswer::Refuses(object)) => {
                replies.push(last(Kind::Reply, command.corr, object))?;
                if !command.go_on {
                    return Ok(true);
                }
            }
            Some(LocalAnswer::Offers(object)) => {
                replies.push(last(Kind::Object, command.corr, object))?;
            }
            Some(LocalAnswer::Moves { object, to }) => {
                replies.push(last(Kind::Object, command.corr, object))?;
                *standing = to;
            }
        }
        left = rest;
    }
    Ok(false)
}
