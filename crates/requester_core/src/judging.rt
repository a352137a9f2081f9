ghost use Rattle.std.specs.Prelude.{◌≡◌, IfOk};
ghost use Rattle.std.specs.List.{AllByRecursion};
ghost use Rattle.unit_segments.specs.Strip.{is_granted, FitsAReply};
ghost use Rattle.unit_segments.specs.Accepts.{sets_only};
ghost use Rattle.requester_core.specs.Judging.{give, admits, led_by, answered_stage, stage_after, stripped_by};

use crate::answer::{accepts, are_readable, has_accrdbrm, is_admitted, is_good_card, told_typdef};
use crate::round::Round;
use access_handshake::{Stage, next_stage};
use ddm_codepoints::TypDef;
use ddm_codepoints::code_point::{ACCRDB, EXCSQLSET, SECCHK};
use dss_frame::{Dss, DssList};
use link_ends::NoMemory;
use std::alloc::Global;
use unit_segments::{Command, Segment, Stripped, strip};

/// Whether the reply to a round refuses no access, where the session's mechanism is this one and its server's data were in this
/// type definition before.
pub(crate) fn admits(
    alloc: Global,
    typdef: TypDef,
    mechanism: u16,
    round: &Round,
    replies: &[Dss],
) -> Result<bool, NoMemory>
    ensures { IfOk result (λ admits_now. admits_now ≡ admits typdef mechanism round.now replies.now) }
{
    match round {
        Round::Access(commands) => {
            let told = told_typdef(alloc, typdef, replies)?;
            give(alloc, told, mechanism, commands.as_slice(), replies)
        }
        Round::Again(commands) => Ok(sets_only(typdef, commands.as_slice(), replies)),
        Round::Work(_) => are_readable(alloc, replies),
    }
}

/// Whether the replies to each of these commands give access.
fn give(
    alloc: Global,
    typdef: TypDef,
    mechanism: u16,
    commands: &[Command],
    replies: &[Dss],
) -> Result<bool, NoMemory>
    ensures { IfOk result (λ all. all ≡ give typdef mechanism commands.now replies.now) }
{
    let mut left = commands;
    while let Some((command, rest)) = left.split_first() {
        if !accepts(
            alloc,
            typdef,
            mechanism,
            command.code,
            command.corr,
            replies,
        )? {
            return Ok(false);
        }
        left = rest;
    }
    Ok(true)
}

/// Whether these commands set registers alone, and each was answered by just one SQLCARD that tells no error.
#[tactic(auto, unfolding(unit_segments::specs::Accepts::sets_only))]
fn sets_only(typdef: TypDef, commands: &[Command], replies: &[Dss]) -> bool
    ensures { result ≡ sets_only typdef commands.now replies.now }
{
    let mut left = commands;
    let mut behind = replies;
    while let Some((command, rest)) = left.split_first() {
        let Some((reply, others)) = behind.split_first() else {
            return false;
        };
        if command.code != EXCSQLSET || reply.corr != command.corr || !is_good_card(typdef, reply) {
            return false;
        }
        left = rest;
        behind = others;
    }
    behind.is_empty()
}

/// What a round whose reply refused no access comes to.
#[derive(Debug, Drop)]
pub(crate) struct Done {
    /// Where the conversation stands.
    pub(crate) stage: Stage,
    /// What the reply comes to, where the round was the segment in work.
    pub(crate) stripped: Option<Stripped>,
}

/// What a round comes to whose reply refused no access, where the conversation stood at this stage.
#[tactic(auto, unfolding(unit_segments::specs::Strip::stripped))]
pub(crate) fn finished(
    alloc: Global,
    round: &Round,
    replies: &DssList,
    stage: Stage,
) -> Result<Done, NoMemory>
    requires { AllByRecursion FitsAReply replies.now }
    ensures stage { IfOk result (λ done. done.stage ≡ stage_after round.now replies.now stage) }
    ensures stripped { IfOk result (λ done. done.stripped ≡ stripped_by round.now replies.now) }
{
    match round {
        Round::Access(commands) | Round::Again(commands) => Ok(Done {
            stage: led_by(commands.as_slice(), stage),
            stripped: None,
        }),
        Round::Work(segment) => {
            let stripped = strip(alloc, replies, segment)?;
            Ok(Done {
                stage: answered_stage(segment, replies.as_slice(), stripped.granted, stage),
                stripped: Some(stripped),
            })
        }
    }
}

/// Where commands that succeed lead.
fn led_by(commands: &[Command], stage: Stage) -> Stage
    ensures { result ≡ led_by commands.now stage }
{
    let mut stage = stage;
    let mut left = commands;
    while let Some((command, rest)) = left.split_first() {
        stage = next_stage(stage, command.code).unwrap_or(stage);
        left = rest;
    }
    stage
}

/// Where the replies to a segment lead, by which the conversation was or wasn't released.
fn answered_stage(segment: &Segment, replies: &[Dss], granted: bool, stage: Stage) -> Stage
    requires { granted ≡ is_granted segment.now replies.now }
    ensures { result ≡ answered_stage segment.now replies.now stage }
{
    let Some(command) = segment.commands().as_slice().first() else {
        return stage;
    };
    match command.code {
        SECCHK if is_admitted(replies) => Stage::Checked,
        SECCHK => Stage::Attached,
        ACCRDB if has_accrdbrm(replies) => Stage::Accessed,
        ACCRDB => stage,
        _ if granted => Stage::Attached,
        _ => stage,
    }
}
