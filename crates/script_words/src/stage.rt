ghost use Rattle.std.specs.Prelude.{◌≡◌};
ghost use Rattle.script_words.specs.Stage.{is_whole, after_rdb, after_cap, after_member, after_list, after_numbered};
ghost use Rattle.script_words.specs.Stage.{after_user, after_row, after_header, after_line_of_body, stage_after};

use crate::keyword::{HeaderWord, Keyword};

/// How far a script was read.
#[derive(Clone, Copy)]
pub enum Stage {
    Start,
    AfterRdb,
    AfterCap,
    Members,
    Listed,
    Numbered,
    Users,
    Rows,
    Body,
}

/// Whether the header has a name, a cap and a member.
pub fn is_whole(stage: Stage) -> bool
    ensures { result ≡ is_whole stage }
{
    match stage {
        Stage::Start | Stage::AfterRdb | Stage::AfterCap => false,
        Stage::Members
        | Stage::Listed
        | Stage::Numbered
        | Stage::Users
        | Stage::Rows
        | Stage::Body => true,
    }
}

#[tactic(auto, unfolding(crate::specs::Stage::after_rdb))]
fn after_rdb(stage: Stage) -> Option<Stage>
    ensures { result ≡ after_rdb stage }
{
    match stage {
        Stage::Start => Some(Stage::AfterRdb),
        _ => None,
    }
}

#[tactic(auto, unfolding(crate::specs::Stage::after_cap))]
fn after_cap(stage: Stage) -> Option<Stage>
    ensures { result ≡ after_cap stage }
{
    match stage {
        Stage::AfterRdb => Some(Stage::AfterCap),
        _ => None,
    }
}

#[tactic(auto, unfolding(crate::specs::Stage::after_member))]
fn after_member(stage: Stage) -> Option<Stage>
    ensures { result ≡ after_member stage }
{
    match stage {
        Stage::AfterCap | Stage::Members => Some(Stage::Members),
        _ => None,
    }
}

/// After one list for all members.
#[tactic(auto, unfolding(crate::specs::Stage::after_list))]
fn after_list(stage: Stage) -> Option<Stage>
    ensures { result ≡ after_list stage }
{
    match stage {
        Stage::Members => Some(Stage::Listed),
        _ => None,
    }
}

/// After the list of one member.
#[tactic(auto, unfolding(crate::specs::Stage::after_numbered))]
fn after_numbered(stage: Stage) -> Option<Stage>
    ensures { result ≡ after_numbered stage }
{
    match stage {
        Stage::Members | Stage::Numbered => Some(Stage::Numbered),
        _ => None,
    }
}

#[tactic(auto, unfolding(crate::specs::Stage::after_user))]
fn after_user(stage: Stage) -> Option<Stage>
    ensures { result ≡ after_user stage }
{
    match stage {
        Stage::Members | Stage::Listed | Stage::Numbered | Stage::Users => Some(Stage::Users),
        _ => None,
    }
}

#[tactic(auto, unfolding(crate::specs::Stage::after_row))]
fn after_row(stage: Stage) -> Option<Stage>
    ensures { result ≡ after_row stage }
{
    match stage {
        Stage::Members | Stage::Listed | Stage::Numbered | Stage::Users | Stage::Rows => Some(
            Stage::Rows,
        ),
        _ => None,
    }
}

/// After a line of the body.
#[tactic(auto, unfolding(crate::specs::Stage::after_line_of_body))]
fn after_line_of_body(stage: Stage) -> Option<Stage>
    ensures { result ≡ after_line_of_body stage }
{
    if is_whole(stage) {
        Some(Stage::Body)
    } else {
        None
    }
}

/// After a line of the header.
#[tactic(auto, unfolding(crate::specs::Stage::after_header))]
fn after_header(stage: Stage, word: HeaderWord) -> Option<Stage>
    ensures { result ≡ after_header stage word }
{
    match word {
        HeaderWord::Rdb => after_rdb(stage),
        HeaderWord::Cap => after_cap(stage),
        HeaderWord::Member => after_member(stage),
        HeaderWord::List => after_list(stage),
        HeaderWord::NumberedList => after_numbered(stage),
        HeaderWord::User => after_user(stage),
        HeaderWord::Row => after_row(stage),
    }
}

/// How far a script is after a line with this first word, where it may stand here.
#[tactic(auto, unfolding(crate::specs::Stage::stage_after))]
pub fn stage_after(stage: Stage, keyword: Keyword) -> Option<Stage>
    ensures { result ≡ stage_after stage keyword }
{
    match keyword {
        Keyword::Header(word) => after_header(stage, word),
        _ => after_line_of_body(stage),
    }
}
