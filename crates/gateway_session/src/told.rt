ghost use Rattle.std.specs.Prelude.{◌≡◌, ◌≤◌, length, option_copied, option_map};
ghost use Rattle.session_core.specs.Seen.{seen_end, seen_owed};
ghost use Rattle.gateway_session.specs.Steps.{none_left_word, limit_word, accept_word};
ghost use Rattle.gateway_session.specs.Told.{end_outcome, owed_outcome, none_left_outcome, name_in, most_name};

use crate::loss::ErrorWord;
use access_handshake::Stage;
use ddm_codepoints::TypDef;
use reply_texts::are_characters_in;
use requester_core::Owed;
use session_core::CoreEnd;
use unit_ledger::Outcome;
use unit_segments::Stripped;

/// How many characters the name of a user has at most.
const MOST_NAME: usize = 32;

/// What is told where no member is left.
pub(crate) fn none_left_word(stage: Stage, owed: Option<Owed>) -> ErrorWord
    ensures { result ≡ none_left_word stage (seen_owed owed) }
{
    match (stage, owed) {
        (Stage::Accessed, Some(Owed::Unknown)) => ErrorWord::EndedUnknown,
        (Stage::Accessed, _) => ErrorWord::Ended,
        _ => ErrorWord::NoAccess,
    }
}

/// What is told where an answer ended the session: a register limit was passed.
pub(crate) fn limit_word(end: Option<CoreEnd>) -> Option<ErrorWord>
    ensures { result ≡ limit_word (option_map seen_end end) }
{
    match end {
        Some(_) => Some(ErrorWord::Limit),
        None => None,
    }
}

/// What is told where the session goes on with another server.
pub(crate) fn accept_word(owed: Option<Owed>) -> ErrorWord
    ensures { result ≡ accept_word (seen_owed owed) }
{
    match owed {
        Some(Owed::Unknown) => ErrorWord::ReroutedUnknown,
        Some(Owed::Rerouted) | None => ErrorWord::Rerouted,
    }
}

/// What the replies to a segment tell of the end of its unit of work.
pub(crate) fn end_outcome(stripped: &Stripped) -> Option<Outcome>
    ensures { result ≡ end_outcome stripped.now }
{
    match (stripped.ended, stripped.committed) {
        (true, true) => Some(Outcome::Committed),
        (true, false) => Some(Outcome::RolledBack),
        (false, _) => None,
    }
}

/// What an owed error tells of the end of a unit of work.
pub(crate) fn owed_outcome(owed: Option<Owed>) -> Option<Outcome>
    ensures { result ≡ owed_outcome (seen_owed owed) }
{
    match owed {
        Some(Owed::Rerouted) => Some(Outcome::Rerouted),
        Some(Owed::Unknown) => Some(Outcome::Unknown),
        None => None,
    }
}

/// What is told of the unit of work where no member is left.
pub(crate) fn none_left_outcome(stage: Stage, owed: Option<Owed>) -> Option<Outcome>
    ensures { result ≡ none_left_outcome stage (seen_owed owed) }
{
    match (stage, owed) {
        (Stage::Accessed, Some(Owed::Unknown)) => Some(Outcome::Unknown),
        (Stage::Accessed, _) => Some(Outcome::Rerouted),
        _ => None,
    }
}

/// A name, unless it is too long or one of its bytes is no character.
pub(crate) fn name_in(codes: Option<&[u8]>) -> &[u8]
    ensures name { result.now ≡ name_in (option_copied codes.entry) }
    ensures size { length result.now ≤ most_name }
{
    match codes {
        Some(codes) if codes.len() <= MOST_NAME && are_characters_in(codes, TypDef::Sql370) =>
            codes,
        _ => &[],
    }
}
