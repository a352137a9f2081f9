use super::words::front;
use crate::{End, ErrorWord, Lent, LimitKind, LossWhy, Need, Session};
use ddm_codepoints::name;
use group_store::{Row, Store};
use link_ends::Octets;
use unit_ledger::Outcome;

/// What was told, one after another.
#[derive(Drop)]
pub(super) struct Log {
    pub(super) text: Octets,
    /// The transport of the last commands that were run, if nothing was told behind them.
    pub(super) ran: u64,
}

/// A number below 5.
fn digit(number: u64) -> &'static str {
    match number {
        0 => "0",
        1 => "1",
        2 => "2",
        3 => "3",
        _ => "4",
    }
}

/// Tells these words.
pub(super) fn tell(log: &mut Log, words: &[&str]) {
    log.ran = 0;
    for word in words {
        let _ = log.text.push_all(word.as_bytes());
    }
}

/// What a member ran on a transport, which is told once for what it runs one after another.
pub(super) fn note_runs(log: &mut Log, number: u64, codes: &[u16]) {
    for code in codes {
        note_run(log, number, *code);
    }
}

fn note_run(log: &mut Log, number: u64, code: u16) {
    if log.ran != number {
        tell(log, &[", run ", digit(number)]);
    }
    tell(log, &[" ", name(code).unwrap_or("unknown")]);
    log.ran = number;
}

pub(super) fn note_lent(log: &mut Log, id: u32, lent: Lent) {
    tell(log, &[", lend ", digit(u64::from(id))]);
    match lent {
        Lent::Idle { number, .. } => tell(log, &[" idle ", digit(number)]),
        Lent::Dial { number, member } => note_dial(log, u64::from(member), number),
        _ => tell(log, &[" none"]),
    }
}

fn note_dial(log: &mut Log, member: u64, number: u64) {
    tell(log, &[" dial ", digit(member), " ", digit(number)]);
}

pub(super) fn note_given(log: &mut Log, session: &Session) {
    let number = digit(session.held().unwrap_or(0));
    tell(log, &[", give ", digit_of(session), " ", number]);
}

/// The number of a session.
fn digit_of(session: &Session) -> &'static str {
    digit(u64::from(session.id()))
}

fn outcome_word(outcome: Outcome) -> &'static str {
    match outcome {
        Outcome::Committed => ", Committed",
        Outcome::RolledBack => ", RolledBack",
        Outcome::Rerouted => ", Rerouted",
        Outcome::Unknown => ", Unknown",
    }
}

fn error_word(word: ErrorWord) -> &'static str {
    match word {
        ErrorWord::Rerouted => " Rerouted",
        ErrorWord::ReroutedUnknown => " ReroutedUnknown",
        ErrorWord::Ended => " Ended",
        ErrorWord::NoAccess => " NoAccess",
        ErrorWord::Limit => " Limit",
        _ => " another",
    }
}

fn loss_word(why: LossWhy) -> &'static str {
    match why {
        LossWhy::Dial => " Dial",
        LossWhy::Fault => " Fault",
        LossWhy::Ended => " Ended",
        LossWhy::Cut => " Cut",
        LossWhy::Left => " Left",
        _ => " another",
    }
}

/// A list of members, if a step told one.
pub(super) fn note_list(log: &mut Log, session: &mut Session) {
    if session.learned().is_some() {
        tell(log, &[", learn ", digit_of(session)]);
    }
}

/// The end of a unit of work, if a step told one.
pub(super) fn note_outcome(log: &mut Log, session: &mut Session) {
    if let Some(outcome) = session.outcome() {
        tell(log, &[outcome_word(outcome)]);
    }
}

/// An error, if a step told one.
pub(super) fn note_error(log: &mut Log, session: &mut Session) {
    if let Some(word) = session.told() {
        tell(log, &[", error ", digit_of(session), error_word(word)]);
    }
}

/// A loss, if a step told one.
pub(super) fn note_loss(log: &mut Log, session: &mut Session) -> bool {
    match session.lost() {
        Some((number, why)) => {
            tell(
                log,
                &[
                    ", lost ",
                    digit_of(session),
                    " ",
                    digit(number),
                    loss_word(why),
                ],
            );
            true
        }
        None => false,
    }
}

/// What a session needs, or how it ended.
pub(super) fn standing(session: &Session) -> &'static str {
    match session.need() {
        Need::Done(End::NoMember { .. }) => "no member",
        Need::Done(End::Limit { kind }) if matches!(kind, LimitKind::Registers) => "registers",
        Need::Done(End::AppEnded) => "ended",
        Need::Done(_) => "closed",
        Need::App => "open",
        Need::Dial => "dial",
        Need::Send => "send",
        Need::Back => "back",
        Need::Give => "give",
        Need::Lend | Need::Say => "in work",
    }
}

/// How the session stands, and with what user.
pub(super) fn note_standing(log: &mut Log, session: &Session) {
    let mut name = [0; 32];
    let count = session.user(&mut name);
    tell(log, &[", ", standing(session), " ("]);
    let _ = log.text.push_all(front(&name, count));
    tell(log, &[")"]);
}

/// What rows the group has, and how many units were committed.
pub(super) fn note_group(log: &mut Log, store: &Store) {
    if let Ok(rows) = store.rows() {
        for row in rows.as_slice() {
            note_row(log, row);
        }
    }
    tell(log, &[", commits ", digit(store.commits())]);
}

fn note_row(log: &mut Log, row: &Row) {
    tell(log, &[", "]);
    let _ = log.text.push_all(row.schema.as_slice());
    tell(log, &[" ", digit(u64::from(row.key)), " "]);
    let _ = log.text.push_all(row.text.as_slice());
}
