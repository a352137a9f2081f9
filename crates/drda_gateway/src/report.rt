ghost use Rattle.std.specs.Prelude.{◌≡◌, ◌++◌, ◌<◌, ◌^◌, length, string_bytes, IfOk, OnOk};
ghost use Rattle.std.specs.List.{flat_map};
ghost use Rattle.drda_gateway.specs.Report.{entry_line, report_of, session_lines, sessions_lines, shown_bytes, shown_end};

use crate::session::{End, Session};
use crate::world::{Entry, ErrorWord, World};
use link_ends::{NoMemory, Octets};
use std::alloc::Global;

/// What a session is shown as that goes on, or has ended so.
fn end_text(alloc: Global, end: Option<End>) -> Result<String, NoMemory>
    ensures { IfOk result (λ text. string_bytes text ≡ shown_end end) }
{
    match end {
        None => Ok(String::from_str(alloc, " open\n")?),
        Some(End::Refused { place }) => Ok(format!(in alloc; " ended syntax {place}\n")?),
        Some(End::Limit) => Ok(String::from_str(alloc, " ended limit request\n")?),
    }
}

/// Bytes as digits, with a dash for none.
fn bytes_text(alloc: Global, bytes: &[u8]) -> Result<String, NoMemory>
    ensures { IfOk result (λ text. string_bytes text ≡ shown_bytes bytes.now) }
{
    if bytes.is_empty() {
        Ok(String::from_str(alloc, "-")?)
    } else {
        Ok(hex::encode_upper(alloc, bytes)?)
    }
}

/// The two lines of an application: what it was sent, and whether its session has ended.
#[tactic(auto, unfolding(crate::specs::Report::session_lines))]
fn push_session(
    alloc: Global,
    out: &mut Octets,
    app: u32,
    session: &Session,
) -> Result<(), NoMemory>
    ensures { OnOk result (out.new ≡ out.old ++ session_lines app session.now) }
{
    let sent = bytes_text(alloc, session.sent())?;
    let end = end_text(alloc, session.end())?;
    let lines = format!(in alloc; "app {app} sent {sent}\napp {app}{end}")?;
    out.push_all(lines.as_bytes())
}

/// The line of an entry of the log.
#[tactic(auto, unfolding(crate::specs::Report::entry_line))]
fn push_entry(alloc: Global, out: &mut Octets, entry: Entry) -> Result<(), NoMemory>
    ensures { OnOk result (out.new ≡ out.old ++ entry_line entry) }
{
    let line = match entry {
        Entry::Answer { app } => format!(in alloc; "log answer {app}\n")?,
        Entry::Error {
            app,
            word: ErrorWord::Syntax,
        } => format!(in alloc; "log error {app} syntax\n")?,
        Entry::Error {
            app,
            word: ErrorWord::Limit,
        } => format!(in alloc; "log error {app} limit\n")?,
    };
    out.push_all(line.as_bytes())
}

/// The report of a world: the applications by number, the log in order, and the counts.
#[tactic(auto, unfolding(crate::specs::Report::report_of))]
pub fn report(alloc: Global, world: &World) -> Result<Octets, NoMemory>
    ensures { IfOk result (λ out. out ≡ report_of world.now) }
{
    let mut out = Octets::new(alloc);
    push_sessions(alloc, &mut out, world.sessions())?;
    push_log(alloc, &mut out, world.log())?;
    out.push_all(b"count commits 0 dials 0 reuses 0 losses 0\n")?;
    Ok(out)
}

/// The lines of the applications that the script names.
fn push_sessions(alloc: Global, out: &mut Octets, sessions: &[Session]) -> Result<(), NoMemory>
    requires { length sessions.now < 2 ^ 31 }
    ensures { OnOk result (out.new ≡ out.old ++ sessions_lines 1 sessions.now) }
{
    let mut app = 1;
    for session in sessions {
        if session.is_named() {
            push_session(alloc, out, app, session)?;
        }
        app += 1;
    }
    Ok(())
}

/// The lines of the log.
fn push_log(alloc: Global, out: &mut Octets, log: &[Entry]) -> Result<(), NoMemory>
    ensures { OnOk result (out.new ≡ out.old ++ flat_map entry_line log.now) }
{
    for entry in log {
        push_entry(alloc, out, *entry)?;
    }
    Ok(())
}
