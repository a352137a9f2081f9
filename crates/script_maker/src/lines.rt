ghost use Rattle.std.specs.Prelude.{◌≡◌, ◌++◌, ◌<◌, ◌*◌, ◌+◌, ◌^◌, OnOk};
ghost use Rattle.script_maker.specs.Lines.{header_lines, user_line, start_line, settle_line, insert_line, cut_line, commit_line, end_line, turn_lines};

use crate::draw::shown;
use link_ends::{NoMemory, Octets};
use std::alloc::Global;

/// The lines of a header with two members of weight 1.
#[tactic(auto, unfolding(crate::specs::Lines::header_lines))]
pub fn put_header(out: &mut Octets) -> Result<(), NoMemory>
    ensures { OnOk result (out.new ≡ out.old ++ header_lines) }
{
    out.push_all(b"rdb SAMPLE\ncap 2\nmember 1 1\nmember 2 1\n")
}

/// The user of an application.
#[tactic(auto, unfolding(crate::specs::Lines::user_line))]
pub fn put_user(alloc: Global, out: &mut Octets, app: u32) -> Result<(), NoMemory>
    ensures { OnOk result (out.new ≡ out.old ++ user_line app) }
{
    out.push_all(format!(in alloc; "user U{app} P\n")?.as_bytes())
}

/// The access of an application.
#[tactic(auto, unfolding(crate::specs::Lines::start_line))]
pub fn put_start(alloc: Global, out: &mut Octets, app: u32) -> Result<(), NoMemory>
    ensures { OnOk result (out.new ≡ out.old ++ start_line app) }
{
    out.push_all(format!(in alloc; "start {app} U{app} P\n")?.as_bytes())
}

/// All that can happen does.
#[tactic(auto, unfolding(crate::specs::Lines::settle_line))]
pub fn put_settle(out: &mut Octets) -> Result<(), NoMemory>
    ensures { OnOk result (out.new ≡ out.old ++ settle_line) }
{
    out.push_all(b"settle 100000\n")
}

/// An application inserts a row with this key and this number in its text.
#[tactic(auto, unfolding(crate::specs::Lines::insert_line))]
fn put_insert(
    alloc: Global,
    out: &mut Octets,
    app: u32,
    key: u32,
    number: u32,
) -> Result<(), NoMemory>
    ensures { OnOk result (out.new ≡ out.old ++ insert_line app key number) }
{
    let line = format!(in alloc; "sql {app} INSERT INTO T VALUES ({key}, 'V{number}')\n")?;
    out.push_all(line.as_bytes())
}

/// An application loses its transport, where the number that was drawn is divisible by 8.
#[tactic(auto, unfolding(crate::specs::Lines::cut_line))]
fn put_cut(alloc: Global, out: &mut Octets, app: u32, number: u32) -> Result<(), NoMemory>
    ensures { OnOk result (out.new ≡ out.old ++ cut_line app number) }
{
    if number % 8 == 0 {
        out.push_all(format!(in alloc; "cut {app}\n")?.as_bytes())?;
    }
    Ok(())
}

/// An application commits.
#[tactic(auto, unfolding(crate::specs::Lines::commit_line))]
fn put_commit(alloc: Global, out: &mut Octets, app: u32) -> Result<(), NoMemory>
    ensures { OnOk result (out.new ≡ out.old ++ commit_line app) }
{
    out.push_all(format!(in alloc; "commit {app}\n")?.as_bytes())
}

/// An application ends.
#[tactic(auto, unfolding(crate::specs::Lines::end_line))]
pub fn put_end(alloc: Global, out: &mut Octets, app: u32) -> Result<(), NoMemory>
    ensures { OnOk result (out.new ≡ out.old ++ end_line app) }
{
    out.push_all(format!(in alloc; "end {app}\n")?.as_bytes())
}

/// One unit of work of an application, with the key of the row that it inserts, behind a draw.
pub fn put_turn(
    alloc: Global,
    out: &mut Octets,
    app: u32,
    key: u32,
    draw: u32,
) -> Result<(), NoMemory>
    ensures { OnOk result (out.new ≡ out.old ++ turn_lines app key draw) }
{
    let number = shown(draw);
    put_insert(alloc, out, app, key, number)?;
    put_settle(out)?;
    put_cut(alloc, out, app, number)?;
    put_commit(alloc, out, app)?;
    put_settle(out)?;
    Ok(())
}
