ghost use Rattle.std.specs.Prelude.{◌≡◌, ◌++◌, ◌<◌, ◌≤◌, ◌*◌, ◌+◌, ◌^◌, IfOk, OnOk};
ghost use Rattle.std.specs.List.{flat_map, range_with_len};
ghost use Rattle.script_maker.specs.Lines.{user_line, start_line, end_line};
ghost use Rattle.script_maker.specs.Made.{each_app, all_turns, made};

use crate::draw::drawn;
use crate::lines::{put_end, put_header, put_settle, put_start, put_turn, put_user};
use link_ends::{NoMemory, Octets};
use std::alloc::Global;

/// A user for each application.
fn put_users(alloc: Global, out: &mut Octets, apps: u32) -> Result<(), NoMemory>
    ensures { OnOk result (out.new ≡ out.old ++ each_app user_line apps) }
{
    for place in 0..apps {
        put_user(alloc, out, place + 1)?;
    }
    Ok(())
}

/// Access of each application.
fn put_starts(alloc: Global, out: &mut Octets, apps: u32) -> Result<(), NoMemory>
    ensures { OnOk result (out.new ≡ out.old ++ each_app start_line apps) }
{
    for place in 0..apps {
        put_start(alloc, out, place + 1)?;
    }
    Ok(())
}

/// The end of each application.
fn put_ends(alloc: Global, out: &mut Octets, apps: u32) -> Result<(), NoMemory>
    ensures { OnOk result (out.new ≡ out.old ++ each_app end_line apps) }
{
    for place in 0..apps {
        put_end(alloc, out, place + 1)?;
    }
    Ok(())
}

/// The units of work: in each of them each application's turn, behind a draw.
fn put_turns(
    alloc: Global,
    out: &mut Octets,
    seed: u32,
    apps: u32,
    units: u32,
) -> Result<(), NoMemory>
    requires seed { seed < 2 ^ 31 }
    requires some { 1 ≤ apps }
    requires apps { apps ≤ 64 }
    requires units { units ≤ 100 }
    ensures { OnOk result (out.new ≡ out.old ++ all_turns seed apps units) }
{
    let mut draw = seed;
    for turn in 0..apps * units {
        let app = turn % apps + 1;
        draw = drawn(draw);
        put_turn(alloc, out, app, turn / apps * 64 + app, draw)?;
    }
    Ok(())
}

/// The script that is made of a seed below 2 ^ 31, 1 to 64 applications and 1 to 100 units of work: each application gets
/// access, and commits a row in each unit, where some lose their transports before they commit; at last all end.
#[tactic(auto, unfolding(crate::specs::Made::made))]
pub fn make_script(alloc: Global, seed: u32, apps: u32, units: u32) -> Result<Octets, NoMemory>
    requires seed { seed < 2 ^ 31 }
    requires some_apps { 1 ≤ apps }
    requires most_apps { apps ≤ 64 }
    requires some_units { 1 ≤ units }
    requires most_units { units ≤ 100 }
    ensures { IfOk result (λ text. text ≡ made seed apps units) }
{
    let mut out = Octets::new(alloc);
    put_header(&mut out)?;
    put_users(alloc, &mut out, apps)?;
    put_starts(alloc, &mut out, apps)?;
    put_settle(&mut out)?;
    put_turns(alloc, &mut out, seed, apps, units)?;
    put_ends(alloc, &mut out, apps)?;
    Ok(out)
}
