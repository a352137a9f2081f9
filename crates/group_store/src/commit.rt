ghost use Rattle.std.specs.Prelude.{◌≡◌, Some, OnOk, OnErr};
ghost use Rattle.std.specs.BTreeMap.{insert_entry};
ghost use Rattle.group_store.specs.Rows.{place_order, with_writes};
ghost use Rattle.group_store.specs.Commit.{with_version, taken_back};
ghost use Rattle.group_store.specs.Store.{with_commit};

use crate::rows::{Place, Version, Write};
use crate::store::Store;
use bytes::Bytes;
use link_ends::NoMemory;
use std::alloc::Global;
use std::collections::BTreeMap;

/// What stood at a place before it was written: `None` where it was never written.
#[derive(Drop)]
pub(crate) struct Replaced {
    pub(crate) place: Place,
    pub(crate) version: Option<Version>,
}

impl Store {
    /// Does these writes, as one more commit. After want of memory the data are as before.
    pub(crate) fn commit(&mut self, writes: BTreeMap<Place, Write>) -> Result<(), NoMemory>
        ensures ok { OnOk result (self.new ≡ with_commit self.old writes.entries) }
        ensures err { OnErr result (self.new ≡ self.old) }
    {
        let number = self.commits.saturating_add(1);
        let mut replaced = Vec::new(self.alloc);
        let done = put_all(self.alloc, &mut self.rows, writes, number, &mut replaced);
        if done.is_err() {
            take_back(&mut self.rows, replaced);
            return Err(NoMemory);
        }
        self.commits = number;
        Ok(())
    }
}

/// Does these writes, with the number of a commit, and keeps what they replace.
fn put_all(
    alloc: Global,
    rows: &mut BTreeMap<Place, Version>,
    writes: BTreeMap<Place, Write>,
    number: u64,
    replaced: &mut Vec<Replaced>,
) -> Result<(), NoMemory>
    ensures ok { OnOk result (rows.new.entries ≡ with_writes number writes.entries rows.old.entries) }
    ensures kept { taken_back replaced.new.items rows.new.entries ≡ taken_back replaced.old.items rows.old.entries }
{
    let mut left = writes;
    while let Some((place, write)) = left.pop_first() {
        let version = Version {
            text: write.text,
            number,
        };
        put_one(alloc, rows, place, version, replaced)?;
    }
    Ok(())
}

/// Puts a version at its place, and keeps what it replaces.
fn put_one(
    alloc: Global,
    rows: &mut BTreeMap<Place, Version>,
    place: Place,
    version: Version,
    replaced: &mut Vec<Replaced>,
) -> Result<(), NoMemory>
    ensures ok { OnOk result (rows.new.entries ≡ insert_entry place_order rows.old.entries place version) }
    ensures kept { taken_back replaced.new.items rows.new.entries ≡ taken_back replaced.old.items rows.old.entries }
{
    replaced.reserve(1)?;
    let at = Place {
        schema: Bytes::copy_from_slice(alloc, place.schema.as_slice())?,
        key: place.key,
    };
    let before = rows.insert(place, version)?;
    replaced.push(Replaced {
        place: at,
        version: before,
    })?;
    Ok(())
}

/// Takes back what was written, the newest first.
fn take_back(rows: &mut BTreeMap<Place, Version>, replaced: Vec<Replaced>)
    ensures { rows.new.entries ≡ taken_back replaced.items rows.old.entries }
{
    let mut left = replaced;
    while let Some(one) = left.pop() {
        put_back(rows, one);
    }
}

/// Puts back what stood at a place.
fn put_back(rows: &mut BTreeMap<Place, Version>, replaced: Replaced)
    ensures { rows.new.entries ≡ with_version replaced.place replaced.version rows.old.entries }
{
    let Replaced { place, version } = replaced;
    match version {
        Some(version) => put_over(rows, &place, version),
        None => {
            rows.remove(&place);
        }
    }
}

/// Puts this version in the place of the one that stands there.
#[tactic(auto, using(crate::proofs::TakingBack::set_where_none))]
fn put_over(rows: &mut BTreeMap<Place, Version>, place: &Place, version: Version)
    ensures { rows.new.entries ≡ with_version place.now (Some version) rows.old.entries }
{
    let Some(there) = rows.get_mut(place) else {
        return;
    };
    *there = version;
}
