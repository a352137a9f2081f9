ghost use Rattle.std.specs.Prelude.{◌≡◌, ◌+◌, ◌≤◌, ◌++◌, length, map, IfOk, OnOk};
ghost use Rattle.ddm_objects.specs.Objects.{canonical_object};
ghost use Rattle.ddm_objects.specs.Builder.{greatest_built};
ghost use Rattle.ddm_codepoints.specs.CodePoint.{accrdbrm};
ghost use Rattle.member_core.specs.Listed.{takes_list, with_list};

use ddm_codepoints::code_point::ACCRDBRM;
use ddm_objects::Builder;
use dss_frame::{Dss, DssList};
use link_ends::{NoMemory, Octets};
use server_list::{ServerList, write_list};
use std::alloc::Global;
use unit_segments::{data_of, is_object_of};

/// The greatest body of an ACCRDBRM, in bytes.
const MOST_ADMISSION: usize = 16_777_216;

/// Appends replies, those that give access with the list of members.
pub(crate) fn put_replies(
    alloc: Global,
    list: &ServerList,
    replies: &DssList,
    out: &mut DssList,
) -> Result<(), NoMemory>
    ensures { OnOk result (out.new ≡ out.old ++ map (with_list list.now) replies.now) }
{
    let mut left = replies.as_slice();
    while let Some((reply, rest)) = left.split_first() {
        out.push(with_list(alloc, list, reply)?)?;
        left = rest;
    }
    Ok(())
}

/// A reply, with the list of members where it gives access.
fn with_list(alloc: Global, list: &ServerList, reply: &Dss) -> Result<Dss, NoMemory>
    ensures { IfOk result (λ dss. dss ≡ with_list list.now reply.now) }
{
    let body = if takes_list(list, reply) {
        let list = write_list(alloc, list)?;
        admission(alloc, data_of(reply.body.as_slice()), list.as_slice())?
    } else {
        reply.body.part(0, reply.body.len())?
    };
    Ok(Dss {
        kind: reply.kind,
        chained: reply.chained,
        same: reply.same,
        go_on: reply.go_on,
        corr: reply.corr,
        body,
    })
}

/// Whether a reply gives access, and there is a list to tell.
fn takes_list(list: &ServerList, reply: &Dss) -> bool
    ensures { result ≡ takes_list list.now reply.now }
{
    !list.is_empty() && is_object_of(ACCRDBRM, reply) && reply.body.len() <= MOST_ADMISSION
}

/// ACCRDBRM with these parameters and more behind them.
fn admission(alloc: Global, params: &[u8], more: &[u8]) -> Result<Octets, NoMemory>
    requires { length params.now + length more.now + 8 ≤ greatest_built }
    ensures { IfOk result (λ object. object ≡ canonical_object accrdbrm (params.now ++ more.now)) }
{
    let mut builder = Builder::new(alloc);
    builder.begin(ACCRDBRM)?;
    builder.put(params)?;
    builder.put(more)?;
    builder.end()?;
    Ok(builder.finish())
}
