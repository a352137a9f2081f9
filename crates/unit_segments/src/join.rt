ghost use Rattle.std.specs.Prelude.{◌≡◌, IfOk};
ghost use Rattle.unit_segments.specs.Spelling.{join, linked, has_number};

use crate::share::share;
use dss_frame::{Dss, DssList, write_dss};
use link_ends::{NoMemory, Octets};
use std::alloc::Global;

/// The replies as one chain, in canonical bytes: each but the last is chained, says whether the next one has the same
/// number, and never that the chain goes on after an error.
pub fn join_replies(alloc: Global, replies: &DssList) -> Result<Octets, NoMemory>
    ensures { IfOk result (λ bytes. bytes ≡ join replies.now) }
{
    let mut out = Octets::new(alloc);
    let mut left = replies.as_slice();
    while let Some((reply, rest)) = left.split_first() {
        write_dss(&linked(reply, rest)?, &mut out)?;
        left = rest;
    }
    Ok(out)
}

/// A reply with these behind it.
fn linked(reply: &Dss, rest: &[Dss]) -> Result<Dss, NoMemory>
    ensures { IfOk result (λ dss. dss ≡ linked reply.now rest.now) }
{
    Ok(Dss {
        kind: reply.kind,
        chained: !rest.is_empty(),
        same: has_number(reply.corr, rest),
        go_on: false,
        corr: reply.corr,
        body: share(&reply.body)?,
    })
}

/// Whether the first of these has this number.
fn has_number(number: u16, replies: &[Dss]) -> bool
    ensures { result ≡ has_number number replies.now }
{
    match replies.first() {
        Some(reply) => reply.corr == number,
        None => false,
    }
}
