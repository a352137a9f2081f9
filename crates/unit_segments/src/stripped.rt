ghost use Rattle.std.specs.Prelude.{◌≡◌, ◌++◌, ◌∷◌, [], ◌-◌, find, slice_get, IfOk, OnOk, if◌then◌else◌};
ghost use Rattle.std.specs.List.{AllByRecursion};
ghost use Rattle.std.specs.Option.{option_copied};
ghost use Rattle.unit_segments.specs.Command.{data_of};
ghost use Rattle.unit_segments.specs.Strip.{stripped, end_number, replies_to, is_object_of, answers, replies_of, sets_of, first_list, stops, stops_at};
ghost use Rattle.unit_segments.specs.Strip.{given_back, given_number, without_lists, FitsAReply};
ghost use Rattle.ddm_codepoints.specs.CodePoint.{enduowrm};

use crate::body::data_of;
use crate::reply::{end_says, has_params, is_object_of, list_of, tells_error};
use crate::rewrite::{Dropped, rewritten};
use crate::segment::{Segment, ends_unit};
use crate::share::share;
use ddm_codepoints::class;
use ddm_codepoints::code_point::{ACCRDBRM, ENDUOWRM, RLSCONV, SQLCARD, SQLSTT, UOWDSP};
use ddm_codepoints::value::{COMMITTED, RELEASE};
use dss_frame::{Dss, DssList};
use link_ends::{NoMemory, Octets, OctetsList, Sequence};
use std::alloc::Global;

/// What a member's replies to a segment come to.
#[derive(Debug, Drop)]
pub struct Stripped {
    /// The replies that the application gets, with its own correlation numbers.
    pub replies: DssList,
    /// Whether the unit of work has ended: ENDUOWRM (DDM, volume 3).
    pub ended: bool,
    /// Whether it was committed: UOWDSP (DDM, volume 3).
    pub committed: bool,
    /// Whether the conversation was released: RLSCONV (DRDA, volume 3).
    pub granted: bool,
    /// The data of the SET statements that were asked for: SQLSTT (DRDA, volume 3).
    pub sets: OctetsList,
    /// The data of the first list of members: SRVLST (DRDA, volume 3).
    pub list: Option<Octets>,
    /// Whether the rest of the chain isn't run, since an error was told of a command without the go-on bit.
    pub stop: bool,
}

/// What a member's replies to a segment come to: they have the numbers of the segment's commands, counted from 1. Taken out
/// are RLSCONV and SRVLST of ENDUOWRM, SRVLST of ACCRDBRM, and the SQLSTT objects behind the SQLCARD of the command that
/// ends the unit of work. ENDUOWRM and ACCRDBRM are written anew; a body that is no object, or whose parameters are none,
/// is passed as it came. A body has at most 33,554,426 bytes.
#[tactic(auto, unfolding(crate::specs::Strip::stripped))]
pub fn strip(alloc: Global, replies: &DssList, segment: &Segment) -> Result<Stripped, NoMemory>
    requires { AllByRecursion FitsAReply replies.now }
    ensures { IfOk result (λ answer. answer ≡ stripped segment.now replies.now) }
{
    let end = end_number(segment);
    let message = end_message(end, replies);
    let list = match first_list(replies) {
        Some(list) => Some(Octets::of(alloc, list)?),
        None => None,
    };
    let (kept, sets) = split(alloc, segment, replies)?;
    Ok(Stripped {
        replies: kept,
        ended: message.is_some(),
        committed: end_says(UOWDSP, COMMITTED, message),
        granted: end_says(RLSCONV, RELEASE, message),
        sets,
        list,
        stop: stops(segment, replies),
    })
}

/// The number of the command that ends the unit of work, counted from 1; 0 where there is none.
fn end_number(segment: &Segment) -> u16
    ensures { result ≡ end_number segment.now }
{
    let mut number = 1;
    let mut left = segment.commands().as_slice();
    while let Some((command, rest)) = left.split_first() {
        if ends_unit(class(command.code)) {
            return number;
        }
        number += 1;
        left = rest;
    }
    0
}

/// The first message that says how the unit of work ended, among the replies to the command with this number.
fn end_message(end: u16, replies: &DssList) -> Option<&Dss>
    ensures { option_copied result ≡ find (is_object_of enduowrm) (replies_to end replies.now) }
{
    let mut left = replies.as_slice();
    while let Some((reply, rest)) = left.split_first() {
        if answers(end, ENDUOWRM, reply) {
            return Some(reply);
        }
        left = rest;
    }
    None
}

/// Whether it is a reply to the command with this number, and its body an object with this code point.
fn answers(number: u16, code: u16, reply: &Dss) -> bool
    ensures { result ≡ answers number code reply.now }
{
    reply.corr == number && is_object_of(code, reply)
}

/// The data of the first list of members.
fn first_list(replies: &DssList) -> Option<&[u8]>
    ensures { option_copied result ≡ first_list replies.now }
{
    let mut left = replies.as_slice();
    while let Some((reply, rest)) = left.split_first() {
        if let Some(list) = list_of(reply) {
            return Some(list);
        }
        left = rest;
    }
    None
}

/// Whether an error is told of a command after which the chain doesn't go on then.
fn stops(segment: &Segment, replies: &DssList) -> bool
    ensures { result ≡ stops segment.now replies.now }
{
    replies.as_slice().iter().any(|reply| tells_error(reply) && stops_at(segment, reply.corr))
}

/// Whether the chain doesn't go on after an error in the command with this number, counted from 1.
fn stops_at(segment: &Segment, number: u16) -> bool
    ensures { result ≡ stops_at (slice_get segment.now (number - 1)) }
{
    match segment
        .commands()
        .get(usize::from(number.saturating_sub(1)))
    {
        Some(command) => !command.go_on,
        None => true,
    }
}

/// The replies that the application gets, and the data of the SET statements that were asked for.
fn split(
    alloc: Global,
    segment: &Segment,
    replies: &DssList,
) -> Result<(DssList, OctetsList), NoMemory>
    requires { AllByRecursion FitsAReply replies.now }
    ensures replies { IfOk result (λ answer. answer.0 ≡ replies_of segment.now replies.now) }
    ensures sets { IfOk result (λ answer. answer.1 ≡ sets_of segment.now replies.now) }
{
    let end = end_number(segment);
    let mut kept = Sequence::new(alloc);
    let mut sets = Sequence::new(alloc);
    let mut after_card = false;
    let mut left = replies.as_slice();
    while let Some((reply, rest)) = left.split_first() {
        let is_set = after_card && answers(end, SQLSTT, reply);
        place(alloc, segment, reply, is_set, &mut kept, &mut sets)?;
        after_card |= answers(end, SQLCARD, reply);
        left = rest;
    }
    Ok((kept, sets))
}

/// Adds a reply to those that the application gets, or its data to those of the SET statements.
fn place(
    alloc: Global,
    segment: &Segment,
    reply: &Dss,
    is_set: bool,
    kept: &mut DssList,
    sets: &mut OctetsList,
) -> Result<(), NoMemory>
    requires { FitsAReply reply.now }
    ensures kept { OnOk result (kept.new ≡ kept.old ++ (if is_set then [] else given_back segment.now reply.now ∷ [])) }
    ensures sets { OnOk result (sets.new ≡ sets.old ++ (if is_set then data_of reply.now.body ∷ [] else [])) }
{
    if is_set {
        return sets.push(Octets::of(alloc, data_of(reply.body.as_slice()))?);
    }
    kept.push(given_back(alloc, segment, reply)?)
}

/// A reply as the application gets it, with its own number.
fn given_back(alloc: Global, segment: &Segment, reply: &Dss) -> Result<Dss, NoMemory>
    requires { FitsAReply reply.now }
    ensures { IfOk result (λ dss. dss ≡ given_back segment.now reply.now) }
{
    Ok(Dss {
        kind: reply.kind,
        chained: reply.chained,
        same: reply.same,
        go_on: reply.go_on,
        corr: given_number(segment, reply.corr),
        body: without_lists(alloc, reply)?,
    })
}

/// The number that the application gave the command with this number, counted from 1.
fn given_number(segment: &Segment, number: u16) -> u16
    ensures { result ≡ given_number segment.now number }
{
    match segment
        .commands()
        .get(usize::from(number.saturating_sub(1)))
    {
        Some(command) => command.corr,
        None => number,
    }
}

/// The body of a reply without lists of members, and without what tells of release.
fn without_lists(alloc: Global, reply: &Dss) -> Result<Octets, NoMemory>
    requires { FitsAReply reply.now }
    ensures { IfOk result (λ body. body ≡ (without_lists reply.now).body) }
{
    let data = data_of(reply.body.as_slice());
    if has_params(ENDUOWRM, reply) {
        return rewritten(alloc, ENDUOWRM, data, Dropped::ListsAndRelease, &[]);
    }
    if has_params(ACCRDBRM, reply) {
        return rewritten(alloc, ACCRDBRM, data, Dropped::Lists, &[]);
    }
    share(&reply.body)
}
