ghost use Rattle.std.specs.Prelude.{◌≡◌};
ghost use Rattle.std.specs.Prelude.{IfOk};
ghost use Rattle.requester_core.specs.Reply.{may_come, number_place, by_number, by_told, by_field, completed, judged_rest, judged_end, judged, judged_byte};

use dss_frame::{FeedFault, Placed, Reader, StreamFault, Why};
use link_ends::NoMemory;

/// What stands behind the whole DSSs of a reply: the DSS that isn't whole, as far as it came.
#[derive(Clone, Copy, Debug)]
pub(crate) struct Rest {
    /// The place where it begins.
    pub(crate) place: u64,
    /// Whether a byte of it came, and no fault was found in it.
    pub(crate) begun: bool,
    /// Its correlation number, where that came.
    pub(crate) number: Option<u16>,
    /// The fault that was found in it.
    pub(crate) fault: Option<StreamFault>,
}

/// What was read of a reply comes to.
#[derive(Clone, Copy, Debug, PartialEq, Eq)]
pub(crate) enum Judged {
    /// It isn't whole yet.
    GoesOn,
    /// It leaves the grammar of a reply at this place.
    Leaves { at: u64 },
    /// It has more bytes than a reply may.
    Passes,
    /// It is whole, and nothing follows.
    Ends,
}

/// Which numbers may come next.
#[derive(Clone, Copy, Debug)]
pub(crate) struct Numbers {
    /// How many commands are answered; they are numbered from 1.
    pub(crate) count: usize,
    /// The number of the DSS before, or 1.
    pub(crate) least: u16,
}

impl Numbers {
    /// Whether this number may come.
    fn has(self, number: u16) -> bool
        ensures { result ≡ may_come self.count self.least number }
    {
        self.least <= number && usize::from(number) <= self.count
    }

    /// What a reply comes to whose DSS at this place has this number, where it comes to this otherwise.
    fn judge(self, place: u64, number: u16, judged: Judged) -> Judged
        ensures { result ≡ by_number self.count self.least place number judged }
    {
        if self.has(number) {
            judged
        } else {
            Judged::Leaves {
                at: number_place(place),
            }
        }
    }

    /// The same of a number that may not have come.
    fn judge_told(self, place: u64, number: Option<u16>, judged: Judged) -> Judged
        ensures { result ≡ by_told self.count self.least place number judged }
    {
        match number {
            Some(number) => self.judge(place, number, judged),
            None => judged,
        }
    }

    /// What a reply comes to that has a field at this place that is none of a DSS, in the DSS at that place with this number.
    fn judge_field(self, place: u64, at: u64, why: Why, number: u16) -> Judged
        ensures { result ≡ by_field self.count self.least place at why number }
    {
        match why {
            Why::Short | Why::NoD0 | Why::Format => Judged::Leaves { at },
            Why::Continue => self.judge(place, number, Judged::Leaves { at }),
        }
    }
}

/// What was read of a reply comes to: these DSSs, whose first has one of these numbers, and what stands behind them.
#[tactic(auto, unfolding(crate::specs::Reply::judged))]
pub(crate) fn judge(numbers: Numbers, placed: &[Placed], rest: Rest) -> Judged
    ensures { result ≡ judged numbers.count numbers.least placed.now rest }
{
    let mut numbers = numbers;
    let mut left = placed;
    while let Some((first, others)) = left.split_first() {
        let number = first.dss.corr;
        if !numbers.has(number) {
            return Judged::Leaves {
                at: number_place(first.at),
            };
        }
        if !first.dss.chained {
            return judge_end(others, rest);
        }
        numbers.least = number;
        left = others;
    }
    judge_rest(numbers, rest)
}

/// What follows the last DSS of a reply.
fn judge_end(behind: &[Placed], rest: Rest) -> Judged
    ensures { result ≡ judged_end behind.now rest }
{
    match behind.first() {
        Some(placed) => Judged::Leaves { at: placed.at },
        None if rest.begun || rest.fault.is_some() => Judged::Leaves { at: rest.place },
        None => Judged::Ends,
    }
}

/// What a DSS that isn't whole comes to.
fn judge_rest(numbers: Numbers, rest: Rest) -> Judged
    ensures { result ≡ judged_rest numbers.count numbers.least rest }
{
    match rest.fault {
        None => numbers.judge_told(rest.place, rest.number, Judged::GoesOn),
        Some(StreamFault::TooLong { corr, .. }) => numbers.judge(rest.place, corr, Judged::Passes),
        Some(StreamFault::Frame { at, why, corr }) => numbers.judge_field(
            rest.place, at, why, corr,
        ),
    }
}

/// What the first byte beyond the limit comes to, behind what this reader read of a reply that goes on.
pub(crate) fn judge_byte(
    numbers: Numbers,
    reader: &mut Reader,
    byte: u8,
) -> Result<Judged, NoMemory>
    ensures { IfOk result (λ judged. judged ≡ judged_byte numbers.count numbers.least reader.old byte) }
{
    let place = reader.place();
    let number = completed(reader.begun(), byte);
    if let Err(FeedFault::NoMemory) = reader.feed(&[byte]) {
        return Err(NoMemory);
    }
    Ok(match reader.fault() {
        Some(StreamFault::Frame { at, why, corr }) => numbers.judge_field(place, at, why, corr),
        Some(StreamFault::TooLong { .. }) | None => {
            numbers.judge_told(place, number, Judged::Passes)
        }
    })
}

/// The correlation number that a byte completes behind these bytes of a DSS.
fn completed(bytes: &[u8], byte: u8) -> Option<u16>
    ensures { result ≡ completed bytes.now byte }
{
    if bytes.len() == 5 {
        Some(256 * u16::from(bytes[4]) + u16::from(byte))
    } else {
        None
    }
}

/// The place of the correlation number of a DSS.
fn number_place(at: u64) -> u64
    ensures { result ≡ number_place at }
{
    at.saturating_add(4)
}
