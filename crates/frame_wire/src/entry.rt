//! The entries of a file.

ghost use Rattle.std.specs.Prelude.{◌≡◌, ◌≤◌, ◌<◌, length, IfSome, IfOk, MatchResult, Ok, Err};
ghost use Rattle.std.specs.Option.{option_map};
ghost use Rattle.frame_wire.specs.Entries.{time, has_good_length};
ghost use Rattle.frame_wire.specs.Reading.{seen, whole_at, judged, first_time};

use crate::order::Order;
use crate::refusal::WireRefusal;

/// The length of an entry before its frame.
const ENTRY_HEADER_LEN: usize = 16;

const SHORTEST_FRAME: u32 = 14;

const LONGEST_FRAME: u32 = 1514;

/// An entry whose bytes are there: its time, the frame's length in the file and on the wire, and
/// the bytes that are in the file.
#[derive(Drop)]
pub struct Entry<'a> {
    pub seconds: u32,
    pub microseconds: u32,
    pub included: u32,
    pub original: u32,
    pub frame: &'a [u8],
}

impl Entry<'_> {
    /// The time in microseconds.
    pub fn time(&self) -> u64
        ensures { result ≡ time (seen self.now) }
    {
        u64::from(self.seconds) * 1_000_000 + u64::from(self.microseconds)
    }

    /// Whether the file has the whole of the frame, and its length is an Ethernet frame's.
    fn has_good_length(&self) -> bool
        ensures { result ≡ has_good_length (seen self.now) }
    {
        self.included == self.original
            && self.included >= SHORTEST_FRAME
            && self.included <= LONGEST_FRAME
    }
}

/// The time of the first entry, or 0 where there is none.
pub fn first_time(order: Order, bytes: &[u8]) -> u64
    ensures { result ≡ first_time order bytes.now }
{
    if bytes.len() < ENTRY_HEADER_LEN {
        return 0;
    }
    let seconds = order.number(&bytes[0..4]);
    let microseconds = order.number(&bytes[4..8]);
    u64::from(seconds) * 1_000_000 + u64::from(microseconds)
}

/// The entry at the front, where its bytes are there, and the bytes behind it.
#[tactic(auto, unfolding(crate::specs::Reading::whole_at))]
pub fn whole_at(order: Order, bytes: &[u8]) -> Option<(Entry<'_>, &[u8])>
    ensures value { option_map (λ x. (seen x.0, x.1.now)) result ≡ whole_at order bytes.now }
    ensures shorter { IfSome result (λ x. length x.1.now < length bytes.now) }
{
    if bytes.len() < ENTRY_HEADER_LEN {
        return None;
    }
    let included = order.number(&bytes[8..12]);
    let (_header, rest) = bytes.split_at(ENTRY_HEADER_LEN);
    if rest.len() < included as usize {
        return None;
    }
    let (frame, rest) = rest.split_at(included as usize);
    let entry = Entry {
        seconds: order.number(&bytes[0..4]),
        microseconds: order.number(&bytes[4..8]),
        included,
        original: order.number(&bytes[12..16]),
        frame,
    };
    Some((entry, rest))
}

/// The entry at the front, which lies at the offset `at` behind an entry of the time `last`, and
/// the bytes behind it.
pub fn next_entry(
    order: Order,
    last: u64,
    at: u64,
    bytes: &[u8],
) -> Result<(Entry<'_>, &[u8]), WireRefusal>
    ensures value { let found = judged at last (whole_at order bytes.now) in MatchResult result (λ x. found ≡ Ok (seen x.0, x.1.now)) (λ e. found ≡ Err e) }
    ensures shorter { IfOk result (λ x. length x.1.now < length bytes.now) }
    ensures later { IfOk result (λ x. last ≤ time (seen x.0)) }
{
    let Some((entry, rest)) = whole_at(order, bytes) else {
        return Err(WireRefusal::CutShort(at));
    };
    if !entry.has_good_length() {
        return Err(WireRefusal::Length(at));
    }
    if entry.time() < last {
        return Err(WireRefusal::Backwards(at));
    }
    Ok((entry, rest))
}
