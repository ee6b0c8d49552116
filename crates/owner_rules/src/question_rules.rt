//! Questions that are refused for themselves.
//!
//! (DDK: ntddndis.h; OID_GEN_CURRENT_PACKET_FILTER, OID_GEN_CURRENT_LOOKAHEAD, OID_802_3_MULTICAST_LIST.)

ghost use Rattle.std.specs.Prelude.{◌≡◌, ◌<◌, true, length, IfNone, IfSome};
ghost use Rattle.owner_machine.specs.Requests.{is_set, little_endian, is_filter, are_groups, has_length, has_data, wrong, refusal};
ghost use Rattle.log_fields.specs.declared.field_values.Question.TheVariants.{Set};

use call_log::Question;
use nd_base::Phase;

/// OID_GEN_CURRENT_PACKET_FILTER.
pub const CURRENT_PACKET_FILTER: u32 = 0x0001_010E;

/// OID_GEN_CURRENT_LOOKAHEAD.
const CURRENT_LOOKAHEAD: u32 = 0x0001_010F;

/// OID_802_3_MULTICAST_LIST.
pub const MULTICAST_LIST: u32 = 0x0101_0103;

/// NDIS_STATUS_CLOSING.
pub(crate) const CLOSING: u32 = 0xC001_0002;

/// NDIS_STATUS_RESET_IN_PROGRESS.
pub(crate) const RESET_IN_PROGRESS: u32 = 0xC001_000D;

/// NDIS_STATUS_INVALID_LENGTH.
const INVALID_LENGTH: u32 = 0xC001_0014;

/// NDIS_STATUS_INVALID_DATA.
const INVALID_DATA: u32 = 0xC001_0015;

/// The most bytes of a question.
const MOST_BYTES: usize = 4096;

pub(crate) fn is_set(question: &Question) -> bool
    ensures { result ≡ is_set question.now }
{
    matches!(question, Question::Set { .. })
}

/// The word that bytes make, the lowest first; none where they are more than four.
pub fn little_endian(bytes: &[u8]) -> Option<u32>
    ensures some { IfSome result (λ word. word ≡ little_endian bytes.now) }
    ensures none { IfNone result (4 < length bytes.now) }
{
    match bytes {
        [] => Some(0),
        [a] => Some(u32::from(*a)),
        [a, b] => Some(u32::from(*a) + 256 * u32::from(*b)),
        [a, b, c] => Some(u32::from(*a) + 256 * (u32::from(*b) + 256 * u32::from(*c))),
        [a, b, c, d] => Some(
            u32::from(*a) + 256 * (u32::from(*b) + 256 * (u32::from(*c) + 256 * u32::from(*d))),
        ),
        _ => None,
    }
}

/// Whether a word has no bit but those of the five filters.
fn is_filter(filter: u32) -> bool
    ensures { result ≡ is_filter filter }
{
    filter / 64 == 0 && (filter / 16) % 2 == 0
}

/// Whether each address of a list is a group address.
fn are_groups(list: &[u8]) -> bool
    ensures { result ≡ are_groups list.now }
{
    match list {
        [a, _, _, _, _, _, rest @ ..] => *a % 2 == 1 && are_groups(rest),
        _ => true,
    }
}

fn has_length(oid: u32, n: usize) -> bool
    ensures { result ≡ has_length oid n }
{
    if oid == CURRENT_PACKET_FILTER || oid == CURRENT_LOOKAHEAD {
        n == 4
    } else if oid == MULTICAST_LIST {
        n % 6 == 0 && n <= 192
    } else {
        n <= MOST_BYTES
    }
}

/// Whether the bytes, which have their length, may be set.
fn has_data(oid: u32, bytes: &[u8]) -> bool
    requires { has_length oid (length bytes.now) ≡ true }
    ensures { result ≡ has_data oid bytes.now }
{
    if oid == CURRENT_PACKET_FILTER {
        return match little_endian(bytes) {
            Some(filter) => is_filter(filter),
            None => unreachable!(),
        };
    }
    oid != MULTICAST_LIST || are_groups(bytes)
}

/// The status with which a set is refused for itself.
fn wrong_set(oid: u32, bytes: &[u8]) -> Option<u32>
    ensures { result ≡ wrong (Set oid bytes.now) }
{
    if !has_length(oid, bytes.len()) {
        return Some(INVALID_LENGTH);
    }
    if has_data(oid, bytes) {
        None
    } else {
        Some(INVALID_DATA)
    }
}

/// The status with which a question is refused for itself.
fn wrong(question: &Question) -> Option<u32>
    ensures { result ≡ wrong question.now }
{
    match question {
        Question::Query { length, .. } => {
            if *length <= 4096 {
                None
            } else {
                Some(INVALID_LENGTH)
            }
        }
        Question::Set { oid, bytes } => wrong_set(*oid, bytes.as_slice()),
    }
}

/// The status with which an adapter in this phase refuses a question.
pub(crate) fn refusal(phase: Option<Phase>, question: &Question) -> Option<u32>
    ensures { result ≡ refusal phase question.now }
{
    match phase {
        Some(Phase::Running) => wrong(question),
        Some(Phase::Resetting) => Some(RESET_IN_PROGRESS),
        _ => Some(CLOSING),
    }
}
