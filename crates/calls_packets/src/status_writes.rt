//! Replies that write a status and a number.

ghost use Rattle.std.specs.Prelude.{◌≡◌, ◌≤◌, ◌∷◌, [], ◌++◌, length, OnOk, IfErr, IfOk};
ghost use Rattle.import_answers.specs.Outcomes.{plain};
ghost use Rattle.import_answers.specs.Descriptors.{status_and};

use call_replies::{put_word, writes};
use guest_world::{Answer, CallRefusal};
use log_fields::Writes;
use std::alloc::Global;

/// NDIS_STATUS_SUCCESS.
pub(crate) const SUCCESS: u32 = 0;

/// NDIS_STATUS_RESOURCES.
pub(crate) const RESOURCES: u32 = 0xC000_009A;

/// Puts the writes of a status at the first word of a call, and of a number at the second, behind
/// the others.
pub(crate) fn put_status_and(
    alloc: Global,
    list: &mut Writes,
    words: &[u32],
    status: u32,
    value: u32,
) -> Result<(), CallRefusal>
    requires { 2 ≤ length words.now }
    ensures ok { OnOk result (list.new ≡ list.old ++ status_and words.now status value) }
    ensures err { IfErr result (λ e. e ≡ CallRefusal.OutOfMemory) }
{
    put_word(alloc, list, words[0], status)?;
    put_word(alloc, list, words[1], value)
}

/// The reply that writes a status and a number.
pub(crate) fn with_status(
    alloc: Global,
    words: &[u32],
    status: u32,
    value: u32,
) -> Result<Answer, CallRefusal>
    requires { 2 ≤ length words.now }
    ensures ok { IfOk result (λ answer. answer ≡ Answer.Now (plain 0 (status_and words.now status value))) }
    ensures err { IfErr result (λ e. e ≡ CallRefusal.OutOfMemory) }
{
    let mut list = Writes::new(alloc);
    put_status_and(alloc, &mut list, words, status, value)?;
    Ok(writes(alloc, 0, list))
}
