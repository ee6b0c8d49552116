//! Replies, and what they write.

ghost use Rattle.std.specs.Prelude.{◌≡◌, [], ◌∷◌, ◌++◌, length, replicate, OnOk, IfOk, IfErr};
ghost use Rattle.import_answers.specs.Outcomes.{plain, written, word_written};
ghost use Rattle.import_answers.specs.Blocks.{bytes_written, moves};

use guest_world::{Answer, CallRefusal, Reply, SentFrames};
use log_fields::{Write, Writes};
use nd_base::{Addr, Breach, Bytes};
use std::alloc::Global;

/// An argument area can't be read or written, or a handle is none that the library gave.
pub const ARGUMENTS_RULE: CallRefusal = CallRefusal::Broken(Breach(9));

/// What is named is not live.
pub const LIVE_RULE: CallRefusal = CallRefusal::Broken(Breach(2));

/// The reply that has this EAX and these writes, and costs a microsecond.
pub fn writes(alloc: Global, eax: u32, writes: Writes) -> Answer
    ensures { result ≡ Answer.Now (plain eax writes) }
{
    Answer::Now(Reply {
        eax,
        writes,
        cost: 1,
        sent: SentFrames::new(alloc),
    })
}

/// The reply that has this EAX, and writes nothing.
pub fn returns(alloc: Global, eax: u32) -> Answer
    ensures { result ≡ Answer.Now (plain eax []) }
{
    writes(alloc, eax, Writes::new(alloc))
}

/// The reply of a call that only returns.
pub fn done(alloc: Global) -> Answer
    ensures { result ≡ Answer.Now (plain 0 []) }
{
    returns(alloc, 0)
}

/// Puts a write behind the others. Where memory is wanted, nothing is put there.
pub fn put_bytes(
    alloc: Global,
    writes: &mut Writes,
    at: u32,
    bytes: &[u8],
) -> Result<(), CallRefusal>
    ensures ok { OnOk result (writes.new ≡ writes.old ++ written at bytes.now ∷ []) }
    ensures err { IfErr result (λ e. e ≡ CallRefusal.OutOfMemory) }
{
    let Ok(bytes) = Bytes::copy(alloc, bytes) else {
        return Err(CallRefusal::OutOfMemory);
    };
    match writes.push(Write {
        at: Addr(at),
        bytes,
    }) {
        Ok(()) => Ok(()),
        Err(_) => Err(CallRefusal::OutOfMemory),
    }
}

/// Puts the write of a number of four bytes behind the others, its low byte first. Where memory is
/// wanted, nothing is put there.
pub fn put_word(alloc: Global, writes: &mut Writes, at: u32, value: u32) -> Result<(), CallRefusal>
    ensures ok { OnOk result (writes.new ≡ writes.old ++ word_written at value ∷ []) }
    ensures err { IfErr result (λ e. e ≡ CallRefusal.OutOfMemory) }
{
    put_bytes(alloc, writes, at, &value.to_le_bytes())
}

/// Puts a write behind the others, but that no bytes make no write. Where memory is wanted, nothing
/// is put there.
pub fn put_some(
    alloc: Global,
    writes: &mut Writes,
    at: u32,
    bytes: &[u8],
) -> Result<(), CallRefusal>
    ensures ok { OnOk result (writes.new ≡ writes.old ++ bytes_written at bytes.now) }
    ensures err { IfErr result (λ e. e ≡ CallRefusal.OutOfMemory) }
{
    if bytes.is_empty() {
        return Ok(());
    }
    put_bytes(alloc, writes, at, bytes)
}

/// The reply of a call that moves bytes to an address: it costs a microsecond for each 16 of them
/// more. The error is want of memory.
pub fn moved(alloc: Global, eax: u32, to: u32, bytes: &[u8]) -> Result<Answer, CallRefusal>
    ensures ok { IfOk result (λ answer. answer ≡ Answer.Now (record { eax = eax; writes = bytes_written to bytes.now; cost = moves (length bytes.now); sent = [] })) }
    ensures err { IfErr result (λ e. e ≡ CallRefusal.OutOfMemory) }
{
    let mut list = Writes::new(alloc);
    put_some(alloc, &mut list, to, bytes)?;
    Ok(Answer::Now(Reply {
        eax,
        writes: list,
        cost: 1 + bytes.len() as u64 / 16,
        sent: SentFrames::new(alloc),
    }))
}

/// So many bytes, each with one value. The error is want of memory.
pub fn filled(alloc: Global, byte: u8, count: u32) -> Result<Vec<u8>, CallRefusal>
    ensures ok { IfOk result (λ bytes. bytes.items ≡ replicate count byte) }
    ensures err { IfErr result (λ e. e ≡ CallRefusal.OutOfMemory) }
{
    match vec![in alloc; byte; count as usize] {
        Ok(bytes) => Ok(bytes),
        Err(_) => Err(CallRefusal::OutOfMemory),
    }
}
