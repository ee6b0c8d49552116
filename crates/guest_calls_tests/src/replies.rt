//! What an answer is.

use guest_world::{Answer, CallRefusal, Reply};
use log_fields::Write;
use nd_base::{Breach, Bytes};
use nd_mem::Memory;

/// Bytes at an address of guest memory.
pub type Written = (u32, &'static [u8]);

/// What a call comes to.
#[derive(Clone, Copy)]
pub enum Comes {
    /// It is answered with this EAX and these writes, and costs a microsecond.
    Returns(u32, &'static [Written]),
    /// The same, at this cost.
    Costs(u64, u32, &'static [Written]),
    /// It is answered with EAX 0 and no writes, at this cost, and has sent these frames.
    Sends(u64, &'static [&'static [u8]]),
    /// It breaks this rule.
    Breaks(u8),
    /// It spins on a lock of this context.
    Spins(u8),
    /// It sleeps up to this moment.
    Sleeps(u64),
    /// It waits for a function that runs as the interrupt handler.
    Waits,
}

fn is_write(write: &Write, expected: &Written) -> bool {
    let (at, bytes) = *expected;
    write.at.0 == at && write.bytes.as_slice() == bytes
}

fn are_writes(writes: &[Write], expected: &[Written]) -> bool {
    writes.len() == expected.len()
        && writes
            .iter()
            .zip(expected.iter())
            .all(|(write, expected)| is_write(write, expected))
}

fn are_frames(frames: &[Bytes], expected: &[&[u8]]) -> bool {
    frames.len() == expected.len()
        && frames
            .iter()
            .zip(expected.iter())
            .all(|(frame, bytes)| frame.as_slice() == *bytes)
}

fn is_reply(reply: &Reply, cost: u64, eax: u32, writes: &[Written], frames: &[&[u8]]) -> bool {
    reply.cost == cost
        && reply.eax == eax
        && are_writes(reply.writes.as_slice(), writes)
        && are_frames(reply.sent.as_slice(), frames)
}

/// Whether a call was answered at once with this reply.
fn replies(
    answer: &Result<Answer, CallRefusal>,
    cost: u64,
    eax: u32,
    writes: &[Written],
    frames: &[&[u8]],
) -> bool {
    match answer {
        Ok(Answer::Now(reply)) => is_reply(reply, cost, eax, writes, frames),
        _ => false,
    }
}

fn breaks(answer: &Result<Answer, CallRefusal>, rule: u8) -> bool {
    match answer {
        Err(CallRefusal::Broken(Breach(broken))) => *broken == rule,
        _ => false,
    }
}

fn spins(answer: &Result<Answer, CallRefusal>, context: u8) -> bool {
    match answer {
        Ok(Answer::Spin(holder)) => holder.0 == context,
        _ => false,
    }
}

fn sleeps(answer: &Result<Answer, CallRefusal>, moment: u64) -> bool {
    match answer {
        Ok(Answer::Sleep(wake)) => *wake == moment,
        _ => false,
    }
}

fn waits(answer: &Result<Answer, CallRefusal>) -> bool {
    match answer {
        Ok(Answer::Sync) => true,
        _ => false,
    }
}

/// Whether an answer is what a call comes to.
pub fn comes_to(answer: &Result<Answer, CallRefusal>, comes: &Comes) -> bool {
    match comes {
        Comes::Returns(eax, writes) => replies(answer, 1, *eax, writes, &[]),
        Comes::Costs(cost, eax, writes) => replies(answer, *cost, *eax, writes, &[]),
        Comes::Sends(cost, frames) => replies(answer, *cost, 0, &[], frames),
        Comes::Breaks(rule) => breaks(answer, *rule),
        Comes::Spins(context) => spins(answer, *context),
        Comes::Sleeps(moment) => sleeps(answer, *moment),
        Comes::Waits => waits(answer),
    }
}

fn are_made(memory: &mut Memory, writes: &[Write]) -> bool {
    for write in writes {
        if memory.write(write.at, write.bytes.as_slice()).is_err() {
            return false;
        }
    }
    true
}

/// Makes the writes of an answer. Whether each could be made.
pub fn made(memory: &mut Memory, answer: &Result<Answer, CallRefusal>) -> bool {
    match answer {
        Ok(Answer::Now(reply)) => are_made(memory, reply.writes.as_slice()),
        _ => true,
    }
}
