//! One step of an IA-32 program: the integer instructions in 32-bit flat mode (Intel SDM volumes 1
//! and 2). Which instructions there are, and what is left out, is in docs/INSTRUCTIONS.md.
//!
//! An instruction is a pure function of registers and memory to an effect, new registers and at
//! most one write, or to a fault. One place makes the effect, so a fault changes nothing.
#![tactic(auto)]

ghost use Rattle.std.specs.Prelude.{◌≡◌, ◌≤◌, ◌+◌, None, true, IfSome, length};
ghost use Rattle.std.specs.FinMap as map;
ghost use Rattle.nd_mem.specs.Space.{fault_at, Executing};
ghost use Rattle.guest_map.specs.Slots.{slot_at};
ghost use Rattle.ia32_step.specs.Decodings.{Keeps, IsHeld};
ghost use Rattle.ia32_step.specs.Machine.{machine, faulted, stopped, done_by, run_of, cut_off, fetched, outcome, answer_to, after, moved, IsReadAt, EachStepIsAsSpelled};

mod arithmetic;
mod bit_strings;
mod conditions;
mod control;
mod decodings;
mod effects;
mod execute;
mod moves;
mod operands;
mod products;
mod registers;
mod stack;
mod strings;

pub use decodings::Decodings;
use effects::Stop;
use execute::execute;
use guest_map::slot_at;
use ia32_decode::{
    Decoded, Instr, at_most_fifteen_bytes, decode, decoding_is_exact, spelled_is_decoded,
};
use nd_base::{Addr, Slot};
use nd_mem::{MemFault, Memory, fault_laws, fetch_laws, read_laws};
pub use registers::Regs;

/// Why an instruction has no result.
#[derive(Clone, Copy, Debug, PartialEq, Eq)]
pub enum FaultKind {
    DivideError,
    /// The bytes are of no instruction that is read.
    Outside,
    Unmapped,
    NotReadable,
    NotWritable,
    NotExecutable,
}

/// What one step came to.
#[derive(Clone, Copy, Debug, PartialEq, Eq)]
pub enum Stepped {
    /// EIP is the address of a slot.
    Trap(Slot),
    /// The instruction is done.
    Went,
    /// The instruction has no result, and nothing changed. The address is EIP at DivideError and at
    /// Outside, and else that of the first byte in memory that may not be so used.
    Fault(FaultKind, Addr),
}

/// The answer to an access that faults.
#[inline(always)]
fn refused(fault: MemFault) -> Stepped
    ensures { result ≡ answer_to (faulted fault) }
{
    match fault {
        MemFault::Unmapped(at) => Stepped::Fault(FaultKind::Unmapped, at),
        MemFault::NotReadable(at) => Stepped::Fault(FaultKind::NotReadable, at),
        MemFault::NotWritable(at) => Stepped::Fault(FaultKind::NotWritable, at),
        MemFault::NotExecutable(at) => Stepped::Fault(FaultKind::NotExecutable, at),
    }
}

/// The answer where an instruction at this EIP has no result.
#[inline(always)]
fn stopped(stop: Stop, eip: u32) -> Stepped
    ensures { result ≡ answer_to (stopped stop eip) }
{
    match stop {
        Stop::DivideError => Stepped::Fault(FaultKind::DivideError, Addr(eip)),
        Stop::Memory(fault) => refused(fault),
    }
}

/// Does the instruction, which so many bytes spell.
#[inline(always)]
fn run_one(i: &Instr, length: u8, r: &mut Regs, m: &mut Memory) -> Stepped
    ensures answer { result ≡ answer_to (done_by i.now length (machine r.old m.old)) }
    ensures state { machine r.new m.new ≡ after (done_by i.now length (machine r.old m.old)) (machine r.old m.old) }
{
    let eip = r.eip;
    match execute(i, length, r, m) {
        Ok(_) => Stepped::Went,
        Err(stop) => stopped(stop, eip),
    }
}

/// The answer where all of these bytes at EIP only begin an instruction.
#[inline]
fn cut_off(length: usize, r: &Regs, m: &Memory) -> Stepped
    requires { length ≤ 15 }
    ensures { result ≡ answer_to (cut_off (fault_at Executing (map.get m.now) (r.now.eip + length)) (machine r.now m.now)) }
{
    let eip = r.eip;
    let mut next = [0; 15];
    match m.fetch(Addr(eip.wrapping_add(length as u32)), &mut next) {
        // Not reached: no instruction has 15 bytes and goes on.
        Ok(_) => Stepped::Fault(FaultKind::Outside, Addr(eip)),
        Err(fault) => refused(fault),
    }
}

/// Runs the instruction that these bytes at EIP begin with.
#[inline(always)]
fn run(code: &[u8], r: &mut Regs, m: &mut Memory) -> Stepped
    requires { length code.now ≤ 15 }
    ensures answer { result ≡ answer_to (run_of code.now (machine r.old m.old)) }
    ensures state { machine r.new m.new ≡ after (run_of code.now (machine r.old m.old)) (machine r.old m.old) }
{
    match decode(code) {
        Decoded::One(i, length) => run_one(&i, length, r, m),
        Decoded::Outside(_) => Stepped::Fault(FaultKind::Outside, Addr(r.eip)),
        Decoded::More => cut_off(code.len(), r, m),
    }
}

/// The instruction at EIP, and how many bytes spell it, where they stand in one region of memory.
#[inline(always)]
fn read_at_once(eip: Addr, m: &Memory) -> Option<(Instr, u8)>
    ensures { IfSome result (λ x. IsReadAt (map.get m.now) eip.0 x.0 x.1) }
{
    fetch_laws();
    read_laws();
    spelled_is_decoded();
    match m.code(eip) {
        Ok(run) => match decode(&run[..run.len().min(15)]) {
            Decoded::One(i, length) => Some((i, length)),
            _ => None,
        },
        Err(_) => None,
    }
}

/// Runs what stands at EIP, which is no slot's address, over as many regions as it takes.
fn run_fetched(r: &mut Regs, m: &mut Memory) -> Stepped
    ensures answer { result ≡ answer_to (fetched (fault_at Executing (map.get m.old) r.old.eip) (machine r.old m.old)) }
    ensures state { machine r.new m.new ≡ after (fetched (fault_at Executing (map.get m.old) r.old.eip) (machine r.old m.old)) (machine r.old m.old) }
{
    let mut code = [0; 15];
    match m.fetch(Addr(r.eip), &mut code) {
        Ok(length) => run(&code[..length], r, m),
        Err(fault) => refused(fault),
    }
}

/// One step of the program in `m`. A fault changes nothing.
#[tactic(auto, unfolding(crate::specs::Machine::outcome))]
#[inline]
pub fn step(r: &mut Regs, m: &mut Memory) -> Stepped
    ensures answer { result ≡ answer_to (outcome (machine r.old m.old)) }
    ensures state { machine r.new m.new ≡ moved (machine r.old m.old) }
{
    let eip = Addr(r.eip);
    if let Some(slot) = slot_at(eip) {
        return Stepped::Trap(slot);
    }
    match read_at_once(eip, m) {
        Some((i, length)) => run_one(&i, length, r, m),
        None => run_fetched(r, m),
    }
}

/// Does the instruction that is kept of EIP.
#[tactic(auto, unfolding(crate::specs::Machine::outcome))]
#[inline(always)]
fn run_kept(decodings: &mut Decodings, r: &mut Regs, m: &mut Memory) -> Stepped
    requires held { IsHeld decodings.old r.old.eip m.old }
    requires kept { Keeps decodings.old m.old }
    ensures answer { result ≡ answer_to (outcome (machine r.old m.old)) }
    ensures state { machine r.new m.new ≡ moved (machine r.old m.old) }
    ensures keeps { Keeps decodings.new m.new }
{
    fault_laws();
    fetch_laws();
    read_laws();
    let eip = r.eip;
    let kept = &decodings.kept[(eip % 32) as usize];
    match execute(&kept.instruction, kept.length, r, m) {
        Ok(write) => {
            if decodings.is_met(write) {
                *decodings = Decodings::new();
            }
            Stepped::Went
        }
        Err(stop) => stopped(stop, eip),
    }
}

/// Looks for an instruction at EIP, which is no slot's address, and keeps it, if its bytes stand in
/// one region of memory.
#[inline]
fn look_up(decodings: &mut Decodings, eip: u32, m: &Memory) -> bool
    requires slot { slot_at eip ≡ None }
    requires kept { Keeps decodings.old m.now }
    ensures keeps { Keeps decodings.new m.now }
    ensures held { result ≡ true → IsHeld decodings.new eip m.now }
{
    match read_at_once(Addr(eip), m) {
        Some((i, length)) => decodings.keep(eip, i, length, m),
        None => false,
    }
}

/// One step, as `step` makes it, over what is kept of the steps before.
#[tactic(auto, unfolding(crate::specs::Machine::outcome))]
#[inline]
pub fn step_decoded(decodings: &mut Decodings, r: &mut Regs, m: &mut Memory) -> Stepped
    requires { Keeps decodings.old m.old }
    ensures answer { result ≡ answer_to (outcome (machine r.old m.old)) }
    ensures state { machine r.new m.new ≡ moved (machine r.old m.old) }
    ensures keeps { Keeps decodings.new m.new }
{
    let eip = r.eip;
    if !decodings.holds(eip) {
        if let Some(slot) = slot_at(Addr(eip)) {
            return Stepped::Trap(slot);
        }
        if !look_up(decodings, eip, m) {
            *decodings = Decodings::new();
            return run_fetched(r, m);
        }
    }
    run_kept(decodings, r, m)
}

/// A step does the instruction that is spelled at EIP, or says why there is none.
pub fn each_step_is_as_spelled()
    ensures { EachStepIsAsSpelled }
{
    at_most_fifteen_bytes();
    decoding_is_exact();
    fetch_laws();
    read_laws();
    spelled_is_decoded();
}
