//! The stack that a handler begins with: zeros, and at its end the address that it returns to and its
//! argument words. (The calling conventions of Microsoft's C compiler for x86.)

ghost use Rattle.std.specs.Prelude.{◌≡◌, ◌≤◌, ◌<◌, ◌+◌, ◌*◌, replicate, length};
ghost use Rattle.std.specs.List.{flat_map};
ghost use Rattle.std.specs.Int.{to_le_bytes, w32};
ghost use Rattle.nd_mem.specs.Space.{put_from};
ghost use Rattle.legal_run.specs.Guest.{entered_memory, entered_registers, stack_pointer};

use guest_map::{slot_address, stack};
use guest_writes::{put, put_all};
use ia32_step::Regs;
use log_fields::Writes;
use nd_base::{Addr, CtxNo, Slot};
use nd_mem::{Memory, write_laws};

/// The number of the stack pointer.
const ESP: usize = 4;

/// How many bytes a stack has.
const STACK: usize = 0x4000;

/// A stack of zeros.
const ZEROS: [u8; STACK] = [0; STACK];

/// Puts so many zeros from an address on.
fn put_zeros(memory: &mut Memory, at: Addr, count: usize)
    requires { count ≤ 0x4000 }
    ensures { memory.new ≡ put_from memory.old at.0 (replicate count 0) }
{
    put(memory, at, &ZEROS[..count]);
}

/// Puts words from an address on, each in four bytes, the lowest first.
fn put_words(memory: &mut Memory, at: u32, words: &[u32])
    requires { at + 4 * length words.now ≤ 0xF0000000 }
    ensures { memory.new ≡ put_from memory.old at (flat_map (to_le_bytes w32) words.now) }
{
    write_laws();
    let mut next = at;
    for word in words {
        put(memory, Addr(next), &word.to_le_bytes());
        next += 4;
    }
}

/// Where the words of a context's handler begin: there stands the address that it returns to.
pub fn stack_pointer(x: CtxNo, words: &[u32]) -> u32
    requires number { x.0 < 16 }
    requires few { length words.now ≤ 16 }
    ensures { result ≡ stack_pointer x.0 words.now }
{
    let stack = stack(x);
    stack.first.0 + (stack.length - 4 * (1 + words.len() as u32))
}

/// Puts a handler's stack and what is written beside it.
pub fn begin_stack(memory: &mut Memory, x: CtxNo, words: &[u32], writes: &Writes)
    requires number { x.0 < 16 }
    requires few { length words.now ≤ 16 }
    ensures { memory.new ≡ entered_memory memory.old x.0 words.now writes.now }
{
    write_laws();
    let esp = stack_pointer(x, words);
    let zeros = STACK - 4 * (1 + words.len());
    put_zeros(memory, stack(x).first, zeros);
    put(
        memory,
        Addr(esp),
        &slot_address(Slot::Leave).0.to_le_bytes(),
    );
    put_words(memory, esp + 4, words);
    put_all(memory, writes);
}

/// The registers that a handler at an address begins with.
pub fn begin_registers(esp: u32, address: u32) -> Regs
    ensures { result ≡ entered_registers esp address }
{
    let mut regs = Regs::new();
    regs.general[ESP] = esp;
    regs.eip = address;
    regs
}
