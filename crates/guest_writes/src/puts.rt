//! Bytes that are put into guest memory, whatever the rights there, as far as it is mapped.

ghost use Rattle.std.specs.Prelude.{◌≡◌, [], ◌∷◌};
ghost use Rattle.nd_mem.specs.Space.{put_from};
ghost use Rattle.legal_run.specs.Guest.{with_writes};

use log_fields::Writes;
use nd_base::Addr;
use nd_mem::{Memory, write_laws};

/// Puts a byte at an address, if it is mapped.
fn put_byte(memory: &mut Memory, at: Addr, byte: u8)
    ensures { memory.new ≡ put_from memory.old at.0 (byte ∷ []) }
{
    let _ = memory.place(at, &[byte]);
}

/// Puts bytes from an address on, one after the other.
fn put_each(memory: &mut Memory, at: Addr, bytes: &[u8])
    ensures { memory.new ≡ put_from memory.old at.0 bytes.now }
{
    write_laws();
    let mut next = at.0;
    for byte in bytes {
        put_byte(memory, Addr(next), *byte);
        next = next.wrapping_add(1);
    }
}

/// Puts bytes from an address on, each where it is mapped. Addresses go on from 0xFFFFFFFF at 0.
pub fn put(memory: &mut Memory, at: Addr, bytes: &[u8])
    ensures { memory.new ≡ put_from memory.old at.0 bytes.now }
{
    match memory.place(at, bytes) {
        Ok(()) => {}
        Err(_) => put_each(memory, at, bytes),
    }
}

/// Makes writes, one after the other.
pub fn put_all(memory: &mut Memory, writes: &Writes)
    ensures { memory.new ≡ with_writes memory.old writes.now }
{
    for write in writes.as_slice() {
        put(memory, write.at, write.bytes.as_slice());
    }
}
