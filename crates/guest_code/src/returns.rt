//! How a call returns: the calling conventions of Microsoft's C compiler for x86.

ghost use Rattle.std.specs.Prelude.{◌≡◌, None, Some};
ghost use Rattle.std.specs.FinMap as map;
ghost use Rattle.nd_mem.specs.Space.{first_fault, Reading};
ghost use Rattle.packet_chain.specs.Chain.{word_at};
ghost use Rattle.ia32_step.specs.Registers as registers;
ghost use Rattle.import_table.specs.Table.{seen};
ghost use Rattle.legal_run.specs.Replies.{taken_by, returned};

use ia32_step::Regs;
use import_table::{Convention, ImportRow};
use nd_base::Addr;
use nd_mem::Memory;

const EAX: usize = 0;

const ESP: usize = 4;

/// The address that a call returns to, which can be read.
#[tactic(auto, unfolding(packet_chain::specs::Chain::word_at))]
fn return_address(memory: &Memory, esp: u32) -> u32
    requires { first_fault Reading (map.get memory.now) esp 4 ≡ None }
    ensures { result ≡ word_at (map.get memory.now) esp }
{
    let mut bytes = [0; 4];
    match memory.read(Addr(esp), &mut bytes) {
        Ok(()) => u32::from_le_bytes(bytes),
        Err(_) => unreachable!(),
    }
}

/// How many bytes a call takes off the stack: the address that it returns to, and its words where
/// its convention says so.
fn taken_by(row: &ImportRow) -> u32
    ensures { result ≡ taken_by (seen row.now) }
{
    let words = match row.convention {
        Convention::Stdcall => row.words,
        Convention::Cdecl => 0,
        Convention::Fastcall => row.words.saturating_sub(2),
    };
    4 + 4 * u32::from(words)
}

/// The registers behind the call of an import that answers EAX. The address that it returns to, at
/// ESP, can be read.
pub fn returned(memory: &Memory, regs: &Regs, row: &ImportRow, eax: u32) -> Regs
    requires { first_fault Reading (map.get memory.now) (registers.general_of regs.now registers.ESP) 4 ≡ None }
    ensures { result ≡ returned (map.get memory.now) regs.now (seen row.now) eax }
{
    let esp = regs.general[ESP];
    let mut after = *regs;
    after.general[ESP] = esp.wrapping_add(taken_by(row));
    after.general[EAX] = eax;
    after.eip = return_address(memory, esp);
    after
}
