//! The argument words of a call, as they stand where an import's slot traps.

ghost use Rattle.std.specs.Prelude.{◌≡◌, None, replicate};
ghost use Rattle.std.specs.FinMap as map;
ghost use Rattle.import_table.specs.Table.{seen};
ghost use Rattle.import_table.specs.Arguments.{word_at, stacked, argument, return_address, cut_at, arguments};

use crate::rows::{Convention, ImportRow};
use ia32_step::Regs;
use nd_base::Addr;
use nd_mem::{MemFault, Memory};

const ECX: usize = 1;

const EDX: usize = 2;

const ESP: usize = 4;

/// A call has room for so many words.
const MOST_WORDS: u8 = 8;

/// A call of an import: its number, how many argument words were taken, and these.
#[derive(Clone, Copy, Debug, PartialEq, Eq)]
pub struct Call {
    pub import: u8,
    pub count: u8,
    /// Those from `count` on are 0.
    pub words: [u32; 8],
}

/// A call of which a word can't be read: the words in front of it, and its fault.
#[derive(Clone, Copy, Debug, PartialEq, Eq)]
pub struct CutCall {
    pub call: Call,
    pub fault: MemFault,
}

/// The word on the stack at an address.
#[tactic(auto, unfolding(crate::specs::Arguments::word_at))]
fn word_at(memory: &Memory, at: u32) -> Result<u32, MemFault>
    ensures { result ≡ word_at (map.get memory.now) at }
{
    let mut four = [0; 4];
    memory.read(Addr(at), &mut four)?;
    Ok(u32::from_le_bytes(four))
}

/// Word k, from 0, on the stack behind the return address.
fn stacked(regs: &Regs, memory: &Memory, k: u8) -> Result<u32, MemFault>
    ensures { result ≡ stacked regs.now (map.get memory.now) k }
{
    let behind = 4 + 4 * u32::from(k);
    word_at(memory, regs.general[ESP].wrapping_add(behind))
}

/// Argument word k, from 0.
#[tactic(auto, unfolding(crate::specs::Arguments::argument))]
fn argument(convention: Convention, regs: &Regs, memory: &Memory, k: u8) -> Result<u32, MemFault>
    ensures { result ≡ argument convention regs.now (map.get memory.now) k }
{
    match convention {
        Convention::Stdcall | Convention::Cdecl => stacked(regs, memory, k),
        Convention::Fastcall => match k {
            0 => Ok(regs.general[ECX]),
            1 => Ok(regs.general[EDX]),
            _ => stacked(regs, memory, k - 2),
        },
    }
}

impl Call {
    /// A call of an import, of which no word was taken yet.
    fn of(import: u8) -> Self
        ensures { result ≡ record { import = import; count = 0; words = replicate 8 0 } }
    {
        Call {
            import,
            count: 0,
            words: [0; 8],
        }
    }
}

/// The call with its words, where the return address can be read.
fn with_words(row: &ImportRow, regs: &Regs, memory: &Memory) -> Result<Call, CutCall>
    requires { cut_at 0 (return_address regs.now (map.get memory.now)) ≡ None }
    ensures { result ≡ arguments (seen row.now) regs.now (map.get memory.now) }
{
    let mut call = Call::of(row.import);
    for k in 0..row.words.min(MOST_WORDS) {
        match argument(row.convention, regs, memory, k) {
            Ok(word) => call.words[k as usize] = word,
            Err(fault) => return Err(CutCall { call, fault }),
        }
        call.count = k + 1;
    }
    Ok(call)
}

/// The words of the call that these registers and this memory make of an import, where EIP is at its
/// slot. The return address is read first, and is no argument.
pub fn arguments(row: &ImportRow, regs: &Regs, memory: &Memory) -> Result<Call, CutCall>
    ensures { result ≡ arguments (seen row.now) regs.now (map.get memory.now) }
{
    match word_at(memory, regs.general[ESP]) {
        Ok(_) => with_words(row, regs, memory),
        Err(fault) => {
            let call = Call::of(row.import);
            Err(CutCall { call, fault })
        }
    }
}
