//! NDIS_MINIPORT_CHARACTERISTICS, as a miniport gives them.

ghost use Rattle.std.specs.Prelude.{◌≡◌, ℕ, ◌+◌, ◌*◌, ◌<◌, ◌≤◌, max, true, not, ◌==◌, nat_lt, length, slice_index, if◌then◌else◌};
ghost use Rattle.std.specs.List.{list_all};
ghost use Rattle.import_answers.specs.World.{cells};
ghost use Rattle.import_answers.specs.Outcomes.{can_read, word_of};
ghost use Rattle.import_answers.specs.Registration as registration;
ghost use Rattle.calls_setup.specs.Whole.{whole};

use call_parts::{BAD_CHARACTERISTICS, BAD_VERSION, is_function};
use call_replies::word_at;
use guest_world::{CHARACTERISTICS, Miniport, World};
use nd_base::Addr;
use nd_mem::{fault_laws, read_laws};

/// The major and the minor version.
fn versions(world: &World, at: u32) -> [u8; 2]
    requires { can_read world.now at 2 ≡ true }
    ensures major { slice_index result 0 ≡ registration.major_at (cells world.now) at }
    ensures minor { slice_index result 1 ≡ registration.minor_at (cells world.now) at }
{
    let mut two = [0; 2];
    match world.memory.read(Addr(at), &mut two) {
        Ok(()) => two,
        Err(_) => unreachable!(),
    }
}

/// The first so many words, and zeros behind them.
fn words_read(world: &World, at: u32, count: usize) -> [u32; CHARACTERISTICS]
    requires most { count ≤ CHARACTERISTICS }
    requires readable { can_read world.now at (4 * count) ≡ true }
    ensures count { length result ≡ CHARACTERISTICS }
    ensures words { (k : ℕ) → k < CHARACTERISTICS → slice_index result k ≡ (if nat_lt k count then word_of world.now (at + 4 * k) else 0) }
{
    fault_laws();
    read_laws();
    let mut words = [0; CHARACTERISTICS];
    for k in 0..count {
        words[k] = word_at(world, at.wrapping_add(4 * k as u32)).unwrap_or(0);
    }
    words
}

/// Whether each of these handlers is there.
fn are_there(handlers: &[u32]) -> bool
    ensures { result ≡ list_all (λ a. not (a == 0)) handlers.now }
{
    handlers.iter().all(|handler| *handler != 0)
}

/// Whether none of these handlers is the address that handlers return to.
fn are_functions(handlers: &[u32]) -> bool
    ensures { result ≡ list_all registration.is_function handlers.now }
{
    handlers.iter().all(|handler| is_function(*handler))
}

/// Whether the handlers are there that a miniport can't be without: Halt, Initialize,
/// QueryInformation, Reset and SetInformation, and Send or SendPackets.
fn has_needed(miniport: &Miniport) -> bool
    ensures { result ≡ registration.has_needed miniport.now }
{
    let w = &miniport.words;
    let sends = are_there(&[w[12]]) || are_there(&[w[16]]);
    are_there(&[w[5], w[7], w[9], w[11], w[13]]) && sends
}

/// Whether no handler is the address that handlers return to. CheckForHang to QueryInformation,
/// Reset to SendPackets and those of NDIS 5.1 are the words of handlers that are called.
fn has_functions(miniport: &Miniport) -> bool
    ensures { result ≡ registration.has_functions miniport.now }
{
    let w = &miniport.words;
    are_functions(&[
        w[2], w[3], w[4], w[5], w[6], w[7], w[8], w[9], w[11], w[12], w[13], w[14], w[15], w[16],
        w[24], w[25], w[26],
    ])
}

/// How many words the characteristics of a minor version have.
fn word_count(minor: u8) -> usize
    ensures count { 4 * result ≡ registration.length_of_version minor }
    ensures most { result ≤ CHARACTERISTICS }
{
    if minor == 0 { 24 } else { CHARACTERISTICS }
}

/// The miniport, if it has the handlers that it needs.
fn whole(miniport: Miniport) -> Result<Miniport, u32>
    ensures { result ≡ whole miniport }
{
    if has_needed(&miniport) && has_functions(&miniport) {
        Ok(miniport)
    } else {
        Err(BAD_CHARACTERISTICS)
    }
}

/// The miniport that characteristics of a length register, or the status of those that register
/// none.
pub fn judged(world: &World, at: u32, length: u32) -> Result<Miniport, u32>
    requires { can_read world.now at (max 2 length) ≡ true }
    ensures { result ≡ registration.judged (cells world.now) at length }
{
    fault_laws();
    let [major, minor] = versions(world, at);
    if major != 5 || minor > 1 {
        return Err(BAD_VERSION);
    }
    let count = word_count(minor);
    if (length as usize) < 4 * count {
        return Err(BAD_CHARACTERISTICS);
    }
    let words = words_read(world, at, count);
    whole(Miniport { minor, words })
}
