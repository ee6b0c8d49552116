//! The addresses that stand for imports, and the one that handlers return to.

ghost use Rattle.std.specs.Prelude.{◌≡◌};
ghost use Rattle.guest_map.specs.Slots as slots;
ghost use Rattle.guest_map.specs.Slots.{IsSlot, AreSlotsAt};

use nd_base::{Addr, Slot};

/// How many imports there are. They are numbered from 1.
pub const IMPORTS: u8 = 64;

/// The address of a slot.
pub fn slot_address(slot: Slot) -> Addr
    requires { IsSlot slot }
    ensures { result.0 ≡ slots.slot_address slot }
{
    match slot {
        Slot::Import(number) => Addr(0xF000_0000 + 16 * (u32::from(number) - 1)),
        Slot::Leave => Addr(0xF000_1000),
    }
}

/// The slot whose address this is.
#[tactic(auto, unfolding(crate::specs::Slots::slot_at))]
#[inline]
pub fn slot_at(address: Addr) -> Option<Slot>
    ensures value { result ≡ slots.slot_at address.0 }
    ensures exact { AreSlotsAt address.0 result }
{
    let address = address.0;
    if address == 0xF000_1000 {
        return Some(Slot::Leave);
    }
    if address >= 0xF000_0000 && address < 0xF000_0400 && address % 16 == 0 {
        return Some(Slot::Import(((address - 0xF000_0000) / 16 + 1) as u8));
    }
    None
}
