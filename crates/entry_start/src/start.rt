//! What a driver finds in memory, and in its registers, when its DriverEntry is entered.

ghost use Rattle.std.specs.Prelude.{◌≡◌, ℕ, ◌≤◌, List, [], ◌∷◌, OnOk, IfOk, None, ◌+◌, ◌*◌, length};
ghost use Rattle.std.specs.FinMap as map;
ghost use Rattle.std.specs.List.{flat_map};
ghost use Rattle.std.specs.Int.{to_le_bytes, w32};
ghost use Rattle.nd_mem.specs.Space.{first_fault, put_from, Any};
ghost use Rattle.guest_map.specs.Regions.{image_base};
ghost use Rattle.guest_map.specs.Handles.{driver_object, registry_path};
ghost use Rattle.pe_image.specs.Image.{image_cells};
ghost use Rattle.legal_run.specs.Guest.{driver_entry_words, entry_point, start_space, stack_pointer, entered_memory, entered_registers};

use guest_map::{
    DRIVER_OBJECT, IMAGE_BASE, REGISTRY_PATH, map_regions, places_lie_in_regions,
    regions_are_blank, slot_address, stack,
};
use ia32_step::Regs;
use nd_base::{Addr, CtxNo, OutOfMemory, Slot};
use nd_mem::{Memory, RegionRefusal, fault_laws, look_up_laws, write_laws};
use pe_image::{Image, ImportAddresses, image_lies_in_its_size};
use std::alloc::Global;

/// The context of DriverEntry.
pub const CONTEXT: CtxNo = CtxNo(0);

/// DriverEntry's argument words: the driver object and the registry path.
pub const DRIVER_ENTRY_WORDS: [u32; 2] = [DRIVER_OBJECT, REGISTRY_PATH];

/// The number of the stack pointer.
const ESP: usize = 4;

/// Maps the image into memory that has nothing yet.
fn map_image(
    alloc: Global,
    image: &Image,
    slots: &ImportAddresses,
    memory: &mut Memory,
) -> Result<(), OutOfMemory>
    requires slots { length slots.now ≡ length image.now.imports }
    requires empty { memory.old ≡ map.empty }
    ensures { OnOk result ((a : ℕ) → map.get memory.new a ≡ image_cells image.now image_base slots.now a) }
{
    image.bounds();
    image_lies_in_its_size();
    match image.map(alloc, IMAGE_BASE, slots, memory) {
        Ok(()) => Ok(()),
        Err(RegionRefusal::OutOfMemory) => Err(OutOfMemory),
        Err(RegionRefusal::High) => unreachable!(),
        Err(RegionRefusal::Overlaps(_)) => unreachable!(),
    }
}

/// The memory that the driver begins in: the image, and the regions beside it.
fn start_memory(
    alloc: Global,
    image: &Image,
    slots: &ImportAddresses,
) -> Result<Memory, OutOfMemory>
    requires { length slots.now ≡ length image.now.imports }
    ensures { IfOk result (λ memory. (layout : List ℕ) → memory ≡ start_space image.now slots.now layout []) }
{
    image.bounds();
    image_lies_in_its_size();
    look_up_laws();
    regions_are_blank();
    let mut memory = Memory::new(alloc);
    map_image(alloc, image, slots, &mut memory)?;
    map_regions(alloc, &mut memory)?;
    Ok(memory)
}

/// Writes words from `at` on, each in four bytes, the lowest first.
fn put_words(memory: &mut Memory, at: u32, words: &[u32])
    requires room { at + 4 * length words.now ≤ 0xF0000000 }
    requires mapped { first_fault Any (map.get memory.old) at (4 * length words.now) ≡ None }
    ensures { memory.new ≡ put_from memory.old at (flat_map (to_le_bytes w32) words.now) }
{
    fault_laws();
    write_laws();
    let mut next = at;
    for word in words {
        match memory.place(Addr(next), &word.to_le_bytes()) {
            Ok(()) => next += 4,
            Err(_) => unreachable!(),
        }
    }
}

/// The stack pointer that DriverEntry begins with: there stand the address that it returns to, and
/// its two words.
fn stack_pointer() -> u32
    ensures { result ≡ stack_pointer 0 driver_entry_words }
{
    let stack = stack(CONTEXT);
    stack.first.0 + (stack.length - 12)
}

/// The memory that DriverEntry begins in, where no adapter is there: the image with the address of
/// each of its imports, the regions, and DriverEntry's stack.
///
/// # Errors
/// [`OutOfMemory`] where no memory is left.
pub fn entered_memory(
    alloc: Global,
    image: &Image,
    slots: &ImportAddresses,
) -> Result<Memory, OutOfMemory>
    requires { length slots.now ≡ length image.now.imports }
    ensures { IfOk result (λ memory. (layout : List ℕ) → memory ≡ entered_memory (start_space image.now slots.now layout []) 0 driver_entry_words []) }
{
    image.bounds();
    image_lies_in_its_size();
    fault_laws();
    look_up_laws();
    places_lie_in_regions();
    regions_are_blank();
    write_laws();
    let mut memory = start_memory(alloc, image, slots)?;
    let [driver, registry] = DRIVER_ENTRY_WORDS;
    let words = [slot_address(Slot::Leave).0, driver, registry];
    put_words(&mut memory, stack_pointer(), &words);
    Ok(memory)
}

/// The registers that DriverEntry begins with.
pub fn entered_registers(image: &Image) -> Regs
    ensures { result ≡ entered_registers (stack_pointer 0 driver_entry_words) (entry_point image.now) }
{
    image.bounds();
    let mut regs = Regs::new();
    regs.general[ESP] = stack_pointer();
    regs.eip = IMAGE_BASE.0 + image.entry();
    regs
}
