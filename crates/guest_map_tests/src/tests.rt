ghost use Rattle.std.specs.Prelude.{◌≡◌, ◌≤◌};
ghost use Rattle.std.specs.FinMap as map;

use guest_map::{
    ADAPTER_BLOCKS, DRIVER_OBJECT, IMAGE_SPACE, POOL, REGIONS, REGISTRY_PATH, REQUEST_BUFFERS,
    Region, SEND_SLOTS, WRAPPER, adapter_block, answer_area, configuration_context,
    configuration_handle, map_regions, pool_handle, request_buffer, request_bytes, request_count,
    request_needed, send_buffer, send_bytes, send_packet, send_slot, slot_address, slot_at, stack,
};
use nd_base::{AdapterNo, Addr, BindingNo, CtxNo, Slot};
use nd_mem::{MemFault, Memory, Rights};
use std::alloc::Global;

const READ_ONLY: Rights = Rights {
    read: true,
    write: false,
    execute: false,
};

/// Whether a region begins and ends there.
fn spans(region: Region, first: u32, past: u32) -> bool {
    region.first == Addr(first) && past.checked_sub(first) == Some(region.length)
}

/// Adds all regions and the addresses of the largest image.
fn starts(alloc: Global, memory: &mut Memory) -> bool
    requires { memory.old ≡ map.empty }
{
    map_regions(alloc, memory).is_ok()
        && memory
            .add_region(alloc, IMAGE_SPACE.first, IMAGE_SPACE.length, READ_ONLY)
            .is_ok()
}

/// Whether four bytes can be written there.
fn writes(memory: &mut Memory, at: u32) -> bool {
    memory.write(Addr(at), &[1, 2, 3, 4]).is_ok()
}

/// The fault of a write of four bytes.
fn fault(memory: &mut Memory, at: u32) -> Option<MemFault> {
    memory.write(Addr(at), &[1, 2, 3, 4]).err()
}

/// Whether a write goes up to an address and no further.
fn ends(memory: &mut Memory, past: u32) -> bool
    requires { 4 ≤ past }
{
    writes(memory, past - 4) && fault(memory, past - 3) == Some(MemFault::Unmapped(Addr(past)))
}

#[test]
fn the_last_of_each_kind_stands_where_the_table_says(rt: HostRuntime) {
    let last = spans(POOL, 0x8100_0000, 0x8180_0000)
        && spans(stack(CtxNo(15)), 0x820F_0000, 0x820F_4000)
        && spans(answer_area(CtxNo(15)), 0x820F_8000, 0x820F_A000)
        && spans(send_slot(BindingNo(7), 255), 0x833F_F800, 0x8340_0000)
        && spans(request_buffer(AdapterNo(3)), 0x8400_6000, 0x8400_8000)
        && spans(adapter_block(AdapterNo(3)), 0x8500_3000, 0x8500_4000);
    assert!(rt; last);
}

#[test]
fn parts_stand_where_the_table_says(rt: HostRuntime) {
    let parts = spans(send_packet(BindingNo(1), 2), 0x8308_1000, 0x8308_1080)
        && spans(send_buffer(BindingNo(1), 2), 0x8308_1080, 0x8308_10A0)
        && spans(send_bytes(BindingNo(1), 2), 0x8308_1200, 0x8308_1800)
        && spans(request_bytes(AdapterNo(1)), 0x8400_2000, 0x8400_3000)
        && spans(request_count(AdapterNo(1)), 0x8400_3000, 0x8400_3004)
        && spans(request_needed(AdapterNo(1)), 0x8400_3004, 0x8400_3008);
    assert!(rt; parts);
}

#[test]
fn the_shared_regions_hold_the_last_of_their_kind(rt: HostRuntime) {
    let shared = spans(SEND_SLOTS, 0x8300_0000, 0x8340_0000)
        && spans(REQUEST_BUFFERS, 0x8400_0000, 0x8400_8000)
        && spans(ADAPTER_BLOCKS, 0x8500_0000, 0x8500_4000)
        && spans(REGIONS[35], 0x8500_0000, 0x8500_4000);
    assert!(rt; shared);
}

#[test]
fn slots_and_handles_have_their_numbers(rt: HostRuntime) {
    let numbers = slot_address(Slot::Import(1)) == Addr(0xF000_0000)
        && slot_address(Slot::Import(64)) == Addr(0xF000_03F0)
        && slot_at(Addr(0xF000_03F0)) == Some(Slot::Import(64))
        && slot_at(Addr(0xF000_1000)) == Some(Slot::Leave)
        && slot_at(Addr(0xF000_0400)).is_none()
        && slot_at(Addr(0xF000_0008)).is_none();
    assert!(rt; numbers);
    let handles = (DRIVER_OBJECT, REGISTRY_PATH, WRAPPER) == (0xE000_0000, 0xE000_0008, 0xE000_0010)
        && configuration_context(AdapterNo(3)) == 0xE000_1003
        && configuration_handle(AdapterNo(3)) == 0xE000_2003
        && pool_handle(5) == 0xE001_0005;
    assert!(rt; handles);
}

#[test]
fn all_regions_are_added_behind_the_largest_image(rt: HostRuntime) {
    let mut memory = Memory::new(rt.alloc());
    let mapped = starts(rt.alloc(), &mut memory)
        && fault(&mut memory, 0x804F_FFFC) == Some(MemFault::NotWritable(Addr(0x804F_FFFC)))
        && ends(&mut memory, 0x8180_0000)
        && ends(&mut memory, 0x8200_4000)
        && ends(&mut memory, 0x820F_A000)
        && ends(&mut memory, 0x8340_0000)
        && ends(&mut memory, 0x8400_8000)
        && ends(&mut memory, 0x8500_4000);
    assert!(rt; mapped);
}
