//! The guest's memory map: which addresses hold the image, the pool, the stacks and answer areas of
//! contexts, send slots, request buffers and adapter blocks, and which numbers stand for imports
//! and handles. (The project's own: docs/MEMORY.md.)
#![tactic(auto)]

mod handles;
mod map_laws;
mod mapping;
mod regions;
mod slots;

pub use handles::{
    DRIVER_OBJECT, REGISTRY_PATH, WRAPPER, configuration_context, configuration_handle, pool_handle,
};
pub use map_laws::{
    constants_are_the_map, handles_are_opaque, places_are_apart, places_lie_in_regions,
    regions_are_apart, regions_are_blank, slots_are_high,
};
pub use mapping::map_regions;
pub use regions::{
    ADAPTER_BLOCKS, ADAPTERS, CONTEXTS, DRIVERS, IMAGE_BASE, IMAGE_SPACE, POOL, REGIONS,
    REQUEST_BUFFERS, Region, SEND_SLOTS, adapter_block, answer_area, request_buffer, request_bytes,
    request_count, request_needed, send_buffer, send_bytes, send_packet, send_slot, stack,
};
pub use slots::{IMPORTS, slot_address, slot_at};
