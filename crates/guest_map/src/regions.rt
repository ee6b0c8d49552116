//! The regions of guest memory, and the places in them.

ghost use Rattle.std.specs.Prelude.{◌≡◌, ◌<◌};
ghost use Rattle.guest_map.specs.Regions as regions;

use nd_base::{AdapterNo, Addr, BindingNo, CtxNo};

/// A range of guest memory.
#[derive(Clone, Copy, Debug, PartialEq, Eq)]
pub struct Region {
    pub first: Addr,
    pub length: u32,
}

/// How many contexts there are: each has a stack and an answer area.
pub const CONTEXTS: u8 = 16;

/// How many protocol drivers there are at most: each has 256 send slots.
pub const DRIVERS: u8 = 8;

/// How many adapters there are at most: each has a request buffer and a block.
pub const ADAPTERS: u8 = 4;

/// Where the image is mapped.
pub const IMAGE_BASE: Addr = Addr(0x8010_0000);

/// The addresses that an image may take.
pub const IMAGE_SPACE: Region = Region {
    first: IMAGE_BASE,
    length: 0x40_0000,
};

/// The guest pool, of blocks and descriptors.
pub const POOL: Region = Region {
    first: Addr(0x8100_0000),
    length: 0x80_0000,
};

/// The send slots of all drivers.
pub const SEND_SLOTS: Region = Region {
    first: Addr(0x8300_0000),
    length: 0x40_0000,
};

/// The request buffers of all adapters.
pub const REQUEST_BUFFERS: Region = Region {
    first: Addr(0x8400_0000),
    length: 0x8000,
};

/// The blocks of all adapters.
pub const ADAPTER_BLOCKS: Region = Region {
    first: Addr(0x8500_0000),
    length: 0x4000,
};

macro_rules! stack {
    ($context:expr) => {
        Region {
            first: Addr(0x8200_0000 + $context * 0x1_0000),
            length: 0x4000,
        }
    };
}

macro_rules! answer_area {
    ($context:expr) => {
        Region {
            first: Addr(0x8200_8000 + $context * 0x1_0000),
            length: 0x2000,
        }
    };
}

/// All regions beside the image, in rising order. They begin with zeros, and may be read and
/// written.
pub const REGIONS: [Region; 36] = [
    POOL,
    stack!(0),
    answer_area!(0),
    stack!(1),
    answer_area!(1),
    stack!(2),
    answer_area!(2),
    stack!(3),
    answer_area!(3),
    stack!(4),
    answer_area!(4),
    stack!(5),
    answer_area!(5),
    stack!(6),
    answer_area!(6),
    stack!(7),
    answer_area!(7),
    stack!(8),
    answer_area!(8),
    stack!(9),
    answer_area!(9),
    stack!(10),
    answer_area!(10),
    stack!(11),
    answer_area!(11),
    stack!(12),
    answer_area!(12),
    stack!(13),
    answer_area!(13),
    stack!(14),
    answer_area!(14),
    stack!(15),
    answer_area!(15),
    SEND_SLOTS,
    REQUEST_BUFFERS,
    ADAPTER_BLOCKS,
];

/// The stack of a context.
pub fn stack(context: CtxNo) -> Region
    requires { context.0 < CONTEXTS }
    ensures { result ≡ regions.stack context.0 }
{
    stack!(u32::from(context.0))
}

/// Where the answer places and arrays of a context's handler stand.
pub fn answer_area(context: CtxNo) -> Region
    requires { context.0 < CONTEXTS }
    ensures { result ≡ regions.answer_area context.0 }
{
    answer_area!(u32::from(context.0))
}

/// A send slot of a driver: its packet, its buffer and its bytes.
pub fn send_slot(driver: BindingNo, slot: u8) -> Region
    requires { driver.0 < DRIVERS }
    ensures { result ≡ regions.send_slot driver.0 slot }
{
    let slots_of_driver = SEND_SLOTS.first.0 + u32::from(driver.0) * 0x8_0000;
    Region {
        first: Addr(slots_of_driver + u32::from(slot) * 0x800),
        length: 0x800,
    }
}

/// The packet descriptor of a send slot.
pub fn send_packet(driver: BindingNo, slot: u8) -> Region
    requires { driver.0 < DRIVERS }
    ensures { result ≡ regions.send_packet driver.0 slot }
{
    Region {
        first: send_slot(driver, slot).first,
        length: 128,
    }
}

/// The buffer descriptor of a send slot.
pub fn send_buffer(driver: BindingNo, slot: u8) -> Region
    requires { driver.0 < DRIVERS }
    ensures { result ≡ regions.send_buffer driver.0 slot }
{
    Region {
        first: Addr(send_slot(driver, slot).first.0 + 128),
        length: 32,
    }
}

/// Where the bytes of a send slot's packet stand.
pub fn send_bytes(driver: BindingNo, slot: u8) -> Region
    requires { driver.0 < DRIVERS }
    ensures { result ≡ regions.send_bytes driver.0 slot }
{
    Region {
        first: Addr(send_slot(driver, slot).first.0 + 512),
        length: 1536,
    }
}

/// The request buffer of an adapter.
pub fn request_buffer(adapter: AdapterNo) -> Region
    requires { adapter.0 < ADAPTERS }
    ensures { result ≡ regions.request_buffer adapter.0 }
{
    Region {
        first: Addr(REQUEST_BUFFERS.first.0 + u32::from(adapter.0) * 0x2000),
        length: 0x2000,
    }
}

/// Where the bytes of a request stand.
pub fn request_bytes(adapter: AdapterNo) -> Region
    requires { adapter.0 < ADAPTERS }
    ensures { result ≡ regions.request_bytes adapter.0 }
{
    Region {
        first: request_buffer(adapter).first,
        length: 0x1000,
    }
}

/// Where a request is answered how many bytes were written or read.
pub fn request_count(adapter: AdapterNo) -> Region
    requires { adapter.0 < ADAPTERS }
    ensures { result ≡ regions.request_count adapter.0 }
{
    Region {
        first: Addr(request_buffer(adapter).first.0 + 0x1000),
        length: 4,
    }
}

/// Where a request is answered how many bytes are needed.
pub fn request_needed(adapter: AdapterNo) -> Region
    requires { adapter.0 < ADAPTERS }
    ensures { result ≡ regions.request_needed adapter.0 }
{
    Region {
        first: Addr(request_buffer(adapter).first.0 + 0x1004),
        length: 4,
    }
}

/// The block of an adapter. Its first address is the adapter's handle.
pub fn adapter_block(adapter: AdapterNo) -> Region
    requires { adapter.0 < ADAPTERS }
    ensures { result ≡ regions.adapter_block adapter.0 }
{
    Region {
        first: Addr(ADAPTER_BLOCKS.first.0 + u32::from(adapter.0) * 0x1000),
        length: 0x1000,
    }
}
