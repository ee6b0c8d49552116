//! NDIS_STATUS values of ndis.h.

pub const SUCCESS: u32 = 0;

pub const FAILURE: u32 = 0xC000_0001;

pub const RESOURCES: u32 = 0xC000_009A;

pub const BAD_VERSION: u32 = 0xC001_0004;

pub const BAD_CHARACTERISTICS: u32 = 0xC001_0005;
