//! NDIS_STATUS values of ndis.h that a verdict is drawn by.

pub(crate) const SUCCESS: u32 = 0;

pub(crate) const PENDING: u32 = 0x103;

pub(crate) const RESOURCES: u32 = 0xC000_009A;
