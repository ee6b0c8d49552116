//! What calls have in common.

/// NDIS_STATUS_PENDING.
pub(crate) const PENDING: u32 = 0x103;

/// The rule against a completion that is pending.
pub(crate) const PENDING_RULE: u8 = 10;
