//! Numbers with a meaning of their own, each a newtype so that no two are mixed up.

/// A guest address: one byte of the flat 32-bit address space.
#[derive(Clone, Copy, Debug, PartialEq, Eq, PartialOrd, Ord, Hash)]
pub struct Addr(pub u32);

/// An NDIS_STATUS, as the DDK's ndis.h numbers them.
#[derive(Clone, Copy, Debug, PartialEq, Eq, PartialOrd, Ord, Hash)]
pub struct Status(pub u32);

/// An adapter's number, from 0 in the order of the script.
#[derive(Clone, Copy, Debug, PartialEq, Eq, PartialOrd, Ord, Hash)]
pub struct AdapterNo(pub u8);

/// The number of a protocol driver and of its binding, from 0 in the order of the script.
#[derive(Clone, Copy, Debug, PartialEq, Eq, PartialOrd, Ord, Hash)]
pub struct BindingNo(pub u8);

/// The number of a context: one activity of guest code, with registers and a stack of its own.
#[derive(Clone, Copy, Debug, PartialEq, Eq, PartialOrd, Ord, Hash)]
pub struct CtxNo(pub u8);

/// The number of a sent packet, from 0 over the whole run.
#[derive(Clone, Copy, Debug, PartialEq, Eq, PartialOrd, Ord, Hash)]
pub struct PacketNo(pub u64);

/// The number of an indicated packet's loan, from 0 over the whole run.
#[derive(Clone, Copy, Debug, PartialEq, Eq, PartialOrd, Ord, Hash)]
pub struct LoanNo(pub u64);

/// The number of an OID request, from 0 over the whole run.
#[derive(Clone, Copy, Debug, PartialEq, Eq, PartialOrd, Ord, Hash)]
pub struct RequestNo(pub u64);

/// The number of a rule that a driver broke.
#[derive(Clone, Copy, Debug, PartialEq, Eq, PartialOrd, Ord, Hash)]
pub struct Breach(pub u8);

/// Where an adapter stands between its initialize and its end.
#[derive(Clone, Copy, Debug, PartialEq, Eq, PartialOrd, Ord, Hash)]
pub enum Phase {
    Starting,
    Running,
    Resetting,
    Halting,
    Off,
    Stopped,
}

/// An address that no memory holds and that the library serves in place of code: that of an
/// import, numbered from 1, or the one that a handler returns to.
#[derive(Clone, Copy, Debug, PartialEq, Eq, PartialOrd, Ord, Hash)]
pub enum Slot {
    Import(u8),
    Leave,
}
