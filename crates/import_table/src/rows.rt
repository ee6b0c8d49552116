//! The table of imports: a row for each function that a miniport image may import.

/// How a function takes its words, and who takes them off the stack (the calling conventions of
/// Microsoft's C compiler for x86).
#[derive(Clone, Copy, Debug, PartialEq, Eq)]
pub enum Convention {
    /// All on the stack, the first at the lowest address; the function takes them off.
    Stdcall,
    /// All on the stack, the first at the lowest address; the caller takes them off.
    Cdecl,
    /// The first in ECX and the second in EDX, the others as in `Stdcall`.
    Fastcall,
}

/// An import: how it is named, numbered and called, and the levels (IRQL) at which it may be called.
#[derive(Clone, Copy, Debug, PartialEq, Eq)]
pub struct ImportRow {
    /// The name, as an image spells it.
    pub name: &'static [u8],
    /// The number, from 1.
    pub import: u8,
    /// How many words it takes, each of four bytes: at most eight.
    pub words: u8,
    pub convention: Convention,
    /// The lowest level.
    pub low: u8,
    /// The highest level.
    pub high: u8,
}

/// At PASSIVE_LEVEL.
const PASSIVE: (u8, u8) = (0, 0);

/// At DISPATCH_LEVEL or below.
const UP_TO_DISPATCH: (u8, u8) = (0, 2);

/// At DISPATCH_LEVEL.
const AT_DISPATCH: (u8, u8) = (2, 2);

/// At the level of any device, a DIRQL, or below.
const UP_TO_DEVICE: (u8, u8) = (0, 26);

/// A row: number, name, words, convention, levels.
macro_rules! row {
    ($import:literal, $name:literal, $words:literal, $convention:ident, $levels:ident) => {
        ImportRow {
            name: $name,
            import: $import,
            words: $words,
            convention: Convention::$convention,
            low: $levels.0,
            high: $levels.1,
        }
    };
}

/// The imports, in the order of their numbers, by the groups of the DDK.
pub(crate) static IMPORTS: [ImportRow; 64] = [
    // The wrapper, and registration of a miniport (ndis.h)
    row!(1, b"NdisInitializeWrapper", 4, Stdcall, PASSIVE),
    row!(2, b"NdisTerminateWrapper", 2, Stdcall, PASSIVE),
    row!(3, b"NdisMRegisterMiniport", 3, Stdcall, PASSIVE),
    // Interrupt request levels (wdm.h; HAL)
    row!(4, b"KfRaiseIrql", 1, Fastcall, UP_TO_DEVICE),
    row!(5, b"KfLowerIrql", 1, Fastcall, UP_TO_DEVICE),
    // An adapter's attributes and its configuration (ndis.h)
    row!(6, b"NdisMSetAttributesEx", 5, Stdcall, PASSIVE),
    row!(7, b"NdisOpenConfiguration", 3, Stdcall, PASSIVE),
    row!(8, b"NdisReadConfiguration", 5, Stdcall, PASSIVE),
    row!(9, b"NdisCloseConfiguration", 1, Stdcall, PASSIVE),
    row!(10, b"NdisReadNetworkAddress", 4, Stdcall, PASSIVE),
    // Resources: ports and the interrupt (ndis.h)
    row!(11, b"NdisMRegisterIoPortRange", 4, Stdcall, PASSIVE),
    row!(12, b"NdisMDeregisterIoPortRange", 4, Stdcall, PASSIVE),
    row!(13, b"NdisMRegisterInterrupt", 7, Stdcall, PASSIVE),
    row!(14, b"NdisMDeregisterInterrupt", 1, Stdcall, PASSIVE),
    row!(
        15,
        b"NdisMSynchronizeWithInterrupt",
        3,
        Stdcall,
        UP_TO_DISPATCH
    ),
    // Timers, and waiting (ndis.h)
    row!(16, b"NdisMInitializeTimer", 4, Stdcall, UP_TO_DISPATCH),
    row!(17, b"NdisSetTimer", 2, Stdcall, UP_TO_DISPATCH),
    row!(18, b"NdisMSetPeriodicTimer", 2, Stdcall, UP_TO_DISPATCH),
    row!(19, b"NdisMCancelTimer", 2, Stdcall, UP_TO_DISPATCH),
    row!(20, b"NdisMSleep", 1, Stdcall, PASSIVE),
    // Memory (ndis.h)
    row!(21, b"NdisAllocateMemoryWithTag", 3, Stdcall, UP_TO_DISPATCH),
    row!(22, b"NdisFreeMemory", 3, Stdcall, UP_TO_DISPATCH),
    // Packets and buffers (ndis.h)
    row!(23, b"NdisAllocatePacketPool", 4, Stdcall, UP_TO_DISPATCH),
    row!(24, b"NdisFreePacketPool", 1, Stdcall, UP_TO_DISPATCH),
    row!(25, b"NdisAllocatePacket", 3, Stdcall, UP_TO_DISPATCH),
    row!(26, b"NdisFreePacket", 1, Stdcall, UP_TO_DISPATCH),
    row!(27, b"NdisAllocateBufferPool", 3, Stdcall, UP_TO_DISPATCH),
    row!(28, b"NdisFreeBufferPool", 1, Stdcall, UP_TO_DISPATCH),
    row!(29, b"NdisAllocateBuffer", 5, Stdcall, UP_TO_DISPATCH),
    row!(30, b"NdisFreeBuffer", 1, Stdcall, UP_TO_DISPATCH),
    row!(31, b"NdisUnchainBufferAtFront", 2, Stdcall, UP_TO_DISPATCH),
    row!(32, b"NdisQueryBuffer", 3, Stdcall, UP_TO_DISPATCH),
    // Spin locks (ndis.h)
    row!(33, b"NdisAllocateSpinLock", 1, Stdcall, UP_TO_DISPATCH),
    row!(34, b"NdisFreeSpinLock", 1, Stdcall, UP_TO_DISPATCH),
    row!(35, b"NdisAcquireSpinLock", 1, Stdcall, UP_TO_DISPATCH),
    row!(36, b"NdisReleaseSpinLock", 1, Stdcall, UP_TO_DISPATCH),
    row!(37, b"NdisDprAcquireSpinLock", 1, Stdcall, AT_DISPATCH),
    row!(38, b"NdisDprReleaseSpinLock", 1, Stdcall, AT_DISPATCH),
    // Completions and indications (ndis.h; the block's handlers)
    row!(39, b"NdisMSendComplete", 3, Stdcall, UP_TO_DISPATCH),
    row!(
        40,
        b"NdisMSendResourcesAvailable",
        1,
        Stdcall,
        UP_TO_DISPATCH
    ),
    row!(
        41,
        b"NdisMIndicateReceivePacket",
        3,
        Stdcall,
        UP_TO_DISPATCH
    ),
    row!(42, b"NdisMResetComplete", 3, Stdcall, UP_TO_DISPATCH),
    row!(
        43,
        b"NdisMQueryInformationComplete",
        2,
        Stdcall,
        UP_TO_DISPATCH
    ),
    row!(
        44,
        b"NdisMSetInformationComplete",
        2,
        Stdcall,
        UP_TO_DISPATCH
    ),
    row!(45, b"NdisMIndicateStatus", 4, Stdcall, UP_TO_DISPATCH),
    row!(
        46,
        b"NdisMIndicateStatusComplete",
        1,
        Stdcall,
        UP_TO_DISPATCH
    ),
    row!(
        47,
        b"EthFilterDprIndicateReceive",
        8,
        Stdcall,
        UP_TO_DISPATCH
    ),
    row!(
        48,
        b"EthFilterDprIndicateReceiveComplete",
        1,
        Stdcall,
        UP_TO_DISPATCH
    ),
    // The bus, the error log, and what else an adapter asks (ndis.h)
    row!(
        49,
        b"NdisReadPciSlotInformation",
        5,
        Stdcall,
        UP_TO_DISPATCH
    ),
    row!(50, b"NdisWriteErrorLogEntry", 3, Cdecl, UP_TO_DISPATCH),
    row!(51, b"NdisMQueryAdapterResources", 4, Stdcall, PASSIVE),
    row!(
        52,
        b"NdisGetFirstBufferFromPacket",
        5,
        Stdcall,
        UP_TO_DISPATCH
    ),
    // I/O ports (wdm.h; HAL)
    row!(53, b"READ_PORT_UCHAR", 1, Stdcall, UP_TO_DEVICE),
    row!(54, b"READ_PORT_USHORT", 1, Stdcall, UP_TO_DEVICE),
    row!(55, b"WRITE_PORT_UCHAR", 2, Stdcall, UP_TO_DEVICE),
    row!(56, b"WRITE_PORT_USHORT", 2, Stdcall, UP_TO_DEVICE),
    row!(57, b"READ_PORT_BUFFER_UCHAR", 3, Stdcall, UP_TO_DEVICE),
    row!(58, b"READ_PORT_BUFFER_USHORT", 3, Stdcall, UP_TO_DEVICE),
    row!(59, b"WRITE_PORT_BUFFER_UCHAR", 3, Stdcall, UP_TO_DEVICE),
    row!(60, b"WRITE_PORT_BUFFER_USHORT", 3, Stdcall, UP_TO_DEVICE),
    // The run-time (wdm.h, HAL; ntoskrnl)
    row!(61, b"KeStallExecutionProcessor", 1, Stdcall, UP_TO_DEVICE),
    row!(62, b"memcpy", 3, Cdecl, UP_TO_DEVICE),
    row!(63, b"memset", 3, Cdecl, UP_TO_DEVICE),
    row!(64, b"DbgPrint", 1, Cdecl, UP_TO_DEVICE),
];
