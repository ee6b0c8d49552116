//! The names in a log.

ghost use Rattle.std.specs.Prelude.{◌≡◌, ◌≤◌, ◌<◌, length};
ghost use Rattle.log_fields.specs.Codes.{find, before_end, from_end};
ghost use Rattle.log_fields.specs.Names.{handler_name, handlers_all, fault_name, faults_all, import_name, imports_all, cause_name, causes_all, what_name, whats_all, NamesAreFound};

use crate::field_values::{FaultKind, Handler};

/// What a stop's cause begins with.
#[derive(Clone, Copy, PartialEq, Eq)]
pub enum CauseKind {
    Breach,
    Budget,
    Memory,
}

/// What an await's condition begins with.
#[derive(Clone, Copy, PartialEq, Eq)]
pub enum ConditionKind {
    Up,
    Sent,
    Replies,
    Frames,
    Room,
    All,
}

/// All handlers, in the order of `Handler`.
pub static HANDLERS: [Handler; 20] = [
    Handler::DriverEntry,
    Handler::Initialize,
    Handler::Halt,
    Handler::Reset,
    Handler::CheckForHang,
    Handler::Isr,
    Handler::DisableInterrupt,
    Handler::EnableInterrupt,
    Handler::HandleInterrupt,
    Handler::Timer,
    Handler::Sync,
    Handler::Send,
    Handler::SendPackets,
    Handler::ReturnPacket,
    Handler::Query,
    Handler::Set,
    Handler::TransferData,
    Handler::CancelSend,
    Handler::PnpEvent,
    Handler::Shutdown,
];

/// A handler's name.
#[tactic(auto, unfolding(crate::specs::Names::handler_name))]
pub fn handler_name(handler: Handler) -> &'static str
    ensures { result.now ≡ handler_name handler }
{
    match handler {
        Handler::DriverEntry => "driverentry",
        Handler::Initialize => "initialize",
        Handler::Halt => "halt",
        Handler::Reset => "reset",
        Handler::CheckForHang => "checkforhang",
        Handler::Isr => "isr",
        Handler::DisableInterrupt => "disableinterrupt",
        Handler::EnableInterrupt => "enableinterrupt",
        Handler::HandleInterrupt => "handleinterrupt",
        Handler::Timer => "timer",
        Handler::Sync => "sync",
        Handler::Send => "send",
        Handler::SendPackets => "sendpackets",
        Handler::ReturnPacket => "returnpacket",
        Handler::Query => "query",
        Handler::Set => "set",
        Handler::TransferData => "transferdata",
        Handler::CancelSend => "cancelsend",
        Handler::PnpEvent => "pnpevent",
        Handler::Shutdown => "shutdown",
    }
}

/// All handlers.
#[tactic(auto, unfolding(crate::specs::Names::handlers_all))]
fn handlers_all() -> &'static [Handler]
    ensures { result.now ≡ handlers_all }
{
    &HANDLERS
}

/// The one of these with this name.
fn find_handler_in(all: &[Handler], name: &[u8]) -> Option<Handler>
    ensures { result ≡ find handler_name all.now name.now }
{
    for item in all {
        if handler_name(*item).as_bytes() == name {
            return Some(*item);
        }
    }
    None
}

/// The one with this name.
pub fn find_handler(name: &[u8]) -> Option<Handler>
    ensures { result ≡ find handler_name handlers_all name.now }
{
    find_handler_in(handlers_all(), name)
}

/// All kinds of faults.
pub static FAULTS: [FaultKind; 6] = [
    FaultKind::Divide,
    FaultKind::Outside,
    FaultKind::Unmapped,
    FaultKind::NotReadable,
    FaultKind::NotWritable,
    FaultKind::NotExecutable,
];

/// The name of a kind of fault.
#[tactic(auto, unfolding(crate::specs::Names::fault_name))]
pub fn fault_name(fault: FaultKind) -> &'static str
    ensures { result.now ≡ fault_name fault }
{
    match fault {
        FaultKind::Divide => "divide",
        FaultKind::Outside => "outside",
        FaultKind::Unmapped => "unmapped",
        FaultKind::NotReadable => "notreadable",
        FaultKind::NotWritable => "notwritable",
        FaultKind::NotExecutable => "notexecutable",
    }
}

/// All kinds of faults.
#[tactic(auto, unfolding(crate::specs::Names::faults_all))]
fn faults_all() -> &'static [FaultKind]
    ensures { result.now ≡ faults_all }
{
    &FAULTS
}

/// The one of these with this name.
fn find_fault_in(all: &[FaultKind], name: &[u8]) -> Option<FaultKind>
    ensures { result ≡ find fault_name all.now name.now }
{
    for item in all {
        if fault_name(*item).as_bytes() == name {
            return Some(*item);
        }
    }
    None
}

/// The one with this name.
pub fn find_fault(name: &[u8]) -> Option<FaultKind>
    ensures { result ≡ find fault_name faults_all name.now }
{
    find_fault_in(faults_all(), name)
}

/// The name of import n, 1 to 64, as the image spells it.
#[tactic(auto, unfolding(crate::specs::Names::import_name, crate::specs::Names::import_names))]
pub fn import_name(n: u8) -> &'static str
    requires { (1 ≤ n) × (n ≤ 64) }
    ensures { result.now ≡ import_name n }
{
    match n {
        1 => "NdisInitializeWrapper",
        2 => "NdisTerminateWrapper",
        3 => "NdisMRegisterMiniport",
        4 => "KfRaiseIrql",
        5 => "KfLowerIrql",
        6 => "NdisMSetAttributesEx",
        7 => "NdisOpenConfiguration",
        8 => "NdisReadConfiguration",
        9 => "NdisCloseConfiguration",
        10 => "NdisReadNetworkAddress",
        11 => "NdisMRegisterIoPortRange",
        12 => "NdisMDeregisterIoPortRange",
        13 => "NdisMRegisterInterrupt",
        14 => "NdisMDeregisterInterrupt",
        15 => "NdisMSynchronizeWithInterrupt",
        16 => "NdisMInitializeTimer",
        17 => "NdisSetTimer",
        18 => "NdisMSetPeriodicTimer",
        19 => "NdisMCancelTimer",
        20 => "NdisMSleep",
        21 => "NdisAllocateMemoryWithTag",
        22 => "NdisFreeMemory",
        23 => "NdisAllocatePacketPool",
        24 => "NdisFreePacketPool",
        25 => "NdisAllocatePacket",
        26 => "NdisFreePacket",
        27 => "NdisAllocateBufferPool",
        28 => "NdisFreeBufferPool",
        29 => "NdisAllocateBuffer",
        30 => "NdisFreeBuffer",
        31 => "NdisUnchainBufferAtFront",
        32 => "NdisQueryBuffer",
        33 => "NdisAllocateSpinLock",
        34 => "NdisFreeSpinLock",
        35 => "NdisAcquireSpinLock",
        36 => "NdisReleaseSpinLock",
        37 => "NdisDprAcquireSpinLock",
        38 => "NdisDprReleaseSpinLock",
        39 => "NdisMSendComplete",
        40 => "NdisMSendResourcesAvailable",
        41 => "NdisMIndicateReceivePacket",
        42 => "NdisMResetComplete",
        43 => "NdisMQueryInformationComplete",
        44 => "NdisMSetInformationComplete",
        45 => "NdisMIndicateStatus",
        46 => "NdisMIndicateStatusComplete",
        47 => "EthFilterDprIndicateReceive",
        48 => "EthFilterDprIndicateReceiveComplete",
        49 => "NdisReadPciSlotInformation",
        50 => "NdisWriteErrorLogEntry",
        51 => "NdisMQueryAdapterResources",
        52 => "NdisGetFirstBufferFromPacket",
        53 => "READ_PORT_UCHAR",
        54 => "READ_PORT_USHORT",
        55 => "WRITE_PORT_UCHAR",
        56 => "WRITE_PORT_USHORT",
        57 => "READ_PORT_BUFFER_UCHAR",
        58 => "READ_PORT_BUFFER_USHORT",
        59 => "WRITE_PORT_BUFFER_UCHAR",
        60 => "WRITE_PORT_BUFFER_USHORT",
        61 => "KeStallExecutionProcessor",
        62 => "memcpy",
        63 => "memset",
        _ => "DbgPrint",
    }
}

/// The one with this name.
pub fn find_import(name: &[u8]) -> Option<u8>
    ensures { result ≡ find import_name imports_all name.now }
{
    for n in 1..65_u8 {
        if import_name(n).as_bytes() == name {
            return Some(n);
        }
    }
    None
}

/// What all causes begin with.
pub static CAUSES: [CauseKind; 3] = [CauseKind::Breach, CauseKind::Budget, CauseKind::Memory];

/// What a cause begins with, as text.
#[tactic(auto, unfolding(crate::specs::Names::cause_name))]
pub fn cause_name(cause: CauseKind) -> &'static str
    ensures { result.now ≡ cause_name cause }
{
    match cause {
        CauseKind::Breach => "breach",
        CauseKind::Budget => "budget",
        CauseKind::Memory => "memory",
    }
}

/// What all causes begin with.
#[tactic(auto, unfolding(crate::specs::Names::causes_all))]
fn causes_all() -> &'static [CauseKind]
    ensures { result.now ≡ causes_all }
{
    &CAUSES
}

/// The one of these with this name.
fn find_cause_in(all: &[CauseKind], name: &[u8]) -> Option<CauseKind>
    ensures { result ≡ find cause_name all.now name.now }
{
    for item in all {
        if cause_name(*item).as_bytes() == name {
            return Some(*item);
        }
    }
    None
}

/// The one with this name.
pub fn find_cause(name: &[u8]) -> Option<CauseKind>
    ensures { result ≡ find cause_name causes_all name.now }
{
    find_cause_in(causes_all(), name)
}

/// What all conditions begin with.
pub static WHATS: [ConditionKind; 6] = [
    ConditionKind::Up,
    ConditionKind::Sent,
    ConditionKind::Replies,
    ConditionKind::Frames,
    ConditionKind::Room,
    ConditionKind::All,
];

/// What a condition begins with, as text.
#[tactic(auto, unfolding(crate::specs::Names::what_name))]
pub fn what_name(what: ConditionKind) -> &'static str
    ensures { result.now ≡ what_name what }
{
    match what {
        ConditionKind::Up => "up",
        ConditionKind::Sent => "sent",
        ConditionKind::Replies => "replies",
        ConditionKind::Frames => "frames",
        ConditionKind::Room => "room",
        ConditionKind::All => "all",
    }
}

/// What all conditions begin with.
#[tactic(auto, unfolding(crate::specs::Names::whats_all))]
fn whats_all() -> &'static [ConditionKind]
    ensures { result.now ≡ whats_all }
{
    &WHATS
}

/// The one of these with this name.
fn find_what_in(all: &[ConditionKind], name: &[u8]) -> Option<ConditionKind>
    ensures { result ≡ find what_name all.now name.now }
{
    for item in all {
        if what_name(*item).as_bytes() == name {
            return Some(*item);
        }
    }
    None
}

/// The one with this name.
pub fn find_what(name: &[u8]) -> Option<ConditionKind>
    ensures { result ≡ find what_name whats_all name.now }
{
    find_what_in(whats_all(), name)
}

/// Each handler, fault, cause, condition and import is found by its name.
#[tactic(auto, using(crate::specs::NameLaws::names_found))]
pub fn names_are_found()
    ensures { NamesAreFound }
{}
