//! What the owner machine keeps of each packet, loan, request, adapter, driver and context.
//!
//! The numbers of the rows are their places in the lists; phases and handlers are the DDK's.

use crate::waiting::{CancelIds, Events};
use call_log::{Handler, Question};
use nd_base::{AdapterNo, BindingNo, Bytes, LoanNo, PacketNo, Phase, RequestNo};

/// Where a packet is. `Refused`: sent to an adapter that does not run, so that its completion stands
/// next.
#[derive(Clone, Copy)]
pub enum Place {
    Queue,
    Miniport,
    Done,
    Aborted,
    Refused,
}

/// A packet that was sent.
#[derive(Clone, Copy)]
pub struct Packet {
    pub driver: BindingNo,
    pub adapter: AdapterNo,
    pub place: Place,
    /// Its cancel id, 0 for none.
    pub id: u32,
    /// The number of the enter that it was handed by last.
    pub hand: u64,
}

/// Where a loan is: with its holders, on its way to the miniport, or back.
#[derive(Clone, Copy)]
pub enum LoanPlace {
    Out,
    Due,
    Home,
}

/// A packet that a miniport indicated.
#[derive(Clone, Copy)]
pub struct Loan {
    pub adapter: AdapterNo,
    /// Of each driver, whether it holds the loan still.
    pub holders: [bool; 8],
    pub place: LoanPlace,
}

/// Where a request is. `Refused`: asked where it can't be, so that its answer stands next.
#[derive(Clone, Copy)]
pub enum RequestPlace {
    Asked,
    Handed,
    Answered,
    Refused,
}

/// An OID request.
#[derive(Drop)]
pub struct Request {
    pub driver: BindingNo,
    pub adapter: AdapterNo,
    pub question: Question,
    pub place: RequestPlace,
    /// The number of the enter that it was handed by.
    pub hand: u64,
}

/// An adapter.
#[derive(Drop)]
pub struct Adapter {
    pub phase: Phase,
    /// Its attributes have NDIS_ATTRIBUTE_DESERIALIZE.
    pub deserialized: bool,
    /// No packet is handed until its miniport has resources again.
    pub held_back: bool,
    pub owes_reset: bool,
    /// The cancel ids that wait for its MiniportCancelSendPackets.
    pub cancels: CancelIds,
    /// The events that wait for its MiniportPnPEventNotify.
    pub events: Events,
}

/// Whether a driver is bound, was not bound yet, or has been.
#[derive(Clone, Copy)]
pub enum Binding {
    Unbound,
    Bound,
    HasBeen,
}

/// A protocol driver.
#[derive(Drop)]
pub struct Driver {
    /// The adapter that it binds to.
    pub adapter: AdapterNo,
    pub binding: Binding,
    /// Its OID_GEN_CURRENT_PACKET_FILTER.
    pub filter: u32,
    /// Its OID_802_3_MULTICAST_LIST, six bytes an address.
    pub list: Bytes,
}

/// The open call of a context.
#[derive(Clone, Copy)]
pub struct OpenCall {
    /// The number of the import.
    pub import: u8,
    /// The fourth argument word, which is the attributes' flags of NdisMSetAttributesEx.
    pub flags: u32,
    /// The number of the enter of the MiniportTransferData that it waits for.
    pub transfer: Option<u64>,
}

/// A context: free, or its open handler with the number of its enter, and its open call.
#[derive(Clone, Copy)]
pub enum Context {
    Free,
    Open {
        adapter: Option<AdapterNo>,
        handler: Handler,
        enter: u64,
        call: Option<OpenCall>,
    },
}

/// What stood directly before, as far as it says what may or must stand next.
#[derive(Clone, Copy)]
pub enum Next {
    /// It says nothing.
    Free,
    /// The packet was sent: its tag may stand, and its refusal must.
    Sent {
        packet: PacketNo,
    },
    /// The packet was tagged: its refusal must stand.
    Tagged {
        packet: PacketNo,
    },
    /// The request was asked: its refusal must stand.
    Asked {
        request: RequestNo,
    },
    /// An adapter was stopped: its packets, loans and requests end, the least first.
    Tail {
        adapter: AdapterNo,
    },
    /// A reset ended: what the miniport holds is aborted, the least first.
    Aborting {
        adapter: AdapterNo,
    },
    /// A driver cancelled: its queued packets with that id end, the least first.
    Cancelling {
        driver: BindingNo,
        id: u32,
    },
    /// A send handler was entered: so many packets are still to be handed to it.
    Handing {
        adapter: AdapterNo,
        enter: u64,
        left: u32,
    },
    /// MiniportReturnPacket was entered: a loan that is due goes home.
    GoingHome {
        adapter: AdapterNo,
    },
    /// The handler of a query or set was entered: the least request is handed to it.
    HandingAsk {
        adapter: AdapterNo,
        enter: u64,
    },
    /// A reset began: its handler is entered.
    Resetting {
        adapter: AdapterNo,
    },
    /// A handler left: verdicts may stand on what it was handed, from this packet on.
    Left {
        adapter: AdapterNo,
        handler: Handler,
        enter: u64,
        from: u64,
    },
}
