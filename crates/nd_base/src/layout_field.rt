//! The fields of the library's objects: packets with their out-of-band part, buffers and blocks.

ghost use Rattle.std.specs.Prelude.{◌≡◌, ◌<◌, map};
ghost use Rattle.nd_base.specs.Layout.{limit, rows, row, seen, number, width_of};

/// A field of one of the library's objects.
#[derive(Clone, Copy, Debug, PartialEq, Eq)]
pub enum Field {
    /// `Private.PhysicalCount` of NDIS_PACKET.
    PacketPhysicalCount,
    /// `Private.TotalLength` of NDIS_PACKET.
    PacketTotalLength,
    /// `Private.Head` of NDIS_PACKET.
    PacketHead,
    /// `Private.Tail` of NDIS_PACKET.
    PacketTail,
    /// `Private.Pool` of NDIS_PACKET.
    PacketPool,
    /// `Private.Count` of NDIS_PACKET.
    PacketCount,
    /// `Private.Flags` of NDIS_PACKET.
    PacketFlags,
    /// `Private.ValidCounts` of NDIS_PACKET.
    PacketValidCounts,
    /// `Private.NdisPacketFlags` of NDIS_PACKET.
    PacketNdisFlags,
    /// `Private.NdisPacketOobOffset` of NDIS_PACKET.
    PacketOobOffset,
    /// `MiniportReserved` of NDIS_PACKET, with `WrapperReserved` behind it.
    PacketMiniportReserved,
    /// `HeaderSize` of NDIS_PACKET_OOB_DATA.
    OobHeaderSize,
    /// `Status` of NDIS_PACKET_OOB_DATA.
    OobStatus,
    /// `Next` of NDIS_BUFFER, which is an MDL.
    BufferNext,
    /// `Size` of NDIS_BUFFER.
    BufferSize,
    /// `MdlFlags` of NDIS_BUFFER.
    BufferFlags,
    /// `MappedSystemVa` of NDIS_BUFFER.
    BufferMapped,
    /// `StartVa` of NDIS_BUFFER.
    BufferStart,
    /// `ByteCount` of NDIS_BUFFER.
    BufferCount,
    /// `ByteOffset` of NDIS_BUFFER.
    BufferOffset,
    /// `PacketIndicateHandler` of NDIS_MINIPORT_BLOCK.
    BlockPacketIndicate,
    /// `SendCompleteHandler` of NDIS_MINIPORT_BLOCK.
    BlockSendComplete,
    /// `SendResourcesHandler` of NDIS_MINIPORT_BLOCK.
    BlockSendResources,
    /// `ResetCompleteHandler` of NDIS_MINIPORT_BLOCK.
    BlockResetComplete,
    /// `StatusHandler` of NDIS_MINIPORT_BLOCK.
    BlockStatus,
    /// `StatusCompleteHandler` of NDIS_MINIPORT_BLOCK.
    BlockStatusComplete,
    /// `QueryCompleteHandler` of NDIS_MINIPORT_BLOCK.
    BlockQueryComplete,
    /// `SetCompleteHandler` of NDIS_MINIPORT_BLOCK.
    BlockSetComplete,
    /// `EthRxIndicateHandler` of NDIS_MINIPORT_BLOCK.
    BlockEthIndicate,
    /// `EthRxCompleteHandler` of NDIS_MINIPORT_BLOCK.
    BlockEthComplete,
    /// `EthDB` of NDIS_MINIPORT_BLOCK.
    BlockEthDb,
}

/// An object that has fields.
#[derive(Clone, Copy, Debug, PartialEq, Eq)]
pub(crate) enum Object {
    /// A packet descriptor, NDIS_PACKET.
    Packet,
    /// A packet's out-of-band part, NDIS_PACKET_OOB_DATA.
    OutOfBand,
    /// A buffer descriptor, NDIS_BUFFER.
    Buffer,
    /// A miniport's block, NDIS_MINIPORT_BLOCK.
    Block,
}

impl Object {
    /// Where the fields end, in bytes from the object's start.
    pub(crate) fn limit(self) -> u32
        ensures { result ≡ limit self }
    {
        match self {
            Object::Packet => 72,
            Object::OutOfBand => 40,
            Object::Buffer => 32,
            Object::Block => 4096,
        }
    }
}

/// A field with its name in a layout file, its object, its usual offset and its width in bytes.
#[derive(Clone, Copy)]
pub(crate) struct Row {
    pub(crate) field: Field,
    pub(crate) name: &'static [u8],
    pub(crate) object: Object,
    pub(crate) offset: u32,
    pub(crate) width: u32,
}

/// How many fields there are.
pub(crate) const FIELDS: usize = 31;

const ROWS: [Row; FIELDS] = [
    Row {
        field: Field::PacketPhysicalCount,
        name: b"packet_physical_count",
        object: Object::Packet,
        offset: 0,
        width: 4,
    },
    Row {
        field: Field::PacketTotalLength,
        name: b"packet_total_length",
        object: Object::Packet,
        offset: 4,
        width: 4,
    },
    Row {
        field: Field::PacketHead,
        name: b"packet_head",
        object: Object::Packet,
        offset: 8,
        width: 4,
    },
    Row {
        field: Field::PacketTail,
        name: b"packet_tail",
        object: Object::Packet,
        offset: 12,
        width: 4,
    },
    Row {
        field: Field::PacketPool,
        name: b"packet_pool",
        object: Object::Packet,
        offset: 16,
        width: 4,
    },
    Row {
        field: Field::PacketCount,
        name: b"packet_count",
        object: Object::Packet,
        offset: 20,
        width: 4,
    },
    Row {
        field: Field::PacketFlags,
        name: b"packet_flags",
        object: Object::Packet,
        offset: 24,
        width: 4,
    },
    Row {
        field: Field::PacketValidCounts,
        name: b"packet_valid_counts",
        object: Object::Packet,
        offset: 28,
        width: 1,
    },
    Row {
        field: Field::PacketNdisFlags,
        name: b"packet_ndis_flags",
        object: Object::Packet,
        offset: 29,
        width: 1,
    },
    Row {
        field: Field::PacketOobOffset,
        name: b"packet_oob_offset",
        object: Object::Packet,
        offset: 30,
        width: 2,
    },
    Row {
        field: Field::PacketMiniportReserved,
        name: b"packet_miniport_reserved",
        object: Object::Packet,
        offset: 32,
        width: 16,
    },
    Row {
        field: Field::OobHeaderSize,
        name: b"oob_header_size",
        object: Object::OutOfBand,
        offset: 24,
        width: 4,
    },
    Row {
        field: Field::OobStatus,
        name: b"oob_status",
        object: Object::OutOfBand,
        offset: 36,
        width: 4,
    },
    Row {
        field: Field::BufferNext,
        name: b"buffer_next",
        object: Object::Buffer,
        offset: 0,
        width: 4,
    },
    Row {
        field: Field::BufferSize,
        name: b"buffer_size",
        object: Object::Buffer,
        offset: 4,
        width: 2,
    },
    Row {
        field: Field::BufferFlags,
        name: b"buffer_flags",
        object: Object::Buffer,
        offset: 6,
        width: 2,
    },
    Row {
        field: Field::BufferMapped,
        name: b"buffer_mapped",
        object: Object::Buffer,
        offset: 12,
        width: 4,
    },
    Row {
        field: Field::BufferStart,
        name: b"buffer_start",
        object: Object::Buffer,
        offset: 16,
        width: 4,
    },
    Row {
        field: Field::BufferCount,
        name: b"buffer_count",
        object: Object::Buffer,
        offset: 20,
        width: 4,
    },
    Row {
        field: Field::BufferOffset,
        name: b"buffer_offset",
        object: Object::Buffer,
        offset: 24,
        width: 4,
    },
    Row {
        field: Field::BlockPacketIndicate,
        name: b"block_packet_indicate",
        object: Object::Block,
        offset: 64,
        width: 4,
    },
    Row {
        field: Field::BlockSendComplete,
        name: b"block_send_complete",
        object: Object::Block,
        offset: 68,
        width: 4,
    },
    Row {
        field: Field::BlockSendResources,
        name: b"block_send_resources",
        object: Object::Block,
        offset: 72,
        width: 4,
    },
    Row {
        field: Field::BlockResetComplete,
        name: b"block_reset_complete",
        object: Object::Block,
        offset: 76,
        width: 4,
    },
    Row {
        field: Field::BlockStatus,
        name: b"block_status",
        object: Object::Block,
        offset: 80,
        width: 4,
    },
    Row {
        field: Field::BlockStatusComplete,
        name: b"block_status_complete",
        object: Object::Block,
        offset: 84,
        width: 4,
    },
    Row {
        field: Field::BlockQueryComplete,
        name: b"block_query_complete",
        object: Object::Block,
        offset: 88,
        width: 4,
    },
    Row {
        field: Field::BlockSetComplete,
        name: b"block_set_complete",
        object: Object::Block,
        offset: 92,
        width: 4,
    },
    Row {
        field: Field::BlockEthIndicate,
        name: b"block_eth_indicate",
        object: Object::Block,
        offset: 96,
        width: 4,
    },
    Row {
        field: Field::BlockEthComplete,
        name: b"block_eth_complete",
        object: Object::Block,
        offset: 100,
        width: 4,
    },
    Row {
        field: Field::BlockEthDb,
        name: b"block_eth_db",
        object: Object::Block,
        offset: 104,
        width: 4,
    },
];

impl Field {
    /// The place in the order of the fields, from 0.
    pub fn number(self) -> usize
        ensures value { result ≡ number self }
        ensures small { result < 31 }
    {
        self as usize
    }
}

impl Field {
    /// How many bytes the field has.
    #[tactic(auto, unfolding(crate::specs::Layout::seen))]
    pub fn width(self) -> u32
        ensures { result ≡ width_of self }
    {
        row_at(self.number()).width
    }
}

/// The row at a place of the table.
fn row_in(table: &[Row; FIELDS], place: usize) -> Row
    requires table { map seen table.now ≡ rows }
    requires place { place < 31 }
    ensures { seen result ≡ row place }
{
    table[place]
}

/// What is said of the field at a place in the order of the fields.
pub(crate) fn row_at(place: usize) -> Row
    requires { place < 31 }
    ensures { seen result ≡ row place }
{
    row_in(&ROWS, place)
}
