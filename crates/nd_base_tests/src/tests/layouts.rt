//! Layouts and layout files.

use nd_base::{Bytes, Field, Layout, LayoutRefusal, OutOfMemory};
use std::test::Fail;

/// The usual offsets of all fields but the last.
const MOST_LINES: &[u8] = b"\
packet_physical_count = 0\n\
packet_total_length = 4\n\
packet_head = 8\n\
packet_tail = 12\n\
packet_pool = 16\n\
packet_count = 20\n\
packet_flags = 24\n\
packet_valid_counts = 28\n\
packet_ndis_flags = 29\n\
packet_oob_offset = 30\n\
packet_miniport_reserved = 32\n\
oob_header_size = 24\n\
oob_status = 36\n\
buffer_next = 0\n\
buffer_size = 4\n\
buffer_flags = 6\n\
buffer_mapped = 12\n\
buffer_start = 16\n\
buffer_count = 20\n\
buffer_offset = 24\n\
block_packet_indicate = 64\n\
block_send_complete = 68\n\
block_send_resources = 72\n\
block_reset_complete = 76\n\
block_status = 80\n\
block_status_complete = 84\n\
block_query_complete = 88\n\
block_set_complete = 92\n\
block_eth_indicate = 96\n\
block_eth_complete = 100\n\
";

/// The fields with their usual offsets.
const USUAL: [(Field, u32); 31] = [
    (Field::PacketPhysicalCount, 0),
    (Field::PacketTotalLength, 4),
    (Field::PacketHead, 8),
    (Field::PacketTail, 12),
    (Field::PacketPool, 16),
    (Field::PacketCount, 20),
    (Field::PacketFlags, 24),
    (Field::PacketValidCounts, 28),
    (Field::PacketNdisFlags, 29),
    (Field::PacketOobOffset, 30),
    (Field::PacketMiniportReserved, 32),
    (Field::OobHeaderSize, 24),
    (Field::OobStatus, 36),
    (Field::BufferNext, 0),
    (Field::BufferSize, 4),
    (Field::BufferFlags, 6),
    (Field::BufferMapped, 12),
    (Field::BufferStart, 16),
    (Field::BufferCount, 20),
    (Field::BufferOffset, 24),
    (Field::BlockPacketIndicate, 64),
    (Field::BlockSendComplete, 68),
    (Field::BlockSendResources, 72),
    (Field::BlockResetComplete, 76),
    (Field::BlockStatus, 80),
    (Field::BlockStatusComplete, 84),
    (Field::BlockQueryComplete, 88),
    (Field::BlockSetComplete, 92),
    (Field::BlockEthIndicate, 96),
    (Field::BlockEthComplete, 100),
    (Field::BlockEthDb, 104),
];

/// The length of the longest layout file, in bytes.
const LONGEST: usize = 65_536;

fn is_usual(layout: &Layout) -> bool {
    USUAL.iter().all(|row| layout.offset(row.0) == row.1)
}

fn is_read(text: &[u8]) -> bool {
    match Layout::read(text) {
        Ok(layout) => is_usual(&layout),
        Err(_) => false,
    }
}

fn refusal(text: &[u8]) -> Option<LayoutRefusal> {
    Layout::read(text).err()
}

#[test]
fn layouts_are_read(rt: HostRuntime) -> Result<(), Fail> {
    let missing = Some(LayoutRefusal::Missing(Field::BlockEthDb));
    assert!(rt; refusal(MOST_LINES) == missing);
    assert!(rt; is_usual(&Layout::usual()));
    assert!(rt; Field::PacketMiniportReserved.width() == 16);
    let mut text = Bytes::copy(rt.alloc(), MOST_LINES)?;
    text.extend_from_slice(b"# the last\r\n\tblock_eth_db\t= 104 \r\n")?;
    assert!(rt; is_read(text.as_slice()));
    Ok(())
}

/// Puts empty lines behind a text up to a length.
fn pad(text: &mut Bytes, len: usize) -> Result<(), OutOfMemory> {
    for _ in text.len()..len {
        text.push(b'\n')?;
    }
    Ok(())
}

#[test]
fn the_longest_layout_is_read(rt: HostRuntime) -> Result<(), Fail> {
    let mut text = Bytes::copy(rt.alloc(), MOST_LINES)?;
    text.extend_from_slice(b"block_eth_db = 104\n")?;
    pad(&mut text, LONGEST)?;
    assert!(rt; is_read(text.as_slice()));
    text.push(b'\n')?;
    assert!(rt; refusal(text.as_slice()) == Some(LayoutRefusal::TooLong));
    Ok(())
}

#[test]
fn layouts_are_refused(rt: HostRuntime) -> Result<(), Fail> {
    let unknown = refusal(b"# none\n\npacket_tall = 9\n");
    assert!(rt; unknown == Some(LayoutRefusal::UnknownName(3)));
    let unknown = refusal(b"no_such = 99999999999999999999999");
    assert!(rt; unknown == Some(LayoutRefusal::UnknownName(1)));
    let repeated = refusal(b"packet_head = 8\npacket_head = 8");
    assert!(rt; repeated == Some(LayoutRefusal::Repeated(2)));
    let mut text = Bytes::copy(rt.alloc(), MOST_LINES)?;
    text.extend_from_slice(b"block_eth_db = 103\n")?;
    let shared = Some(LayoutRefusal::Overlap(Field::BlockEthComplete, Field::BlockEthDb));
    assert!(rt; refusal(text.as_slice()) == shared);
    Ok(())
}

/// Lines that are none of a layout file.
const BAD_LINES: [&[u8]; 9] = [
    b"oob_status = 37",
    b"packet_head = 08",
    b"no_such = 08",
    b"packet_head = 4294967304",
    b"packet_head = +8",
    b"packet_head 8",
    b"packet_head = 8 8",
    b" # no comment",
    b"packet_head = 8\r",
];

#[test]
fn layout_lines_are_judged(rt: HostRuntime) {
    for line in BAD_LINES {
        assert!(rt; refusal(line) == Some(LayoutRefusal::Line(1)));
    }
    let missing = Some(LayoutRefusal::Missing(Field::PacketPhysicalCount));
    assert!(rt; refusal(b"packet_head = 0") == missing);
    assert!(rt; refusal(b" \t\r\n# a comment\n") == missing);
}

#[test]
fn layout_refusals_have_texts(rt: HostRuntime) -> Result<(), Fail> {
    let text = format!(in rt.alloc(); "{}", LayoutRefusal::Missing(Field::PacketHead))?;
    assert!(rt; text.as_str() == "the layout file is refused: Missing(PacketHead)");
    Ok(())
}
