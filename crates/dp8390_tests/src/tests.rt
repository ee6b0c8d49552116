ghost use Rattle.std.specs.Prelude.{◌≡◌, ◌<◌, ◌≤◌, length, None, false};
ghost use Rattle.dp8390.specs.Registers.{transmits};

use dp8390::{Card, arrival_laws, send_laws};
use nd_base::Bytes;
use std::alloc::Global;
use std::test::Fail;

const STATION: [u8; 6] = [0x02, 0x00, 0x00, 0x12, 0x34, 0x56];

const GROUP: [u8; 6] = [0x01, 0x00, 0x5E, 0x00, 0x00, 0x01];

/// Reads one byte.
fn get(card: &mut Card, port: u8) -> u8
    requires port { port < 0x20 }
    requires taken { card.old.sent ≡ None }
    ensures { card.new.sent ≡ None }
{
    send_laws();
    let mut out = [0];
    card.read(port, &mut out);
    out[0]
}

/// Reads two bytes by one access.
fn get_word(card: &mut Card, port: u8) -> [u8; 2]
    requires port { port < 0x20 }
    requires taken { card.old.sent ≡ None }
    ensures { card.new.sent ≡ None }
{
    send_laws();
    let mut out = [0xEE, 0xEE];
    card.read(port, &mut out);
    out
}

/// Writes a port behind the command register.
fn put_bytes(card: &mut Card, port: u8, bytes: &[u8])
    requires behind { 0 < port }
    requires port { port < 0x20 }
    requires some { 0 < length bytes.now }
    requires most { length bytes.now ≤ 2 }
    requires taken { card.old.sent ≡ None }
    ensures { card.new.sent ≡ None }
{
    send_laws();
    card.write(port, bytes);
}

/// Writes one byte behind the command register.
fn put(card: &mut Card, port: u8, byte: u8)
    requires behind { 0 < port }
    requires port { port < 0x20 }
    requires taken { card.old.sent ≡ None }
    ensures { card.new.sent ≡ None }
{
    put_bytes(card, port, &[byte]);
}

/// Gives a command that starts no transmission.
fn command(card: &mut Card, byte: u8)
    requires quiet { transmits byte ≡ false }
    requires taken { card.old.sent ≡ None }
    ensures { card.new.sent ≡ None }
{
    send_laws();
    card.write(0x00, &[byte]);
}

/// A frame of 0xFF, but for its destination, arrives.
fn receive(card: &mut Card, destination: [u8; 6], length: usize)
    requires least { 6 ≤ length }
    requires most { length ≤ 1514 }
    requires taken { card.old.sent ≡ None }
    ensures { card.new.sent ≡ None }
{
    arrival_laws();
    let mut frame = [0xFF; 1514];
    frame[..6].copy_from_slice(&destination);
    card.arrive(&frame[..length]);
}

/// Begins a remote read.
fn read_from(card: &mut Card, address: [u8; 2], count: u8)
    requires { card.old.sent ≡ None }
    ensures { card.new.sent ≡ None }
{
    put(card, 0x08, address[0]);
    put(card, 0x09, address[1]);
    put(card, 0x0A, count);
    put(card, 0x0B, 0);
    command(card, 0x0A);
}

/// Four bytes of memory.
fn four_at(card: &mut Card, address: [u8; 2]) -> [u8; 4]
    requires { card.old.sent ≡ None }
    ensures { card.new.sent ≡ None }
{
    read_from(card, address, 4);
    let first = get_word(card, 0x10);
    let last = get_word(card, 0x10);
    [first[0], first[1], last[0], last[1]]
}

/// Starts the card with a ring of the pages 0x46 to 0x7F, and takes broadcasts.
fn start(card: &mut Card, boundary: u8, current: u8)
    requires { card.old.sent ≡ None }
    ensures { card.new.sent ≡ None }
{
    put(card, 0x01, 0x46);
    put(card, 0x02, 0x80);
    put(card, 0x03, boundary);
    put(card, 0x0C, 0x04);
    command(card, 0x61);
    put(card, 0x07, current);
    command(card, 0x22);
}

/// CURR.
fn current(card: &mut Card) -> u8
    requires { card.old.sent ≡ None }
    ensures { card.new.sent ≡ None }
{
    command(card, 0x62);
    let page = get(card, 0x07);
    command(card, 0x22);
    page
}

/// Whether a broadcast leaves this header and CURR, and PRX alone.
fn stores(card: &mut Card, length: usize, at: [u8; 2], header: [u8; 4], next: u8) -> bool
    requires least { 6 ≤ length }
    requires most { length ≤ 1514 }
    requires taken { card.old.sent ≡ None }
    ensures { card.new.sent ≡ None }
{
    put(card, 0x07, 0xFF);
    receive(card, [0xFF; 6], length);
    get(card, 0x07) == 0x01 && current(card) == next && four_at(card, at) == header
}

#[test]
fn a_frame_of_60_bytes_takes_a_page(rt: HostRuntime) -> Result<(), Fail> {
    let mut card = Card::new(rt.alloc(), STATION)?;
    start(&mut card, 0x46, 0x47);
    let stored = stores(&mut card, 60, [0x00, 0x47], [0x21, 0x48, 0x40, 0x00], 0x48);
    assert!(rt; stored);
    Ok(())
}

#[test]
fn a_shorter_frame_is_padded(rt: HostRuntime) -> Result<(), Fail> {
    let mut card = Card::new(rt.alloc(), STATION)?;
    start(&mut card, 0x46, 0x47);
    let stored = stores(&mut card, 59, [0x00, 0x47], [0x21, 0x48, 0x40, 0x00], 0x48)
        && four_at(&mut card, [0x3D, 0x47]) == [0xFF, 0xFF, 0x00, 0x00];
    assert!(rt; stored);
    Ok(())
}

#[test]
fn a_frame_that_fills_the_last_page_goes_on_at_the_first(rt: HostRuntime) -> Result<(), Fail> {
    let mut card = Card::new(rt.alloc(), STATION)?;
    start(&mut card, 0x60, 0x7F);
    let stored = stores(&mut card, 248, [0x00, 0x7F], [0x21, 0x46, 0xFC, 0x00], 0x46);
    assert!(rt; stored);
    Ok(())
}

#[test]
fn a_frame_wraps_at_the_end_of_the_ring(rt: HostRuntime) -> Result<(), Fail> {
    let mut card = Card::new(rt.alloc(), STATION)?;
    start(&mut card, 0x60, 0x7F);
    let stored = stores(&mut card, 249, [0x00, 0x7F], [0x21, 0x47, 0xFD, 0x00], 0x47)
        && four_at(&mut card, [0xFC, 0x7F]) == [0xFF, 0x00, 0x00, 0x00]
        && four_at(&mut card, [0x00, 0x46]) == [0x00, 0x00, 0x00, 0x00];
    assert!(rt; stored);
    Ok(())
}

#[test]
fn the_longest_frame_takes_six_pages(rt: HostRuntime) -> Result<(), Fail> {
    let mut card = Card::new(rt.alloc(), STATION)?;
    start(&mut card, 0x60, 0x7E);
    let stored = stores(
        &mut card,
        1514,
        [0x00, 0x7E],
        [0x21, 0x4A, 0xEE, 0x05],
        0x4A,
    ) && four_at(&mut card, [0xEC, 0x49]) == [0xFF, 0xFF, 0x00, 0x00];
    assert!(rt; stored);
    Ok(())
}

#[test]
fn a_frame_without_room_is_missed(rt: HostRuntime) -> Result<(), Fail> {
    let mut card = Card::new(rt.alloc(), STATION)?;
    start(&mut card, 0x48, 0x47);
    put(&mut card, 0x07, 0xFF);
    receive(&mut card, [0xFF; 6], 60);
    let missed = get(&mut card, 0x07) == 0x10
        && current(&mut card) == 0x47
        && get(&mut card, 0x0F) == 1
        && get(&mut card, 0x0F) == 0;
    assert!(rt; missed);
    Ok(())
}

#[test]
fn a_monitored_frame_is_only_counted(rt: HostRuntime) -> Result<(), Fail> {
    let mut card = Card::new(rt.alloc(), STATION)?;
    start(&mut card, 0x46, 0x47);
    put(&mut card, 0x0C, 0x24);
    put(&mut card, 0x07, 0xFF);
    receive(&mut card, [0xFF; 6], 60);
    let counted = get(&mut card, 0x07) == 0
        && current(&mut card) == 0x47
        && get(&mut card, 0x0F) == 1;
    assert!(rt; counted);
    Ok(())
}

#[test]
fn no_frame_arrives_in_loopback(rt: HostRuntime) -> Result<(), Fail> {
    let mut card = Card::new(rt.alloc(), STATION)?;
    start(&mut card, 0x46, 0x47);
    put(&mut card, 0x0D, 0x02);
    receive(&mut card, [0xFF; 6], 60);
    let dropped = current(&mut card) == 0x47 && get(&mut card, 0x0F) == 0;
    assert!(rt; dropped);
    Ok(())
}

/// Sets a byte of page 1.
fn put_on_page_1(card: &mut Card, port: u8, byte: u8)
    requires behind { 0 < port }
    requires port { port < 0x20 }
    requires taken { card.old.sent ≡ None }
    ensures { card.new.sent ≡ None }
{
    command(card, 0x62);
    put(card, port, byte);
    command(card, 0x22);
}

#[test]
fn a_group_is_taken_by_its_hash(rt: HostRuntime) -> Result<(), Fail> {
    let mut card = Card::new(rt.alloc(), STATION)?;
    start(&mut card, 0x46, 0x47);
    put(&mut card, 0x0C, 0x08);
    put_on_page_1(&mut card, 0x0B, 0x80);
    receive(&mut card, [0x01, 0x00, 0x5E, 0x00, 0x00, 0xFB], 60);
    let other = current(&mut card) == 0x47;
    receive(&mut card, GROUP, 60);
    let group = current(&mut card) == 0x48 && get(&mut card, 0x0C) == 0x21;
    assert!(rt; other && group);
    Ok(())
}

#[test]
fn promiscuous_takes_stations_and_no_group(rt: HostRuntime) -> Result<(), Fail> {
    let mut card = Card::new(rt.alloc(), STATION)?;
    start(&mut card, 0x46, 0x47);
    put(&mut card, 0x0C, 0x10);
    receive(&mut card, GROUP, 60);
    let group = current(&mut card) == 0x47;
    receive(&mut card, STATION, 60);
    let station = current(&mut card) == 0x48 && get(&mut card, 0x0C) == 0x01;
    assert!(rt; group && station);
    Ok(())
}

#[test]
fn the_prom_has_each_byte_twice(rt: HostRuntime) -> Result<(), Fail> {
    let mut card = Card::new(rt.alloc(), STATION)?;
    read_from(&mut card, [0x06, 0x00], 26);
    let words = get_word(&mut card, 0x10) == [0x12, 0x12]
        && get_word(&mut card, 0x10) == [0x34, 0x34]
        && get(&mut card, 0x17) == 0x56
        && get(&mut card, 0x11) == 0x56
        && get_word(&mut card, 0x17) == [0x00, 0x00]
        && four_at(&mut card, [0x1C, 0x00]) == [0x57, 0x57, 0x57, 0x57]
        && four_at(&mut card, [0x1E, 0x00]) == [0x57, 0x57, 0xFF, 0xFF];
    assert!(rt; words);
    Ok(())
}

#[test]
fn a_remote_read_goes_over_the_end_of_the_ring(rt: HostRuntime) -> Result<(), Fail> {
    let mut card = Card::new(rt.alloc(), STATION)?;
    start(&mut card, 0x60, 0x7F);
    receive(&mut card, [0xFF; 6], 249);
    let over = four_at(&mut card, [0xFE, 0x7F]) == [0x00, 0x00, 0x00, 0x00]
        && get(&mut card, 0x08) == 0x02
        && get(&mut card, 0x09) == 0x46;
    assert!(rt; over);
    Ok(())
}

#[test]
fn a_remote_read_of_nothing_is_complete(rt: HostRuntime) -> Result<(), Fail> {
    let mut card = Card::new(rt.alloc(), STATION)?;
    read_from(&mut card, [0x00, 0x40], 0);
    let none = get(&mut card, 0x07) == 0x40 && get_word(&mut card, 0x10) == [0xFF, 0xFF];
    assert!(rt; none);
    Ok(())
}

#[test]
fn the_count_ends_in_the_middle_of_a_word(rt: HostRuntime) -> Result<(), Fail> {
    let mut card = Card::new(rt.alloc(), STATION)?;
    read_from(&mut card, [0x00, 0x00], 1);
    let one = get(&mut card, 0x07) == 0
        && get_word(&mut card, 0x10) == [0x02, 0xFF]
        && get(&mut card, 0x07) == 0x40;
    assert!(rt; one);
    Ok(())
}

#[test]
fn a_reset_stops_the_card(rt: HostRuntime) -> Result<(), Fail> {
    let mut card = Card::new(rt.alloc(), STATION)?;
    start(&mut card, 0x46, 0x47);
    put(&mut card, 0x0F, 0x7F);
    let running = get(&mut card, 0x00) == 0x22;
    let zero = get_word(&mut card, 0x1F) == [0x00, 0x00];
    let stopped = get_word(&mut card, 0x00) == [0x21, 0x00] && get(&mut card, 0x07) == 0x80;
    assert!(rt; running && zero && stopped);
    Ok(())
}

/// Writes bytes to memory by words, from page 0x40 on.
fn load(card: &mut Card, words: &[[u8; 2]], count: [u8; 2])
    requires { card.old.sent ≡ None }
    ensures { card.new.sent ≡ None }
{
    put(card, 0x08, 0x00);
    put(card, 0x09, 0x40);
    put(card, 0x0A, count[0]);
    put(card, 0x0B, count[1]);
    command(card, 0x12);
    for word in words {
        put_bytes(card, 0x10, word);
    }
}

/// The frame that a transmission of so many bytes from page 0x40 on sends.
fn transmit(card: &mut Card, alloc: Global, count: [u8; 2]) -> Option<Bytes>
    requires { card.old.sent ≡ None }
{
    put(card, 0x04, 0x40);
    put(card, 0x05, count[0]);
    put(card, 0x06, count[1]);
    card.write(0x00, &[0x26]);
    card.take_sent(alloc).ok()?
}

/// The data sheet's initialization: stopped, DCR, RBCR, RCR and TCR first, then the ring, ISR, IMR,
/// PAR, MAR and CURR, then start and TCR.
fn initialize(card: &mut Card)
    requires { card.old.sent ≡ None }
    ensures { card.new.sent ≡ None }
{
    command(card, 0x21);
    put(card, 0x0E, 0x49);
    put(card, 0x0A, 0x00);
    put(card, 0x0B, 0x00);
    put(card, 0x0C, 0x04);
    put(card, 0x0D, 0x02);
    put(card, 0x01, 0x46);
    put(card, 0x02, 0x80);
    put(card, 0x03, 0x46);
    put(card, 0x07, 0xFF);
    put(card, 0x0F, 0x3F);
    command(card, 0x61);
    put(card, 0x01, 0x02);
    put(card, 0x04, 0x12);
    put(card, 0x05, 0x34);
    put(card, 0x06, 0x56);
    put(card, 0x07, 0x47);
    command(card, 0x22);
    put(card, 0x0D, 0x00);
}

/// Whether a frame for the station is stored and raises the line until ISR is cleared.
fn receives_one(card: &mut Card) -> bool
    requires { card.old.sent ≡ None }
    ensures { card.new.sent ≡ None }
{
    receive(card, STATION, 64);
    let raised = card.line() && get(card, 0x07) == 0x01;
    put(card, 0x07, 0x01);
    raised
        && !card.line()
        && four_at(card, [0x00, 0x47]) == [0x01, 0x48, 0x44, 0x00]
        && four_at(card, [0x04, 0x47]) == [0x02, 0x00, 0x00, 0x12]
}

/// Whether sixty bytes are sent as they were written.
fn sends_one(card: &mut Card, alloc: Global) -> bool
    requires { card.old.sent ≡ None }
{
    load(card, &[[0x5A, 0xA5]; 30], [60, 0]);
    put(card, 0x07, 0xFF);
    match transmit(card, alloc, [60, 0]) {
        Some(frame) => {
            frame.len() == 60 && frame.as_slice()[..4] == [0x5A, 0xA5, 0x5A, 0xA5] && card.line()
        }
        None => false,
    }
}

#[test]
fn the_sheets_initialization_receives_and_sends(rt: HostRuntime) -> Result<(), Fail> {
    let mut card = Card::new(rt.alloc(), STATION)?;
    initialize(&mut card);
    let worked = receives_one(&mut card) && sends_one(&mut card, rt.alloc());
    assert!(rt; worked);
    Ok(())
}

/// The length of the frame that is sent, if one is.
fn sent_length(card: &mut Card, alloc: Global, count: [u8; 2]) -> Option<usize>
    requires { card.old.sent ≡ None }
{
    let frame = transmit(card, alloc, count)?;
    Some(frame.len())
}

#[test]
fn the_longest_frame_is_sent(rt: HostRuntime) -> Result<(), Fail> {
    let mut card = Card::new(rt.alloc(), STATION)?;
    let length = sent_length(&mut card, rt.alloc(), [0xEA, 0x05]);
    assert!(rt; length == Some(1514));
    Ok(())
}

#[test]
fn a_longer_frame_is_not_sent(rt: HostRuntime) -> Result<(), Fail> {
    let mut card = Card::new(rt.alloc(), STATION)?;
    let length = sent_length(&mut card, rt.alloc(), [0xEB, 0x05]);
    assert!(rt; length.is_none());
    Ok(())
}
