//! The accesses of a call to a card, one after the other.

ghost use Rattle.std.specs.Prelude.{◌≡◌, ◌<◌, ◌≤◌, ◌*◌, ◌++◌, length, None, OnOk};
ghost use Rattle.dp8390.specs.Card.{after_write, after_take};
ghost use Rattle.import_answers.specs.Ports.{reads, puts, sent_in};

use dp8390::{Card, send_laws};
use guest_world::SentFrames;
use nd_base::OutOfMemory;
use std::alloc::Global;

/// Fills a buffer by reads of a port, each of `width` bytes.
#[tactic(auto, unfolding(import_answers::specs::Ports::reads))]
pub(crate) fn read_each(card: &mut Card, port: u8, width: usize, count: usize, out: &mut [u8])
    requires port { port < 0x20 }
    requires width { (1 ≤ width) × (width ≤ 2) }
    requires length { length out.old ≡ width * count }
    ensures bytes { out.new ≡ (reads card.old port width count).0 }
    ensures card { card.new ≡ (reads card.old port width count).1 }
    ensures sent { card.new.sent ≡ card.old.sent }
{
    send_laws();
    let mut at = 0;
    for _access in 0..count {
        card.read(port, &mut out[at..at + width]);
        at += width;
    }
}

/// Writes a port once, and takes the frame that the card sends then.
pub(crate) fn write_once(
    alloc: Global,
    card: &mut Card,
    port: u8,
    bytes: &[u8],
    sent: &mut SentFrames,
) -> Result<(), OutOfMemory>
    requires port { port < 0x20 }
    requires width { (1 ≤ length bytes.now) × (length bytes.now ≤ 2) }
    requires taken { card.old.sent ≡ None }
    ensures frames { OnOk result (sent.new ≡ sent.old ++ sent_in (after_write card.old port bytes.now).sent) }
    ensures card { OnOk result (card.new ≡ after_take (after_write card.old port bytes.now)) }
{
    card.write(port, bytes);
    match card.take_sent(alloc)? {
        Some(frame) => sent.push(frame),
        None => Ok(()),
    }
}

/// Writes a port by writes of `width` bytes each, and takes the frames that the card sends.
#[tactic(auto, unfolding(import_answers::specs::Ports::puts))]
pub(crate) fn write_each(
    alloc: Global,
    card: &mut Card,
    port: u8,
    width: usize,
    count: usize,
    bytes: &[u8],
    sent: &mut SentFrames,
) -> Result<(), OutOfMemory>
    requires port { port < 0x20 }
    requires width { (1 ≤ width) × (width ≤ 2) }
    requires length { length bytes.now ≡ width * count }
    requires taken { card.old.sent ≡ None }
    ensures frames { OnOk result (sent.new ≡ sent.old ++ (puts card.old port width bytes.now count).0) }
    ensures card { OnOk result (card.new ≡ (puts card.old port width bytes.now count).1) }
    ensures taken { OnOk result (card.new.sent ≡ None) }
{
    let mut at = 0;
    for _access in 0..count {
        write_once(alloc, card, port, &bytes[at..at + width], sent)?;
        at += width;
    }
    Ok(())
}
