//! Calls that access a port once.

ghost use Rattle.std.specs.Prelude.{◌≡◌, ◌≤◌, ◌<◌, ◌-◌, ◌^◌, [], length, IsSome, Ok, OnOk};
ghost use Rattle.dp8390.specs.Card.{bytes_read, after_read};
ghost use Rattle.guest_world.specs.Worlds.{CanAnswer, IsIdle, adapter_of};
ghost use Rattle.import_answers.specs.Outcomes.{Comes};
ghost use Rattle.import_answers.specs.Ports.{in_port, out_port, low_first, card_of, with_card};
ghost use Rattle.call_replies.specs.Wanting.{ComesOr};
ghost use Rattle.calls_ports.specs.Cards.{bytes_of, HasAdapter, ChangesCard};

use crate::cards::{offset_of_port, read_once, write_card};
use crate::width::Width;
use call_replies::returns;
use guest_world::{Answer, CallRefusal, Caller, Reply, SentFrames, World};
use log_fields::Writes;
use nd_base::AdapterNo;
use std::alloc::Global;

/// The number that a port of the adapter's card gives, its low byte first.
fn number_read(world: &mut World, adapter: Option<AdapterNo>, port: u8, width: Width) -> u32
    requires there { IsSome (adapter_of world.old adapter) }
    requires port { port < 0x20 }
    ensures number { result ≡ low_first (bytes_read (card_of world.old adapter) port (bytes_of width)) }
    ensures card { world.new ≡ with_card world.old adapter (after_read (card_of world.old adapter) port (bytes_of width)) }
    ensures idle { IsIdle world.old → IsIdle world.new }
{
    match width {
        Width::Byte => {
            let mut byte = [0; 1];
            read_once(world, adapter, port, &mut byte);
            u32::from(byte[0])
        }
        Width::Word => {
            let mut two = [0; 2];
            read_once(world, adapter, port, &mut two);
            u32::from(u16::from_le_bytes(two))
        }
    }
}

/// READ_PORT_UCHAR, import 53, and READ_PORT_USHORT, import 54: EAX is what the port gives, with
/// zeros above it; all ones where no card has the port.
pub fn in_port(
    alloc: Global,
    world: &mut World,
    caller: Caller,
    words: &[u32],
    width: Width,
) -> Answer
    requires can { CanAnswer world.old caller }
    requires there { HasAdapter world.old caller.adapter }
    requires words { 1 ≤ length words.now }
    ensures answer { Comes (in_port world.old caller words.now (bytes_of width)) world.old (Ok result) world.new }
    ensures idle { IsIdle world.new }
{
    let Some(port) = offset_of_port(world, caller.adapter, words[0]) else {
        return returns(alloc, all_ones(width));
    };
    let number = number_read(world, caller.adapter, port, width);
    returns(alloc, number)
}

/// WRITE_PORT_UCHAR, import 55, and WRITE_PORT_USHORT, import 56. Where memory is wanted for a frame
/// that the card sends, the card alone has changed.
pub fn out_port(
    alloc: Global,
    world: &mut World,
    caller: Caller,
    words: &[u32],
    width: Width,
) -> Result<Answer, CallRefusal>
    requires can { CanAnswer world.old caller }
    requires there { HasAdapter world.old caller.adapter }
    requires words { 2 ≤ length words.now }
    ensures answer { ComesOr (ChangesCard caller.adapter) (out_port world.old caller words.now (bytes_of width)) world.old result world.new }
    ensures idle { OnOk result (IsIdle world.new) }
{
    let Some(port) = offset_of_port(world, caller.adapter, words[0]) else {
        return Ok(returns(alloc, 0));
    };
    let four = words[1].to_le_bytes();
    let bytes = width.bytes();
    let mut sent = SentFrames::new(alloc);
    match write_card(
        alloc,
        world,
        caller.adapter,
        port,
        bytes,
        1,
        &four[..bytes],
        &mut sent,
    ) {
        Ok(()) => Ok(sending(alloc, 1, sent)),
        Err(_) => Err(CallRefusal::OutOfMemory),
    }
}

/// The reply of a call that costs so much, and whose accesses sent these frames.
pub(crate) fn sending(alloc: Global, cost: u64, sent: SentFrames) -> Answer
    ensures { result ≡ Answer.Now (record { eax = 0; writes = []; cost = cost; sent = sent }) }
{
    Answer::Now(Reply {
        eax: 0,
        writes: Writes::new(alloc),
        cost,
        sent,
    })
}

/// All ones, as many as an access of this width reads.
fn all_ones(width: Width) -> u32
    ensures { result ≡ 256 ^ bytes_of width - 1 }
{
    match width {
        Width::Byte => 0xFF,
        Width::Word => 0xFFFF,
    }
}
