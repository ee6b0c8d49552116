//! What is read of each line.

use driver_script::{Line, Script};
use log_fields::{Condition, Question};
use nd_base::{AdapterNo, BindingNo};
use std::alloc::Global;

/// Each line once, with blanks, comments and both ends of lines.
const TEXT: &[u8] = b"# a script\r\n\
adapter 0 *PNP80D6 port 0300 irq 5 mac 0200C0ffee01\r\n\
\t adapter 1 PCI\\VEN_10EC port 03e0 irq 15 mac 000000000000 \n\
\n\
param 1 Speed 100\n\
param 0 Media auto\n\
param 1 Speed 10\n\
driver 0 on 1\n\
await up\n\
send 0102030405060708090A0b0c0d0e\n\
burst 3 60\n\
query 00010107 4\n\
set 0001010e 0d000000\n\
set 01010103 -\n\
await sent\n\
await replies\n\
await frames 7\n\
hold\n\
await all\n\
release\n\
driver 1 on 0\n\
driver 2 on 0\n\
hold";

fn is_adapter(script: &Script, place: usize, id: &[u8], port: u16, irq: u8, mac: [u8; 6]) -> bool {
    match script.adapters().get(place) {
        Some(line) => {
            line.id.as_slice() == id && line.port == port && line.irq == irq && line.mac == mac
        }
        None => false,
    }
}

fn is_param(script: &Script, adapter: u8, place: usize, name: &[u8], text: &[u8]) -> bool {
    match script.params(AdapterNo(adapter)).get(place) {
        Some(line) => line.name.as_slice() == name && line.text.as_slice() == text,
        None => false,
    }
}

fn adapters_are_read(script: &Script) -> bool {
    script.adapters().len() == 2
        && is_adapter(
            script,
            0,
            b"*PNP80D6",
            0x300,
            5,
            [2, 0, 0xc0, 0xff, 0xee, 1],
        )
        && is_adapter(script, 1, b"PCI\\VEN_10EC", 0x3e0, 15, [0; 6])
        && script.params(AdapterNo(0)).len() == 1
        && script.params(AdapterNo(1)).len() == 2
        && script.params(AdapterNo(2)).is_empty()
        && is_param(script, 0, 0, b"Media", b"auto")
        && is_param(script, 1, 0, b"Speed", b"100")
        && is_param(script, 1, 1, b"Speed", b"10")
}

fn drivers_are_read(script: &Script) -> bool {
    script.drivers() == [AdapterNo(1), AdapterNo(0), AdapterNo(0)].as_slice()
        && script.lines(BindingNo(0)) == 12
        && script.lines(BindingNo(1)) == 0
        && script.lines(BindingNo(2)) == 1
        && script.lines(BindingNo(3)) == 0
}

/// A number for what a line does, with the bytes that it has.
fn told(line: &Line) -> (u64, &[u8]) {
    match line {
        Line::Send(bytes) => (1, bytes.as_slice()),
        Line::Burst { count, length } => (u64::from(*count) * 10_000 + u64::from(*length), &[]),
        Line::Ask(Question::Query { oid, length }) => {
            (u64::from(*oid) * 256 + u64::from(*length), &[])
        }
        Line::Ask(Question::Set { oid, bytes }) => (u64::from(*oid), bytes.as_slice()),
        Line::Await(Condition::Up) => (2, &[]),
        Line::Await(Condition::Sent) => (3, &[]),
        Line::Await(Condition::Replies) => (4, &[]),
        Line::Await(Condition::Frames(count)) => (count.saturating_add(100), &[]),
        Line::Await(Condition::Room) => (5, &[]),
        Line::Await(Condition::All) => (6, &[]),
        Line::Hold => (7, &[]),
        Line::Release => (8, &[]),
    }
}

fn is_told(script: &Script, place: usize, number: u64, bytes: &[u8]) -> bool {
    match script.section(BindingNo(0)).get(place) {
        Some(line) => {
            let (other, others) = told(line);
            other == number && others == bytes
        }
        None => false,
    }
}

fn lines_are_read(script: &Script) -> bool {
    is_told(script, 0, 2, &[])
        && is_told(
            script,
            1,
            1,
            &[1, 2, 3, 4, 5, 6, 7, 8, 9, 10, 11, 12, 13, 14],
        )
        && is_told(script, 2, 30_060, &[])
        && is_told(script, 3, 0x0001_0107_04, &[])
        && is_told(script, 4, 0x0001_010e, &[13, 0, 0, 0])
        && is_told(script, 5, 0x0101_0103, &[])
        && is_told(script, 6, 3, &[])
        && is_told(script, 7, 4, &[])
        && is_told(script, 8, 107, &[])
        && is_told(script, 9, 7, &[])
        && is_told(script, 10, 6, &[])
        && is_told(script, 11, 8, &[])
}

fn reads_adapters(alloc: Global) -> bool {
    match Script::read(alloc, TEXT) {
        Ok(script) => adapters_are_read(&script),
        Err(_) => false,
    }
}

fn reads_drivers(alloc: Global) -> bool {
    match Script::read(alloc, TEXT) {
        Ok(script) => drivers_are_read(&script),
        Err(_) => false,
    }
}

fn reads_lines(alloc: Global) -> bool {
    match Script::read(alloc, TEXT) {
        Ok(script) => lines_are_read(&script),
        Err(_) => false,
    }
}

#[test]
fn adapters(rt: HostRuntime) {
    assert!(rt; reads_adapters(rt.alloc()));
}

#[test]
fn drivers(rt: HostRuntime) {
    assert!(rt; reads_drivers(rt.alloc()));
}

#[test]
fn lines(rt: HostRuntime) {
    assert!(rt; reads_lines(rt.alloc()));
}
