//! The lines that show parameters.

use inf_file::{Param, ParamValue};
use nd_base::Wide;
use printed_lines::parameter_lines;
use std::alloc::Global;

/// A space, a tilde, a delete, half of a surrogate pair, and a control character.
const TEXT: [u16; 5] = [0x20, 0x7E, 0x7F, 0xD83D, 0x1F];

fn put_text(parameters: &mut Vec<Param>, alloc: Global, name: &[u16], text: &[u16]) -> bool {
    let Ok(name) = Wide::copy(alloc, name) else {
        return false;
    };
    let Ok(text) = Wide::copy(alloc, text) else {
        return false;
    };
    let value = ParamValue::Text(text);
    parameters.push(Param { name, value }).is_ok()
}

fn put_number(parameters: &mut Vec<Param>, alloc: Global, name: &[u16], number: u32) -> bool {
    let Ok(name) = Wide::copy(alloc, name) else {
        return false;
    };
    let value = ParamValue::Number(number);
    parameters.push(Param { name, value }).is_ok()
}

fn shows(alloc: Global, parameters: &[Param], want: &[u8]) -> bool {
    match parameter_lines(alloc, parameters) {
        Ok(lines) => lines.as_slice() == want,
        Err(_) => false,
    }
}

#[test]
fn of_each_kind(rt: HostRuntime) {
    let mut parameters = Vec::new(rt.alloc());
    assert!(rt; shows(rt.alloc(), &parameters, b""));
    assert!(rt; put_text(&mut parameters, rt.alloc(), &[0x42, 0x75, 0x73], &TEXT));
    assert!(rt; put_text(&mut parameters, rt.alloc(), &[0x5C], &[]));
    assert!(rt; put_number(&mut parameters, rt.alloc(), &[0xE9], 10));
    let want =
        b"param Bus string  ~\\u007f\\ud83d\\u001f\nparam \\ string \nparam \\u00e9 dword 0000000a\n";
    assert!(rt; shows(rt.alloc(), &parameters, want));
}

fn put_many(parameters: &mut Vec<Param>, alloc: Global) -> bool {
    for number in 0..32_768 {
        if !put_number(parameters, alloc, &[0x50], number) {
            return false;
        }
    }
    true
}

fn shows_bytes(alloc: Global, parameters: &[Param], len: usize) -> bool {
    match parameter_lines(alloc, parameters) {
        Ok(lines) => lines.len() == len,
        Err(_) => false,
    }
}

#[test]
fn of_many(rt: HostRuntime) {
    let mut parameters = Vec::new(rt.alloc());
    assert!(rt; put_many(&mut parameters, rt.alloc()));
    // `param P dword 00000000` and LF are 23 bytes.
    assert!(rt; shows_bytes(rt.alloc(), &parameters, 32_768 * 23));
}
