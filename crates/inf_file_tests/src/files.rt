//! Files of the tests, and what they give.

use inf_file::{Param, ParamRefusal, ParamValue, parameters};
use inf_text::{Inf, InfRefusal};
use std::alloc::Global;

/// The hardware id `*PNP80D6`.
pub static PNP80D6: [u16; 8] = [42, 80, 78, 80, 56, 48, 68, 54];

/// The hardware id `*A`.
pub static A: [u16; 2] = [42, 65];

/// Twelve lines of a file whose model `*PNP80D6` leads to the section `Ne.Reg`; its rows come next.
pub const HEAD: &str = "[Version]
Signature=\"$Windows NT$\"
[Strings]
M=\"Acme\"
[Manufacturer]
%M%=Models
[Models]
\"NE2000\" = Ne.Inst, *PNP80D6
[Ne.Inst]
AddReg=Ne.Reg

[Ne.Reg]
";

/// A file with these rows behind the twelve lines.
pub fn with_rows(alloc: Global, rows: &str) -> Option<Vec<u8>> {
    let mut text = Vec::from_slice(alloc, HEAD.as_bytes()).ok()?;
    text.extend_from_slice(rows.as_bytes()).ok()?;
    Some(text)
}

/// What stands behind these characters, where a text begins with them.
fn behind<'a>(text: &'a [u8], units: &[u16]) -> Option<&'a [u8]> {
    let mut rest = text;
    for unit in units {
        let (first, others) = rest.split_first()?;
        if u16::from(*first) != *unit {
            return None;
        }
        rest = others;
    }
    Some(rest)
}

/// What stands behind a parameter: a string as `NAME=TEXT;`, a number as `NAME#`.
fn behind_param<'a>(text: &'a [u8], param: &Param) -> Option<&'a [u8]> {
    let rest = behind(text, param.name.as_slice())?;
    match &param.value {
        ParamValue::Text(value) => behind(behind(behind(rest, &[61])?, value.as_slice())?, &[59]),
        ParamValue::Number(_) => behind(rest, &[35]),
    }
}

/// Whether parameters are shown as this.
fn are_shown(params: &[Param], want: &str) -> bool {
    let mut rest = want.as_bytes();
    for param in params {
        match behind_param(rest, param) {
            Some(others) => rest = others,
            None => return false,
        }
    }
    rest.is_empty()
}

/// Whether a file gives a hardware id these parameters.
fn has(alloc: Global, inf: &Inf, id: &[u16], want: &str) -> bool {
    match parameters(inf, alloc, id) {
        Ok(params) => are_shown(params.as_slice(), want),
        Err(_) => false,
    }
}

/// The same of a file's bytes.
pub fn gives(alloc: Global, bytes: &[u8], id: &[u16], want: &str) -> bool {
    match Inf::read(alloc, bytes) {
        Ok(inf) => has(alloc, &inf, id, want),
        Err(_) => false,
    }
}

/// Whether rows give these parameters.
pub fn rows_give(alloc: Global, rows: &str, want: &str) -> bool {
    match with_rows(alloc, rows) {
        Some(text) => gives(alloc, text.as_slice(), &PNP80D6, want),
        None => false,
    }
}

/// Why a hardware id has no parameters.
fn refusal_of(alloc: Global, inf: &Inf, id: &[u16]) -> Option<ParamRefusal> {
    match parameters(inf, alloc, id) {
        Ok(_) => None,
        Err(refusal) => Some(refusal),
    }
}

/// Whether a file refuses a hardware id for this reason.
pub fn refuses(alloc: Global, bytes: &[u8], id: &[u16], want: ParamRefusal) -> bool {
    match Inf::read(alloc, bytes) {
        Ok(inf) => refusal_of(alloc, &inf, id) == Some(want),
        Err(refusal) => refusal == InfRefusal::OutOfMemory,
    }
}

/// Whether rows are refused for this reason.
pub fn rows_refuse(alloc: Global, rows: &str, want: ParamRefusal) -> bool {
    match with_rows(alloc, rows) {
        Some(text) => refuses(alloc, text.as_slice(), &PNP80D6, want),
        None => false,
    }
}

/// Why a file is not read.
pub fn fault_of(alloc: Global, bytes: &[u8]) -> Option<InfRefusal> {
    match Inf::read(alloc, bytes) {
        Ok(_) => None,
        Err(refusal) => Some(refusal),
    }
}

/// The number of the first parameter.
fn first_number(params: &[Param]) -> Option<u32> {
    match &params.first()?.value {
        ParamValue::Number(number) => Some(*number),
        ParamValue::Text(_) => None,
    }
}

/// The number that a file's first parameter has.
pub fn number_of(alloc: Global, bytes: &[u8]) -> Option<u32> {
    match Inf::read(alloc, bytes) {
        Ok(inf) => match parameters(&inf, alloc, &PNP80D6) {
            Ok(params) => first_number(params.as_slice()),
            Err(_) => None,
        },
        Err(_) => None,
    }
}

/// How many parameters a file gives a hardware id.
pub fn count_of(alloc: Global, bytes: &[u8], id: &[u16]) -> Option<usize> {
    match Inf::read(alloc, bytes) {
        Ok(inf) => match parameters(&inf, alloc, id) {
            Ok(params) => Some(params.len()),
            Err(_) => None,
        },
        Err(_) => None,
    }
}
