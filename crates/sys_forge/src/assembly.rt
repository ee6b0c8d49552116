//! Source as bytes.

ghost use Rattle.std.specs.Prelude.{◌≡◌, ◌++◌, ◌+◌, ◌≤◌, length, IfOk, IfErr, OnOk, replicate};
ghost use Rattle.std.specs.Str.Lines.{lines};
ghost use Rattle.line_bytes.specs.Putting.{AreWide};
ghost use Rattle.sys_forge.specs.Standing.{none_laid, laid, AreMade, IsSettled};
ghost use Rattle.sys_forge.specs.Assembly.{IsEmitted, IsAssembly, IsRefusedText};
ghost use Rattle.sys_forge.specs.Moved.{AreAddresses};
ghost use Rattle.sys_forge.specs.Whole.{IsAssembled, IsUnplaced, IsUnassembled};

use crate::moved::put_further;
use crate::places::places;
use crate::plan::{Layouts, plan};
use crate::refusal::{ForgeRefusal, refusal_at};
use line_bytes::{Met, Refused, Tables, put_line};
use nd_base::words::next_line;
use nd_base::{Bytes, OutOfMemory};
use std::alloc::Global;

/// The bytes of the lines of a source.
fn emitted(alloc: Global, plan: &Layouts, text: &[u8]) -> Result<Bytes, ForgeRefusal>
    requires made { AreMade (lines text.now) plan.now.made.items }
    requires laid { plan.now.tables ≡ laid none_laid (lines text.now) plan.now.made.items }
    requires low { plan.now.tables.words ≤ 0x80500000 }
    requires wide { AreWide plan.now.tables.labels }
    ensures ok { IfOk result (λ bytes. IsEmitted plan.now.tables (lines text.now) bytes) }
    ensures err { IfErr result (λ why. IsRefusedText text.now why) }
{
    let mut out = Bytes::new(alloc);
    let mut met = Met {
        labels: 0,
        imports: 0,
    };
    let mut number = 1u64;
    let mut rest = text;
    let mut left = plan.made.as_slice();
    while !rest.is_empty() {
        let (line, others) = next_line(rest);
        let Some((made, behind)) = left.split_first() else {
            return Err(ForgeRefusal::OutOfMemory);
        };
        met = match put_line(&mut out, &plan.tables, met, line, made) {
            Ok(next) => next,
            Err(refused) => return Err(refusal_at(refused, number)),
        };
        number += 1;
        rest = others;
        left = behind;
    }
    Ok(out)
}

/// Puts zero bytes behind others.
fn put_zeros(alloc: Global, out: &mut Bytes, count: usize) -> Result<(), OutOfMemory>
    ensures { OnOk result (out.new ≡ out.old ++ replicate count 0) }
{
    let zeros = vec![in alloc; 0u8; count]?;
    out.extend_from_slice(zeros.as_slice())
}

/// How many lines a source has.
pub fn line_count(text: &[u8]) -> u64
    ensures value { result ≡ length (lines text.now) }
    ensures low { result ≤ length text.now }
{
    let mut count = 0u64;
    let mut rest = text;
    while !rest.is_empty() {
        count += 1;
        rest = next_line(rest).1;
    }
    count
}

/// The bytes of the lines of a source, and where labels and words stand.
fn laid(alloc: Global, text: &[u8]) -> Result<(Layouts, Bytes), ForgeRefusal>
    ensures made { IfOk result (λ laid. AreMade (lines text.now) laid.0.made.items) }
    ensures settled { IfOk result (λ laid. IsSettled text.now laid.0.tables) }
    ensures ok { IfOk result (λ laid. IsEmitted laid.0.tables (lines text.now) laid.1) }
    ensures wide { IfOk result (λ laid. AreWide laid.0.tables.labels × AreWide laid.0.moved.labels) }
    ensures moved { IfOk result (λ laid. laid.0.moved.words ≡ laid.0.tables.words + 0x01010101) }
    ensures err { IfErr result (λ why. IsRefusedText text.now why) }
{
    let plan = match plan(alloc, text) {
        Ok(plan) => plan,
        Err(_) => return Err(ForgeRefusal::OutOfMemory),
    };
    let bytes = emitted(alloc, &plan, text)?;
    Ok((plan, bytes))
}

/// The places of the words that hold addresses, in bytes of these lines.
fn address_places(
    alloc: Global,
    plan: &Layouts,
    text: &[u8],
    bytes: &[u8],
) -> Result<Vec<u32>, ForgeRefusal>
    requires made { AreMade (lines text.now) plan.now.made.items }
    requires wide { AreWide plan.now.tables.labels × AreWide plan.now.moved.labels }
    requires moved { plan.now.moved.words ≡ plan.now.tables.words + 0x01010101 }
    requires room { length bytes.now ≤ 0x3FF000 }
    ensures ok { IfOk result (λ found. AreAddresses plan.now.tables (lines text.now) bytes.now found.items) }
    ensures err { IfErr result (λ why. IsUnplaced text.now why) }
{
    let behind = ForgeRefusal::Range(line_count(text) + 1);
    let further = match put_further(alloc, &plan.tables, &plan.moved, plan.made.as_slice(), text) {
        Ok(further) => further,
        Err(Refused::OutOfMemory) => return Err(ForgeRefusal::OutOfMemory),
        Err(_) => return Err(behind),
    };
    match places(alloc, bytes, further.as_slice()) {
        Ok(Some(found)) => Ok(found),
        Ok(None) => Err(behind),
        Err(_) => Err(ForgeRefusal::OutOfMemory),
    }
}

/// A source as bytes.
#[derive(Drop)]
pub struct Assembled {
    /// Where its labels and the words of its imports stand.
    pub tables: Tables,
    /// The bytes of its lines, and a zero word for each import name, in the order of first use.
    pub bytes: Bytes,
    /// The places in them of the words that hold addresses, in order.
    pub places: Vec<u32>,
}

/// The bytes of a source, as they stand at 0x80101000, with the places of the words that hold
/// addresses.
pub fn assemble_with_places(alloc: Global, text: &[u8]) -> Result<Assembled, ForgeRefusal>
    ensures ok { IfOk result (λ a. IsAssembled text.now a.tables a.bytes a.places.items) }
    ensures err { IfErr result (λ why. IsUnassembled text.now why) }
{
    let (plan, mut bytes) = laid(alloc, text)?;
    let places = match address_places(alloc, &plan, text, bytes.as_slice()) {
        Ok(places) => places,
        Err(why) => return Err(why),
    };
    let Layouts { tables, .. } = plan;
    match put_zeros(alloc, &mut bytes, 4 * tables.imports.len()) {
        Ok(()) => Ok(Assembled {
            tables,
            bytes,
            places,
        }),
        Err(_) => Err(ForgeRefusal::OutOfMemory),
    }
}

/// The bytes of a source, as they stand at 0x80101000, and behind them one zero word for each import
/// name in the order of first use.
pub fn assemble(alloc: Global, text: &[u8]) -> Result<Bytes, ForgeRefusal>
    ensures ok { IfOk result (λ out. IsAssembly text.now out) }
    ensures err { IfErr result (λ why. IsRefusedText text.now why) }
{
    let (plan, mut out) = laid(alloc, text)?;
    match put_zeros(alloc, &mut out, 4 * plan.tables.imports.len()) {
        Ok(()) => Ok(out),
        Err(_) => Err(ForgeRefusal::OutOfMemory),
    }
}
