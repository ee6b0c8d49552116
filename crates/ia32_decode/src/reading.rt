//! Reading what stands behind the prefixes: an opcode, and what its row says (Intel SDM volume 2,
//! sections 2.1 and 3.1.1).

ghost use Rattle.std.specs.Prelude.{◌≡◌, ◌<◌, length, suc, true, if◌then◌else◌};
ghost use Rattle.std.specs.List.{list_any};
ghost use Rattle.codes.specs.declared.Stop.TheVariants.{Outside, More};
ghost use Rattle.codes.specs.Codes.{Gives};
ghost use Rattle.ia32_decode.specs.Rows.{width_of, operand_of, built, permits, allows, fits, ending, after_modrm, may_fit, by_modrm, at_offset, addressed};
ghost use Rattle.ia32_decode.specs.Opcodes.{first_of, second_of, rows_of, row_of, may_allow, opens, behind_opcode, extended, body};

use crate::first_map::FIRST;
use crate::forms::{Addressing, Source, Width};
use crate::groups::{
    GROUP_0FBA, GROUP_8F, GROUP_80, GROUP_81, GROUP_83, GROUP_C0, GROUP_C1, GROUP_C6, GROUP_C7,
    GROUP_D0, GROUP_D1, GROUP_D2, GROUP_D3, GROUP_F6, GROUP_F7, GROUP_FE, GROUP_FF,
};
use crate::instruction::{Instr, Operand, Repeat};
use crate::operands::{immediate, offset_alone, place};
use crate::prefixes::{Prefixes, is_absent};
use crate::rows::{Entry, Group, Repeats, Row};
use crate::second_map::SECOND;
use codes::Stop;

#[inline(always)]
fn width_of(width: Width, short: bool) -> u8
    ensures { result ≡ width_of width short }
{
    match width {
        Width::Byte => 1,
        Width::OperandSize if short => 2,
        Width::OperandSize | Width::Doubleword => 4,
    }
}

#[inline(always)]
fn operand_of(source: Source, opcode: u8, modrm: u8, rm: Operand) -> Operand
    ensures { result ≡ operand_of source opcode modrm rm }
{
    match source {
        Source::Absent => Operand::Absent,
        Source::Rm => rm,
        Source::Reg => Operand::Reg(modrm / 8 % 8),
        Source::Opcode => Operand::Reg(opcode % 8),
        Source::Accumulator => Operand::Reg(0),
        Source::Counter => Operand::Reg(1),
        Source::Immediate => Operand::Imm,
    }
}

#[tactic(auto, unfolding(crate::specs::Rows::built))]
#[inline(always)]
pub fn built(
    prefixes: Prefixes,
    opcode: u8,
    row: &Row,
    modrm: u8,
    rm: Operand,
    immediate: u32,
) -> Instr
    ensures { result ≡ built prefixes opcode row.now modrm rm immediate }
{
    Instr {
        op: row.op,
        width: width_of(row.form.width, prefixes.operand_size),
        first: operand_of(row.form.first, opcode, modrm, rm),
        second: operand_of(row.form.second, opcode, modrm, rm),
        imm: immediate,
        repeat: prefixes.repeat,
        lock: prefixes.lock,
    }
}

#[inline(always)]
fn permits(permitted: Repeats, repeat: Repeat) -> bool
    ensures { result ≡ permits permitted repeat }
{
    match permitted {
        Repeats::Neither => is_absent(repeat),
        Repeats::Three => matches!(repeat, Repeat::Absent | Repeat::F3),
        Repeats::Either => true,
    }
}

/// May these prefixes stand before the row?
#[tactic(auto, unfolding(crate::specs::Rows::allows))]
#[inline(always)]
pub fn allows(prefixes: Prefixes, row: &Row) -> bool
    ensures { result ≡ allows prefixes row.now }
{
    (!prefixes.operand_size || row.permits.operand_size)
        && (!prefixes.lock || row.permits.lock)
        && permits(row.permits.repeat, prefixes.repeat)
}

/// And before this ModRM byte?
#[tactic(auto, unfolding(crate::specs::Rows::fits))]
#[inline(always)]
pub fn fits(prefixes: Prefixes, row: &Row, modrm: u8) -> bool
    ensures { result ≡ fits prefixes row.now modrm }
{
    allows(prefixes, row)
        && (!prefixes.lock && !matches!(row.form.addressing, Addressing::Memory) || modrm < 0xC0)
}

#[tactic(auto, unfolding(crate::specs::Rows::ending))]
#[inline(always)]
fn ending<'a>(
    prefixes: Prefixes,
    opcode: u8,
    row: &Row,
    modrm: u8,
    rm: Operand,
    bytes: &'a [u8],
) -> Result<(Instr, &'a [u8]), Stop>
    ensures { Gives (λ x. (x.0, x.1.now)) result ((ending prefixes opcode row.now modrm rm).read bytes.now) }
{
    let (number, rest) = immediate(row.form.immediate, prefixes.operand_size, bytes)?;
    Ok((built(prefixes, opcode, row, modrm, rm, number), rest))
}

/// A row from behind the ModRM byte on, if they fit.
#[inline(always)]
fn behind_modrm<'a>(
    prefixes: Prefixes,
    opcode: u8,
    row: &Row,
    modrm: u8,
    bytes: &'a [u8],
) -> Result<(Instr, &'a [u8]), Stop>
    requires { length bytes.now < usize.MAX }
    ensures { Gives (λ x. (x.0, x.1.now)) result (if fits prefixes row.now modrm then (after_modrm prefixes opcode modrm (Some row.now)).read bytes.now else Err (Outside (suc (length bytes.now)))) }
{
    if !fits(prefixes, row, modrm) {
        return Err(Stop::Outside(bytes.len() + 1));
    }
    let (rm, rest) = place(modrm, bytes)?;
    ending(prefixes, opcode, row, modrm, rm, rest)
}

#[tactic(auto, unfolding(crate::specs::Rows::at_offset))]
#[inline(always)]
fn at_offset<'a>(
    prefixes: Prefixes,
    opcode: u8,
    row: &Row,
    bytes: &'a [u8],
) -> Result<(Instr, &'a [u8]), Stop>
    ensures { Gives (λ x. (x.0, x.1.now)) result ((at_offset prefixes opcode row.now).read bytes.now) }
{
    let (rm, rest) = offset_alone(bytes)?;
    ending(prefixes, opcode, row, 0, rm, rest)
}

#[tactic(auto, unfolding(crate::specs::Rows::by_modrm))]
#[inline(always)]
fn one<'a>(
    prefixes: Prefixes,
    opcode: u8,
    row: &Row,
    bytes: &'a [u8],
) -> Result<(Instr, &'a [u8]), Stop>
    requires { allows prefixes row.now ≡ true }
    ensures { Gives (λ x. (x.0, x.1.now)) result ((addressed prefixes opcode row.now row.now.form.addressing).read bytes.now) }
{
    match row.form.addressing {
        Addressing::Absent => ending(prefixes, opcode, row, 0, Operand::Absent, bytes),
        Addressing::Offset => at_offset(prefixes, opcode, row, bytes),
        Addressing::Any | Addressing::Memory => match bytes.split_first() {
            Some((modrm, rest)) => behind_modrm(prefixes, opcode, row, *modrm, rest),
            None => Err(Stop::More),
        },
    }
}

#[tactic(auto, unfolding(crate::specs::Opcodes::rows_of))]
#[inline(always)]
pub fn rows_of(group: Group) -> &'static [Option<Row>; 8]
    ensures { result.now ≡ rows_of group }
{
    match group {
        Group::At80 => &GROUP_80,
        Group::At81 => &GROUP_81,
        Group::At83 => &GROUP_83,
        Group::At8F => &GROUP_8F,
        Group::AtC0 => &GROUP_C0,
        Group::AtC1 => &GROUP_C1,
        Group::AtC6 => &GROUP_C6,
        Group::AtC7 => &GROUP_C7,
        Group::AtD0 => &GROUP_D0,
        Group::AtD1 => &GROUP_D1,
        Group::AtD2 => &GROUP_D2,
        Group::AtD3 => &GROUP_D3,
        Group::AtF6 => &GROUP_F6,
        Group::AtF7 => &GROUP_F7,
        Group::AtFE => &GROUP_FE,
        Group::AtFF => &GROUP_FF,
        Group::At0FBA => &GROUP_0FBA,
    }
}

#[tactic(auto, unfolding(crate::specs::Rows::by_modrm))]
#[inline(always)]
fn grouped(
    prefixes: Prefixes,
    opcode: u8,
    group: Group,
    bytes: &[u8],
) -> Result<(Instr, &[u8]), Stop>
    ensures { Gives (λ x. (x.0, x.1.now)) result ((by_modrm prefixes opcode (row_of group)).read bytes.now) }
{
    match bytes.split_first() {
        Some((modrm, rest)) => {
            match &rows_of(group)[usize::from(*modrm / 8 % 8)] {
                Some(row) => behind_modrm(prefixes, opcode, row, *modrm, rest),
                None => Err(Stop::Outside(bytes.len())),
            }
        }
        None => Err(Stop::More),
    }
}

#[inline(always)]
fn may_allow(prefixes: Prefixes, row: &Option<Row>) -> bool
    ensures { result ≡ may_allow prefixes row.now }
{
    match row {
        Some(row) => allows(prefixes, row),
        None => false,
    }
}

fn any_allow(prefixes: Prefixes, rows: &[Option<Row>]) -> bool
    ensures { result ≡ list_any (may_allow prefixes) rows.now }
{
    rows.iter().any(|row| may_allow(prefixes, row))
}

/// May these prefixes stand before some row of the entry?
#[inline(always)]
fn opens(prefixes: Prefixes, entry: &Entry) -> bool
    ensures { result ≡ opens prefixes entry.now }
{
    match entry {
        Entry::Outside | Entry::Escape => false,
        Entry::One(row) => allows(prefixes, row),
        Entry::Group(group) => any_allow(prefixes, rows_of(*group)),
    }
}

/// What stands behind an opcode.
#[tactic(auto, unfolding(crate::specs::Opcodes::behind_opcode))]
#[inline(always)]
fn behind_opcode<'a>(
    prefixes: Prefixes,
    opcode: u8,
    entry: &Entry,
    bytes: &'a [u8],
) -> Result<(Instr, &'a [u8]), Stop>
    requires { opens prefixes entry.now ≡ true }
    ensures { Gives (λ x. (x.0, x.1.now)) result ((behind_opcode prefixes opcode entry.now).read bytes.now) }
{
    match entry {
        Entry::Outside | Entry::Escape => Err(Stop::Outside(bytes.len())),
        Entry::One(row) => one(prefixes, opcode, row, bytes),
        Entry::Group(group) => grouped(prefixes, opcode, *group, bytes),
    }
}

#[tactic(auto, unfolding(crate::specs::Opcodes::first_of))]
#[inline(always)]
pub fn first_of(opcode: u8) -> &'static Entry
    ensures { result.now ≡ first_of opcode }
{
    &FIRST[usize::from(opcode)]
}

#[tactic(auto, unfolding(crate::specs::Opcodes::second_of))]
#[inline(always)]
pub fn second_of(opcode: u8) -> &'static Entry
    ensures { result.now ≡ second_of opcode }
{
    &SECOND[usize::from(opcode)]
}

/// What stands behind 0F.
#[tactic(auto, unfolding(crate::specs::Opcodes::extended))]
fn extended(prefixes: Prefixes, bytes: &[u8]) -> Result<(Instr, &[u8]), Stop>
    ensures { Gives (λ x. (x.0, x.1.now)) result ((extended prefixes).read bytes.now) }
{
    match bytes.split_first() {
        Some((opcode, rest)) => {
            let entry = second_of(*opcode);
            if opens(prefixes, entry) {
                behind_opcode(prefixes, *opcode, entry, rest)
            } else {
                Err(Stop::Outside(bytes.len()))
            }
        }
        None => Err(Stop::More),
    }
}

/// The opcode, and what stands behind it.
#[tactic(auto, unfolding(crate::specs::Opcodes::body, crate::specs::Opcodes::opens_first))]
#[inline(always)]
pub fn body(prefixes: Prefixes, bytes: &[u8]) -> Result<(Instr, &[u8]), Stop>
    ensures { Gives (λ x. (x.0, x.1.now)) result ((body prefixes).read bytes.now) }
{
    match bytes.split_first() {
        Some((opcode, rest)) => match first_of(*opcode) {
            Entry::Escape if is_absent(prefixes.repeat) => extended(prefixes, rest),
            entry if opens(prefixes, entry) => behind_opcode(prefixes, *opcode, entry, rest),
            _ => Err(Stop::Outside(bytes.len())),
        },
        None => Err(Stop::More),
    }
}
