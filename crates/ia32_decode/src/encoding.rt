//! Spelling an instruction: the prefixes, the opcode, and what its row says stands behind it (Intel
//! SDM volume 2, figure 2-1).

ghost use Rattle.std.specs.Prelude.{ℕ, ◌≡◌, ◌≤◌, ◌<◌, ◌+◌, ◌*◌, ◌^◌, ◌↔◌, IsTrue, IsSome, IfSome, List, [], ◌∷◌, ◌++◌, length, Option, Some, None, option_to_list, slice_index_or, Bool, true, false};
ghost use Rattle.ia32_decode.specs.Rows.{built, fits};
ghost use Rattle.ia32_decode.specs.Operands.{sign_extended};
ghost use Rattle.ia32_decode.specs.Decoding.{Spells};
ghost use Rattle.ia32_decode.specs.Encoding.{number_bytes, prefix_bytes, one_if, repeat_bytes, bytes_of, immediate_number, scale_field, index_field, mode_of, base_field, joined, place_fields, offset_fields, fields_of, is_rm, is_reg, rm_among, rm_of, register_of, reg_of, IsTail, IsTailOf, IsGroupTail, IsEntryTail, IsFormat, prefixes_of, IsLow, entry_of, IsFirstGroupTail, IsFirstTail, IsFirstIn, HasNone, IsChosenFormat, IsChosen, ChosenIsOne};
ghost use Rattle.ia32_decode.specs.Opcodes.{first_of, second_of};
ghost use Rattle.ia32_decode.specs.declared.instruction.Instr.{Instr};
ghost use Rattle.ia32_decode.specs.declared.rows.Entry.TheVariants as entry;
ghost use Rattle.ia32_decode.specs.declared.encoding.Tail.{Tail};

use crate::first_map::FIRST;
use crate::forms::{Addressing, Form, Immediate, Source};
use crate::instruction::{Instr, Op, Operand, Repeat};
use crate::operands::sign_extended;
use crate::prefixes::Prefixes;
use crate::reading::{built, fits, rows_of};
use crate::rows::{Entry, Row};
use crate::second_map::SECOND;
use crate::spelling::Spelling;

/// A displacement or an immediate, as it is spelled.
#[derive(Clone, Copy)]
pub enum Number {
    Absent,
    Byte(u8),
    Word(u16),
    Doubleword(u32),
}

/// The bytes that name a register or memory.
#[derive(Clone, Copy)]
pub struct Fields {
    pub modrm: Option<u8>,
    pub sib: Option<u8>,
    pub displacement: Number,
}

/// The mod field of a ModRM byte, a base, and the displacement.
#[derive(Clone, Copy)]
pub struct Based {
    pub mode: u8,
    pub base: u8,
    pub displacement: Number,
}

/// What stands behind an opcode.
#[derive(Clone, Copy)]
pub struct Tail {
    pub fields: Fields,
    pub immediate: Number,
}

/// The parts of an instruction. An opcode of the second map stands behind 0F.
#[derive(Clone, Copy)]
pub struct Format {
    pub prefixes: Prefixes,
    pub second: bool,
    pub opcode: u8,
    pub tail: Tail,
}

/// An immediate of the kind.
#[tactic(auto, unfolding(crate::specs::Encoding::immediate_number))]
fn immediate_number(kind: Immediate, short: bool, number: u32) -> Option<Number>
    ensures { result ≡ immediate_number kind short number }
{
    match kind {
        Immediate::Absent if number == 0 => Some(Number::Absent),
        Immediate::One if number == 1 => Some(Number::Absent),
        Immediate::Byte if number < 0x100 => Some(Number::Byte(number as u8)),
        Immediate::SignedByte => {
            let byte = (number % 0x100) as u8;
            if sign_extended(byte) == number {
                Some(Number::Byte(byte))
            } else {
                None
            }
        }
        Immediate::Word if number < 0x1_0000 => Some(Number::Word(number as u16)),
        Immediate::OperandSize if !short => Some(Number::Doubleword(number)),
        Immediate::OperandSize if number < 0x1_0000 => Some(Number::Word(number as u16)),
        Immediate::Doubleword => Some(Number::Doubleword(number)),
        _ => None,
    }
}

fn scale_field(index: u8, scale: u8) -> Option<u8>
    requires { index < 8 }
    ensures { result ≡ scale_field index scale }
{
    match scale {
        1 => Some(index),
        2 => Some(8 + index),
        4 => Some(16 + index),
        8 => Some(24 + index),
        _ => None,
    }
}

/// Bits 3 to 7 of a SIB byte.
#[tactic(auto, unfolding(crate::specs::Encoding::index_field))]
fn index_field(index: Option<u8>, scale: u8) -> Option<u8>
    ensures value { result ≡ index_field index scale }
    ensures fits { IfSome result (λ field. field < 32) }
{
    match index {
        None if scale == 1 => Some(4),
        Some(index) if index < 8 && index != 4 => scale_field(index, scale),
        _ => None,
    }
}

fn mode_of(base: u8, offset: u32) -> Based
    ensures value { result ≡ mode_of base offset }
    ensures mode { result.mode < 3 }
{
    let byte = (offset % 0x100) as u8;
    if offset == 0 && base != 5 {
        return Based {
            mode: 0,
            base,
            displacement: Number::Absent,
        };
    }
    if sign_extended(byte) == offset {
        return Based {
            mode: 1,
            base,
            displacement: Number::Byte(byte),
        };
    }
    Based {
        mode: 2,
        base,
        displacement: Number::Doubleword(offset),
    }
}

#[tactic(auto, unfolding(crate::specs::Encoding::base_field))]
fn base_field(base: Option<u8>, offset: u32) -> Option<Based>
    ensures value { result ≡ base_field base offset }
    ensures mode { IfSome result (λ based. based.mode < 3) }
    ensures base { IfSome result (λ based. based.base < 8) }
{
    match base {
        None => Some(Based {
            mode: 0,
            base: 5,
            displacement: Number::Doubleword(offset),
        }),
        Some(base) if base < 8 => Some(mode_of(base, offset)),
        Some(_) => None,
    }
}

#[tactic(auto, unfolding(crate::specs::Encoding::joined))]
fn joined(reg: u8, plain: bool, index: u8, based: Based) -> Fields
    requires reg { reg < 8 }
    requires index { index < 32 }
    requires mode { based.mode < 3 }
    requires base { based.base < 8 }
    ensures { result ≡ joined reg plain index based }
{
    let modrm = 64 * based.mode + 8 * reg;
    if plain && based.base != 4 {
        Fields {
            modrm: Some(modrm + based.base),
            sib: None,
            displacement: based.displacement,
        }
    } else {
        Fields {
            modrm: Some(modrm + 4),
            sib: Some(8 * index + based.base),
            displacement: based.displacement,
        }
    }
}

/// The bytes that name the register or memory, beside a reg field.
#[tactic(auto, unfolding(crate::specs::Encoding::place_fields))]
fn place_fields(rm: Operand, reg: u8) -> Option<Fields>
    requires { reg < 8 }
    ensures { result ≡ place_fields rm reg }
{
    match rm {
        Operand::Reg(register) if register < 8 => Some(Fields {
            modrm: Some(192 + 8 * reg + register),
            sib: None,
            displacement: Number::Absent,
        }),
        Operand::Place {
            base,
            index,
            scale,
            offset,
        } => {
            let field = index_field(index, scale)?;
            let based = base_field(base, offset)?;
            Some(joined(reg, index.is_none(), field, based))
        }
        _ => None,
    }
}

#[tactic(auto, unfolding(crate::specs::Encoding::offset_fields))]
fn offset_fields(rm: Operand) -> Option<Fields>
    ensures { result ≡ offset_fields rm }
{
    match rm {
        Operand::Place {
            base: None,
            index: None,
            scale: 1,
            offset,
        } => Some(Fields {
            modrm: None,
            sib: None,
            displacement: Number::Doubleword(offset),
        }),
        _ => None,
    }
}

fn fields_of(addressing: Addressing, rm: Operand, reg: u8) -> Option<Fields>
    requires { reg < 8 }
    ensures { result ≡ fields_of addressing rm reg }
{
    match addressing {
        Addressing::Absent => Some(Fields {
            modrm: None,
            sib: None,
            displacement: Number::Absent,
        }),
        Addressing::Any | Addressing::Memory => place_fields(rm, reg),
        Addressing::Offset => offset_fields(rm),
    }
}

fn is_rm(source: Source) -> bool
    ensures { result ≡ is_rm source }
{
    matches!(source, Source::Rm)
}

fn is_reg(source: Source) -> bool
    ensures { result ≡ is_reg source }
{
    matches!(source, Source::Reg)
}

fn rm_among(form: Form, first: Operand, second: Operand) -> Operand
    ensures { result ≡ rm_among form first second }
{
    if is_rm(form.first) {
        first
    } else if is_rm(form.second) {
        second
    } else {
        Operand::Place {
            base: None,
            index: None,
            scale: 1,
            offset: 0,
        }
    }
}

/// The operand that the addressing names.
#[tactic(auto, unfolding(crate::specs::Encoding::rm_of))]
fn rm_of(form: Form, instruction: Instr) -> Operand
    ensures { result ≡ rm_of form instruction }
{
    match form.addressing {
        Addressing::Absent => Operand::Absent,
        Addressing::Any | Addressing::Memory | Addressing::Offset => {
            rm_among(form, instruction.first, instruction.second)
        }
    }
}

fn register_of(operand: Operand) -> u8
    ensures value { result ≡ register_of operand }
    ensures low { result < 8 }
{
    match operand {
        Operand::Reg(register) => register % 8,
        Operand::Absent | Operand::Place { .. } | Operand::Imm => 0,
    }
}

/// The reg field that the form's operands ask for.
#[tactic(auto, unfolding(crate::specs::Encoding::reg_of))]
fn reg_of(form: Form, instruction: Instr) -> u8
    ensures value { result ≡ reg_of form instruction }
    ensures low { result < 8 }
{
    if is_reg(form.first) {
        register_of(instruction.first)
    } else if is_reg(form.second) {
        register_of(instruction.second)
    } else {
        0
    }
}

/// What `==` says too; but of an enum this long its proof gives up.
macro_rules! same_op {
    ($one:ident $other:ident; $($op:ident)*; $($op_if:ident)*) => {
        match $one {
            $(Op::$op => matches!($other, Op::$op),)*
            $(Op::$op_if(one) => match $other {
                Op::$op_if(other) => one == other,
                _ => false,
            },)*
        }
    };
}

fn is_same_op(one: Op, other: Op) -> bool
    ensures { IsTrue result ↔ (one ≡ other) }
{
    same_op!(one other;
        Adc Add And Bsf Bsr Bswap Bt Btc Btr Bts Call Clc Cld Cmc Cmp Cmps Cmpxchg Cdq Cwde Dec
        Div Idiv Imul ImulRegister ImulImmediate Inc Jecxz Jmp Lahf Lea Leave Lods Loop Loope
        Loopne Mov Movs MovsxByte MovsxWord MovzxByte MovzxWord Mul Neg Nop Not Or Pop Popad
        Popfd Push Pushad Pushfd Rcl Rcr Ret Rol Ror Sahf Sar Sbb Scas Shl ShldCl ShldImmediate
        Shr ShrdCl ShrdImmediate Stc Std Stos Sub Test Xadd Xchg Xor;
        Cmovcc Jcc Setcc)
}

fn is_same_operand(one: Operand, other: Operand) -> bool
    ensures { IsTrue result ↔ (one ≡ other) }
{
    one == other
}

fn is_same_repeat(one: Repeat, other: Repeat) -> bool
    ensures { IsTrue result ↔ (one ≡ other) }
{
    one == other
}

fn is_same(one: Instr, other: Instr) -> bool
    ensures { IsTrue result ↔ (one ≡ other) }
{
    if !is_same_op(one.op, other.op) {
        return false;
    }
    if one.width != other.width || one.imm != other.imm || one.lock != other.lock {
        return false;
    }
    if !is_same_operand(one.first, other.first) {
        return false;
    }
    if !is_same_operand(one.second, other.second) {
        return false;
    }
    is_same_repeat(one.repeat, other.repeat)
}

/// What stands behind the row's opcode, with this reg field.
fn row_tail(prefixes: Prefixes, opcode: u8, row: Row, reg: u8, instruction: Instr) -> Option<Tail>
    requires { reg < 8 }
    ensures found { IfSome result (λ tail. IsTail prefixes opcode row reg instruction tail) }
    ensures none { (tail : Tail) → IsTail prefixes opcode row reg instruction tail → IsSome result }
{
    let rm = rm_of(row.form, instruction);
    let fields = fields_of(row.form.addressing, rm, reg)?;
    let immediate = immediate_number(row.form.immediate, prefixes.operand_size, instruction.imm)?;
    let modrm = fields.modrm.unwrap_or(0);
    let own = built(prefixes, opcode, &row, modrm, rm, instruction.imm);
    if fits(prefixes, &row, modrm) && is_same(own, instruction) {
        Some(Tail { fields, immediate })
    } else {
        None
    }
}

/// What stands behind the opcode, of rows that the reg field tells apart.
fn group_tail(
    prefixes: Prefixes,
    opcode: u8,
    rows: &[Option<Row>],
    instruction: Instr,
) -> Option<Tail>
    requires { length rows.now ≡ 8 }
    ensures found { IfSome result (λ tail. IsGroupTail prefixes opcode rows.now instruction tail) }
    ensures first { IfSome result (λ tail. IsFirstGroupTail prefixes opcode rows.now instruction tail) }
    ensures none { (tail : Tail) → IsGroupTail prefixes opcode rows.now instruction tail → IsSome result }
{
    for (reg, row) in rows.iter().enumerate() {
        let tail = match row {
            Some(row) => row_tail(prefixes, opcode, *row, reg as u8, instruction),
            None => None,
        };
        if tail.is_some() {
            return tail;
        }
    }
    None
}

/// What stands behind the opcode.
fn entry_tail(prefixes: Prefixes, opcode: u8, entry: Entry, instruction: Instr) -> Option<Tail>
    ensures found { IfSome result (λ tail. IsEntryTail prefixes opcode entry instruction tail) }
    ensures first { IfSome result (λ tail. IsFirstTail prefixes opcode entry instruction tail) }
    ensures none { (tail : Tail) → IsEntryTail prefixes opcode entry instruction tail → IsSome result }
{
    match entry {
        Entry::Outside | Entry::Escape => None,
        Entry::One(row) => {
            row_tail(
                prefixes,
                opcode,
                row,
                reg_of(row.form, instruction),
                instruction,
            )
        }
        Entry::Group(group) => group_tail(prefixes, opcode, rows_of(group), instruction),
    }
}

/// The first opcode of a map that spells the instruction behind these prefixes, and what stands
/// behind it.
fn find(entries: &[Entry], prefixes: Prefixes, instruction: Instr) -> Option<(u8, Tail)>
    requires { length entries.now ≡ 256 }
    ensures found { IfSome result (λ x. IsEntryTail prefixes x.0 (slice_index_or entries.now x.0 entry.Outside) instruction x.1) }
    ensures first { IfSome result (λ x. IsFirstIn (λ opcode. slice_index_or entries.now opcode entry.Outside) prefixes instruction x.0 x.1) }
    ensures none { (opcode : ℕ) (tail : Tail) → opcode < 256 → IsEntryTail prefixes opcode (slice_index_or entries.now opcode entry.Outside) instruction tail → IsSome result }
{
    for (opcode, entry) in entries.iter().enumerate() {
        let opcode = opcode as u8;
        if let Some(tail) = entry_tail(prefixes, opcode, *entry, instruction) {
            return Some((opcode, tail));
        }
    }
    None
}

#[tactic(auto, unfolding(crate::specs::Opcodes::first_of))]
fn find_first(prefixes: Prefixes, instruction: Instr) -> Option<(u8, Tail)>
    ensures found { IfSome result (λ x. IsEntryTail prefixes x.0 (first_of x.0) instruction x.1) }
    ensures first { IfSome result (λ x. IsFirstIn (entry_of false) prefixes instruction x.0 x.1) }
    ensures none { (opcode : ℕ) (tail : Tail) → opcode < 256 → IsEntryTail prefixes opcode (first_of opcode) instruction tail → IsSome result }
{
    find(&FIRST, prefixes, instruction)
}

#[tactic(auto, unfolding(crate::specs::Opcodes::second_of))]
fn find_second(prefixes: Prefixes, instruction: Instr) -> Option<(u8, Tail)>
    ensures found { IfSome result (λ x. IsEntryTail prefixes x.0 (second_of x.0) instruction x.1) }
    ensures first { IfSome result (λ x. IsFirstIn (entry_of true) prefixes instruction x.0 x.1) }
    ensures none { (opcode : ℕ) (tail : Tail) → opcode < 256 → IsEntryTail prefixes opcode (second_of opcode) instruction tail → IsSome result }
{
    find(&SECOND, prefixes, instruction)
}

/// The parts of an instruction behind these prefixes. An opcode of the second map is tried first, so
/// that a conditional jump has its long form.
fn format_behind(prefixes: Prefixes, instruction: Instr) -> Option<Format>
    ensures prefixes { IfSome result (λ format. format.prefixes ≡ prefixes) }
    ensures found { IfSome result (λ format. IsFormat instruction format) }
    ensures lowest { IfSome result (λ format. IsFirstIn (entry_of format.second) prefixes instruction format.opcode format.tail) }
    ensures no_second { IfSome result (λ format. format.second ≡ false → HasNone second_of prefixes instruction) }
    ensures first { (opcode : ℕ) (tail : Tail) → opcode < 256 → IsEntryTail prefixes opcode (first_of opcode) instruction tail → IsSome result }
    ensures second { (opcode : ℕ) (tail : Tail) → opcode < 256 → IsEntryTail prefixes opcode (second_of opcode) instruction tail → IsSome result }
{
    if let Some((opcode, tail)) = find_second(prefixes, instruction) {
        return Some(Format {
            prefixes,
            second: true,
            opcode,
            tail,
        });
    }
    match find_first(prefixes, instruction) {
        Some((opcode, tail)) => Some(Format {
            prefixes,
            second: false,
            opcode,
            tail,
        }),
        None => None,
    }
}

/// The parts of an instruction, without the prefix 66 where it can be.
fn format_of(instruction: Instr) -> Option<Format>
    ensures found { IfSome result (λ format. IsFormat instruction format) }
    ensures chosen { IfSome result (λ format. IsChosenFormat instruction format) }
    ensures first { (short : Bool) (opcode : ℕ) (tail : Tail) → opcode < 256 → IsEntryTail (prefixes_of instruction short) opcode (first_of opcode) instruction tail → IsSome result }
    ensures second { (short : Bool) (opcode : ℕ) (tail : Tail) → opcode < 256 → IsEntryTail (prefixes_of instruction short) opcode (second_of opcode) instruction tail → IsSome result }
{
    let plain = Prefixes {
        operand_size: false,
        lock: instruction.lock,
        repeat: instruction.repeat,
    };
    match format_behind(plain, instruction) {
        Some(format) => Some(format),
        None => {
            let short = Prefixes {
                operand_size: true,
                lock: instruction.lock,
                repeat: instruction.repeat,
            };
            format_behind(short, instruction)
        }
    }
}

// ---- writing the parts

fn push_number(out: &mut Spelling, number: Number)
    requires { length out.old ≤ 11 }
    ensures bytes { out.new ≡ out.old ++ number_bytes number }
    ensures room { length out.new ≤ length out.old + 4 }
{
    match number {
        Number::Absent => {}
        Number::Byte(byte) => out.push(byte),
        Number::Word(word) => {
            let [a, b] = word.to_le_bytes();
            out.push(a);
            out.push(b);
        }
        Number::Doubleword(doubleword) => {
            let [a, b, c, d] = doubleword.to_le_bytes();
            out.push(a);
            out.push(b);
            out.push(c);
            out.push(d);
        }
    }
}

fn push_option(out: &mut Spelling, byte: Option<u8>)
    requires { length out.old ≤ 14 }
    ensures bytes { out.new ≡ out.old ++ option_to_list byte }
    ensures room { length out.new ≤ length out.old + 1 }
{
    if let Some(byte) = byte {
        out.push(byte);
    }
}

fn push_if(out: &mut Spelling, holds: bool, byte: u8)
    requires { length out.old ≤ 14 }
    ensures bytes { out.new ≡ out.old ++ one_if holds byte }
    ensures room { length out.new ≤ length out.old + 1 }
{
    if holds {
        out.push(byte);
    }
}

fn push_repeat(out: &mut Spelling, repeat: Repeat)
    requires { length out.old ≤ 14 }
    ensures bytes { out.new ≡ out.old ++ repeat_bytes repeat }
    ensures room { length out.new ≤ length out.old + 1 }
{
    match repeat {
        Repeat::Absent => {}
        Repeat::F2 => out.push(0xF2),
        Repeat::F3 => out.push(0xF3),
    }
}

fn bytes_of(format: Format) -> Spelling
    ensures bytes { result ≡ bytes_of format }
    ensures low { IsLow format }
{
    let mut out = Spelling::new();
    push_if(&mut out, format.prefixes.operand_size, 0x66);
    push_if(&mut out, format.prefixes.lock, 0xF0);
    push_repeat(&mut out, format.prefixes.repeat);
    push_if(&mut out, format.second, 0x0F);
    out.push(format.opcode);
    push_option(&mut out, format.tail.fields.modrm);
    push_option(&mut out, format.tail.fields.sib);
    push_number(&mut out, format.tail.fields.displacement);
    push_number(&mut out, format.tail.immediate);
    out
}

/// Bytes that spell the instruction; none where no bytes do. Of several spellings it is the chosen
/// one: without the prefix 66, if there is one, and then with the first opcode of the second map, or
/// else of the first. So the size of a jump's spelling does not depend on where it leads, unless it
/// has no long form, and immediates have their widest form; displacements in memory operands have
/// their shortest.
pub fn encode(instruction: &Instr) -> Option<Spelling>
    ensures spelled { IfSome result (λ spelling. Spells spelling instruction.now) }
    ensures chosen { IfSome result (λ spelling. IsChosen instruction.now spelling) }
    ensures none { (bytes : List ℕ) → Spells bytes instruction.now → IsSome result }
{
    match format_of(*instruction) {
        Some(format) => Some(bytes_of(format)),
        None => None,
    }
}

/// No instruction has two chosen spellings.
pub fn chosen_is_one()
    ensures { ChosenIsOne }
{}
