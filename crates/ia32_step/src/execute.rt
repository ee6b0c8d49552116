//! What an instruction does: a match over operations, which names each one's family.

ghost use Rattle.std.specs.Prelude.{◌≡◌, Ok, IfOk};
ghost use Rattle.ia32_step.specs.State.{machine};
ghost use Rattle.ia32_step.specs.Operands.{Leaves, settled, written, answer_to, after};
ghost use Rattle.ia32_step.specs.Meaning.{width_of, effect_of, meaning};

use crate::arithmetic::{altered, changed, compared, double_shifted, shifted};
use crate::bit_strings::{bit_done, scanned_back, scanned_forward};
use crate::conditions::holds;
use crate::control::{advance, called, gone, gone_if, left, looped, returned};
use crate::effects::{Stop, Write, commit};
use crate::moves::{
    compared_exchanged, converted, converted_double, exchanged, exchanged_added, loaded_address,
    moved, moved_if, moved_sign, moved_zero, set_if, swapped_bytes,
};
use crate::products::{
    divided, divided_signed, multiplied, multiplied_signed, multiplied_three, multiplied_two,
};
use crate::registers::{ECX, Regs};
use crate::stack::{
    all_popped, all_pushed, flags_loaded, flags_popped, flags_pushed, flags_stored, popped, pushed,
};
use crate::strings::{StringOp, string_done};
use ia32_arithmetic::{BinaryOp, BitOp, DoubleShiftOp, Flags, ShiftOp, UnaryOp, Width};
use ia32_decode::{Instr, Op};
use nd_mem::Memory;

#[inline(always)]
fn width_of(bytes: u8) -> Width
    ensures { result ≡ width_of bytes }
{
    match bytes {
        1 => Width::Byte,
        2 => Width::Word,
        _ => Width::Doubleword,
    }
}

/// CLC, CMC, STC
#[inline(always)]
fn with_carry(carry: bool, r: &mut Regs) -> Result<Write, Stop>
    ensures { Leaves result r.new (Ok (settled r.old (record r.old.flags { carry = carry }))) }
{
    r.flags.carry = carry;
    Ok(Write::Absent)
}

/// CLD, STD
#[inline(always)]
fn with_direction(direction: bool, r: &mut Regs) -> Result<Write, Stop>
    ensures { Leaves result r.new (Ok (settled r.old (record r.old.flags { direction = direction }))) }
{
    r.flags.direction = direction;
    Ok(Write::Absent)
}

/// What the instruction leaves, which begins at start, where EIP is already that of the next one.
#[tactic(auto, unfolding(crate::specs::Meaning::effect_of))]
#[inline(always)]
fn effect_of(i: &Instr, start: u32, r: &mut Regs, m: &Memory) -> Result<Write, Stop>
    ensures { Leaves result r.new (effect_of i.now start (machine r.old m.now)) }
{
    let w = width_of(i.width);
    match i.op {
        Op::Adc => changed(BinaryOp::Adc, i, w, r, m),
        Op::Add => changed(BinaryOp::Add, i, w, r, m),
        Op::And => changed(BinaryOp::And, i, w, r, m),
        Op::Bsf => scanned_forward(i, w, r, m),
        Op::Bsr => scanned_back(i, w, r, m),
        Op::Bswap => swapped_bytes(i, r, m),
        Op::Bt => bit_done(None, i, w, r, m),
        Op::Btc => bit_done(Some(BitOp::Complement), i, w, r, m),
        Op::Btr => bit_done(Some(BitOp::Reset), i, w, r, m),
        Op::Bts => bit_done(Some(BitOp::Set), i, w, r, m),
        Op::Call => called(i, r, m),
        Op::Clc => with_carry(false, r),
        Op::Cld => with_direction(false, r),
        Op::Cmc => with_carry(!r.flags.carry, r),
        Op::Cmovcc(c) => moved_if(holds(c, r.flags), i, w, r, m),
        Op::Cmp => compared(BinaryOp::Sub, i, w, r, m),
        Op::Cmps => string_done(StringOp::Cmps, i, w, start, r, m),
        Op::Cmpxchg => compared_exchanged(i, w, r, m),
        Op::Cdq => converted_double(w, r),
        Op::Cwde => converted(w, r),
        Op::Dec => altered(UnaryOp::Dec, i, w, r, m),
        Op::Div => divided(i, w, r, m),
        Op::Idiv => divided_signed(i, w, r, m),
        Op::Imul => multiplied_signed(i, w, r, m),
        Op::ImulRegister => multiplied_two(i, w, r, m),
        Op::ImulImmediate => multiplied_three(i, w, r, m),
        Op::Inc => altered(UnaryOp::Inc, i, w, r, m),
        Op::Jcc(c) => gone_if(holds(c, r.flags), i, r),
        Op::Jecxz => gone_if(r.general[ECX] == 0, i, r),
        Op::Jmp => gone(i, r, m),
        Op::Lahf => flags_loaded(r),
        Op::Lea => loaded_address(i, w, r),
        Op::Leave => left(r, m),
        Op::Lods => string_done(StringOp::Lods, i, w, start, r, m),
        Op::Loop => looped(true, i, r),
        Op::Loope => looped(r.flags.zero, i, r),
        Op::Loopne => looped(!r.flags.zero, i, r),
        Op::Mov => moved(i, w, r, m),
        Op::Movs => string_done(StringOp::Movs, i, w, start, r, m),
        Op::MovsxByte => moved_sign(Width::Byte, i, w, r, m),
        Op::MovsxWord => moved_sign(Width::Word, i, w, r, m),
        Op::MovzxByte => moved_zero(Width::Byte, i, w, r, m),
        Op::MovzxWord => moved_zero(Width::Word, i, w, r, m),
        Op::Mul => multiplied(i, w, r, m),
        Op::Neg => altered(UnaryOp::Neg, i, w, r, m),
        Op::Nop => Ok(Write::Absent),
        Op::Not => altered(UnaryOp::Not, i, w, r, m),
        Op::Or => changed(BinaryOp::Or, i, w, r, m),
        Op::Pop => popped(i, w, r, m),
        Op::Popad => all_popped(r, m),
        Op::Popfd => flags_popped(r, m),
        Op::Push => pushed(i, w, r, m),
        Op::Pushad => all_pushed(r),
        Op::Pushfd => flags_pushed(r),
        Op::Rcl => shifted(ShiftOp::Rcl, i, w, r, m),
        Op::Rcr => shifted(ShiftOp::Rcr, i, w, r, m),
        Op::Ret => returned(i, r, m),
        Op::Rol => shifted(ShiftOp::Rol, i, w, r, m),
        Op::Ror => shifted(ShiftOp::Ror, i, w, r, m),
        Op::Sahf => flags_stored(r),
        Op::Sar => shifted(ShiftOp::Sar, i, w, r, m),
        Op::Sbb => changed(BinaryOp::Sbb, i, w, r, m),
        Op::Scas => string_done(StringOp::Scas, i, w, start, r, m),
        Op::Setcc(c) => set_if(holds(c, r.flags), i, r),
        Op::Shl => shifted(ShiftOp::Shl, i, w, r, m),
        Op::ShldCl => double_shifted(DoubleShiftOp::Shld, r.general[ECX], i, w, r, m),
        Op::ShldImmediate => double_shifted(DoubleShiftOp::Shld, i.imm, i, w, r, m),
        Op::Shr => shifted(ShiftOp::Shr, i, w, r, m),
        Op::ShrdCl => double_shifted(DoubleShiftOp::Shrd, r.general[ECX], i, w, r, m),
        Op::ShrdImmediate => double_shifted(DoubleShiftOp::Shrd, i.imm, i, w, r, m),
        Op::Stc => with_carry(true, r),
        Op::Std => with_direction(true, r),
        Op::Stos => string_done(StringOp::Stos, i, w, start, r, m),
        Op::Sub => changed(BinaryOp::Sub, i, w, r, m),
        Op::Test => compared(BinaryOp::And, i, w, r, m),
        Op::Xadd => exchanged_added(i, w, r, m),
        Op::Xchg => exchanged(i, w, r, m),
        Op::Xor => changed(BinaryOp::Xor, i, w, r, m),
    }
}

/// Does the instruction, which so many bytes spell, and answers its write. Without a result nothing
/// changes.
#[tactic(auto, unfolding(crate::specs::Meaning::meaning, crate::specs::Operands::committed))]
#[inline(always)]
pub fn execute(i: &Instr, length: u8, r: &mut Regs, m: &mut Memory) -> Result<Write, Stop>
    ensures answer { answer_to result ≡ answer_to (meaning i.now length (machine r.old m.old)) }
    ensures state { machine r.new m.new ≡ after (meaning i.now length (machine r.old m.old)) (machine r.old m.old) }
    ensures write { IfOk result (λ write. written write r.old m.old ≡ Ok m.new) }
{
    let before = *r;
    advance(u32::from(length), r);
    let done = match effect_of(i, before.eip, r, m) {
        Ok(write) => match commit(write, &before, m) {
            Ok(()) => Ok(write),
            Err(stop) => Err(stop),
        },
        Err(stop) => Err(stop),
    };
    if done.is_err() {
        *r = before;
    }
    done
}
