//! Operations as instructions (Intel SDM volume 2, the pages of the instructions).

ghost use Rattle.std.specs.Prelude.{◌≡◌};
ghost use Rattle.asm_encode.specs.Operations.{instruction_of, plain, alone, on, shift, double_shift, multiply, from_width, extend, to, form_of};

use crate::operation::{
    Operation, agreed, both, is_absent, is_count, is_counter, is_value, operand_of, width_of,
};
use asm_lines::Mnemonic;
use ia32_decode::{Instr, Op};

/// What an operation is, but for its operands.
#[derive(Clone, Copy)]
pub struct Form {
    pub op: Op,
    pub width: u8,
    /// Whether its value is the address that a jump leads to.
    pub is_jump: bool,
}

/// The operation as an instruction of a form, with numbers.
#[tactic(auto, unfolding(crate::specs::Operations::instruction_of))]
pub fn instruction_of(operation: Operation, form: Form, value: u32, offset: u32) -> Instr
    ensures { result ≡ instruction_of operation form value offset }
{
    Instr {
        op: form.op,
        width: form.width,
        first: operand_of(operation.first, offset),
        second: operand_of(operation.second, offset),
        imm: value,
        repeat: operation.prefix.repeat,
        lock: operation.prefix.lock,
    }
}

fn plain(op: Op, width: u8) -> Form
    ensures { result ≡ plain op width }
{
    Form {
        op,
        width,
        is_jump: false,
    }
}

#[tactic(auto, unfolding(crate::specs::Operations::alone))]
fn alone(operation: Operation, op: Op, width: u8) -> Option<Form>
    ensures { result ≡ alone operation op width }
{
    if is_absent(operation.first) && (is_absent(operation.second) && is_absent(operation.third)) {
        Some(plain(op, width))
    } else {
        None
    }
}

#[tactic(auto, unfolding(crate::specs::Operations::on))]
fn on(operation: Operation, op: Op) -> Option<Form>
    ensures { result ≡ on operation op }
{
    if !is_absent(operation.third) {
        return None;
    }
    let width = agreed(width_of(operation.first), width_of(operation.second))?;
    Some(plain(op, width))
}

#[tactic(auto, unfolding(crate::specs::Operations::shift))]
fn shift(operation: Operation, op: Op) -> Option<Form>
    ensures { result ≡ shift operation op }
{
    if !is_absent(operation.third) || !is_count(operation.second) {
        return None;
    }
    Some(plain(op, width_of(operation.first)?))
}

#[tactic(auto, unfolding(crate::specs::Operations::double_shift))]
fn double_shift(operation: Operation, by_counter: Op, by_number: Op) -> Option<Form>
    ensures { result ≡ double_shift operation by_counter by_number }
{
    if !is_count(operation.third) {
        return None;
    }
    let op = if is_counter(operation.third) {
        by_counter
    } else {
        by_number
    };
    let width = both(width_of(operation.first), width_of(operation.second))?;
    Some(plain(op, width))
}

#[tactic(auto, unfolding(crate::specs::Operations::multiply))]
fn multiply(operation: Operation) -> Option<Form>
    ensures { result ≡ multiply operation }
{
    if is_value(operation.third) {
        let width = both(width_of(operation.first), width_of(operation.second))?;
        return Some(plain(Op::ImulImmediate, width));
    }
    if is_absent(operation.second) {
        on(operation, Op::Imul)
    } else {
        on(operation, Op::ImulRegister)
    }
}

fn from_width(from_byte: Op, from_word: Op, width: Option<u8>) -> Option<Op>
    ensures { result ≡ from_width from_byte from_word width }
{
    match width {
        Some(1) => Some(from_byte),
        Some(2) => Some(from_word),
        _ => None,
    }
}

#[tactic(auto, unfolding(crate::specs::Operations::extend))]
fn extend(operation: Operation, from_byte: Op, from_word: Op) -> Option<Form>
    ensures { result ≡ extend operation from_byte from_word }
{
    if !is_absent(operation.third) {
        return None;
    }
    let op = from_width(from_byte, from_word, width_of(operation.second))?;
    Some(plain(op, width_of(operation.first)?))
}

#[tactic(auto, unfolding(crate::specs::Operations::to))]
fn to(operation: Operation, op: Op) -> Option<Form>
    ensures { result ≡ to operation op }
{
    if !is_value(operation.first) {
        return on(operation, op);
    }
    if !is_absent(operation.second) || !is_absent(operation.third) {
        return None;
    }
    Some(Form {
        op,
        width: 4,
        is_jump: true,
    })
}

/// What an operation is as an instruction: none where its operands are of no form of its mnemonic.
#[tactic(auto, unfolding(crate::specs::Operations::form_of))]
pub fn form_of(operation: Operation) -> Option<Form>
    ensures { result ≡ form_of operation }
{
    match operation.mnemonic {
        Mnemonic::Alone(op, width) => alone(operation, op, width),
        Mnemonic::On(op) => on(operation, op),
        Mnemonic::Shift(op) => shift(operation, op),
        Mnemonic::DoubleShift(by_counter, by_number) => {
            double_shift(operation, by_counter, by_number)
        }
        Mnemonic::Multiply => multiply(operation),
        Mnemonic::Extend(from_byte, from_word) => extend(operation, from_byte, from_word),
        Mnemonic::To(op) => to(operation, op),
    }
}
