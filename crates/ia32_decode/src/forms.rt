//! The forms of operands, named as in the opcode maps of Intel SDM volume 2, appendix A: E is a
//! register or memory that the ModRM byte names, G the register in its reg field, M memory alone, Z
//! the register in the opcode's low bits, O memory at an offset, I an immediate, J a displacement; b
//! is a byte, w two bytes, d four, v two behind the prefix 66 and else four, z an immediate as wide
//! as v, bx a byte with its sign.

/// How many bytes an operation works on.
#[derive(Clone, Copy)]
pub enum Width {
    /// One.
    Byte,
    /// Two behind the prefix 66, else four.
    OperandSize,
    /// Four.
    Doubleword,
}

/// What names a register or memory as an operand.
#[derive(Clone, Copy)]
pub enum Addressing {
    /// Nothing does.
    Absent,
    /// A ModRM byte.
    Any,
    /// A ModRM byte that may not name a register.
    Memory,
    /// An offset alone, four bytes.
    Offset,
}

/// The immediate, and how it becomes 32 bits.
#[derive(Clone, Copy)]
pub enum Immediate {
    /// There is none.
    Absent,
    /// 1, which no byte spells.
    One,
    /// A byte.
    Byte,
    /// A byte with its sign.
    SignedByte,
    /// Two bytes.
    Word,
    /// Two bytes behind the prefix 66, else four.
    OperandSize,
    /// Four bytes.
    Doubleword,
}

/// What an operand is.
#[derive(Clone, Copy)]
pub enum Source {
    Absent,
    /// What `Addressing` names.
    Rm,
    /// The register in bits 3 to 5 of the ModRM byte.
    Reg,
    /// The register in the low three bits of the opcode.
    Opcode,
    /// AL, AX or EAX.
    Accumulator,
    /// CL.
    Counter,
    /// The immediate.
    Immediate,
}

/// The operands of an instruction, and what spells them.
#[derive(Clone, Copy)]
pub struct Form {
    pub width: Width,
    pub addressing: Addressing,
    pub first: Source,
    pub second: Source,
    pub immediate: Immediate,
}

macro_rules! form {
    ($width:ident $addressing:ident $first:ident $second:ident $immediate:ident) => {
        Form {
            width: Width::$width,
            addressing: Addressing::$addressing,
            first: Source::$first,
            second: Source::$second,
            immediate: Immediate::$immediate,
        }
    };
}

/// No operand, or those that the mnemonic implies: one byte wide, v wide, four bytes wide.
pub const B: Form = form!(Byte Absent Absent Absent Absent);

pub const V: Form = form!(OperandSize Absent Absent Absent Absent);

pub const D: Form = form!(Doubleword Absent Absent Absent Absent);

pub const EB: Form = form!(Byte Any Rm Absent Absent);

pub const EV: Form = form!(OperandSize Any Rm Absent Absent);

pub const ED: Form = form!(Doubleword Any Rm Absent Absent);

pub const EB_GB: Form = form!(Byte Any Rm Reg Absent);

pub const EV_GV: Form = form!(OperandSize Any Rm Reg Absent);

pub const GB_EB: Form = form!(Byte Any Reg Rm Absent);

pub const GV_EV: Form = form!(OperandSize Any Reg Rm Absent);
/// The operation names the width of what is extended.
pub const GV_EB: Form = GV_EV;

pub const GV_EW: Form = GV_EV;

pub const GV_M: Form = form!(OperandSize Memory Reg Rm Absent);

pub const EB_IB: Form = form!(Byte Any Rm Immediate Byte);

pub const EV_IB: Form = form!(OperandSize Any Rm Immediate Byte);

pub const EV_IZ: Form = form!(OperandSize Any Rm Immediate OperandSize);

pub const EV_IBX: Form = form!(OperandSize Any Rm Immediate SignedByte);

pub const EB_1: Form = form!(Byte Any Rm Immediate One);

pub const EV_1: Form = form!(OperandSize Any Rm Immediate One);

pub const EB_CL: Form = form!(Byte Any Rm Counter Absent);

pub const EV_CL: Form = form!(OperandSize Any Rm Counter Absent);

/// The operation names the third operand.
pub const EV_GV_IB: Form = form!(OperandSize Any Rm Reg Byte);

pub const EV_GV_CL: Form = EV_GV;

pub const GV_EV_IZ: Form = form!(OperandSize Any Reg Rm OperandSize);

pub const GV_EV_IBX: Form = form!(OperandSize Any Reg Rm SignedByte);

pub const AL_IB: Form = form!(Byte Absent Accumulator Immediate Byte);

pub const EAX_IZ: Form = form!(OperandSize Absent Accumulator Immediate OperandSize);

pub const EAX_ZV: Form = form!(OperandSize Absent Accumulator Opcode Absent);

pub const AL_OB: Form = form!(Byte Offset Accumulator Rm Absent);

pub const EAX_OV: Form = form!(OperandSize Offset Accumulator Rm Absent);

pub const OB_AL: Form = form!(Byte Offset Rm Accumulator Absent);

pub const OV_EAX: Form = form!(OperandSize Offset Rm Accumulator Absent);

pub const ZV: Form = form!(OperandSize Absent Opcode Absent Absent);

pub const ZD: Form = form!(Doubleword Absent Opcode Absent Absent);

pub const ZB_IB: Form = form!(Byte Absent Opcode Immediate Byte);

pub const ZV_IZ: Form = form!(OperandSize Absent Opcode Immediate OperandSize);

pub const IW: Form = form!(Doubleword Absent Immediate Absent Word);

pub const IZ: Form = form!(OperandSize Absent Immediate Absent OperandSize);

pub const IBX: Form = form!(OperandSize Absent Immediate Absent SignedByte);

pub const JB: Form = form!(Doubleword Absent Immediate Absent SignedByte);

pub const JD: Form = form!(Doubleword Absent Immediate Absent Doubleword);
