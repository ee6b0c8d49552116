//! Instructions, as they are decoded. Registers are numbered as in a ModRM byte: EAX, ECX, EDX, EBX,
//! ESP, EBP, ESI, EDI; AL, CL, DL, BL, AH, CH, DH, BH at a width of one byte (Intel SDM volume 2,
//! table 2-2).

/// A condition on the flags, in the order of its four bits in an opcode (Intel SDM volume 2,
/// appendix B, "Condition Test Field").
#[derive(Clone, Copy, Debug, PartialEq, Eq)]
pub enum Condition {
    Overflow,
    NotOverflow,
    Below,
    AboveOrEqual,
    Equal,
    NotEqual,
    BelowOrEqual,
    Above,
    Sign,
    NotSign,
    Parity,
    NotParity,
    Less,
    GreaterOrEqual,
    LessOrEqual,
    Greater,
}

/// An operation, by its mnemonic. Those that differ in a third operand, or in the width of what is
/// extended, have a name each.
#[derive(Clone, Copy, Debug, PartialEq, Eq)]
pub enum Op {
    Adc,
    Add,
    And,
    Bsf,
    Bsr,
    Bswap,
    Bt,
    Btc,
    Btr,
    Bts,
    Call,
    Clc,
    Cld,
    Cmc,
    Cmovcc(Condition),
    Cmp,
    Cmps,
    Cmpxchg,
    /// CWD at a width of two bytes, CDQ at one of four.
    Cdq,
    /// CBW at a width of two bytes, CWDE at one of four.
    Cwde,
    Dec,
    Div,
    Idiv,
    /// The accumulator by the operand, into the accumulator and EDX.
    Imul,
    /// The first operand by the second.
    ImulRegister,
    /// The second operand by the immediate, into the first.
    ImulImmediate,
    Inc,
    Jcc(Condition),
    Jecxz,
    Jmp,
    Lahf,
    Lea,
    Leave,
    Lods,
    Loop,
    Loope,
    Loopne,
    Mov,
    Movs,
    /// From a byte.
    MovsxByte,
    /// From two bytes.
    MovsxWord,
    /// From a byte.
    MovzxByte,
    /// From two bytes.
    MovzxWord,
    Mul,
    Neg,
    Nop,
    Not,
    Or,
    Pop,
    Popad,
    Popfd,
    Push,
    Pushad,
    Pushfd,
    Rcl,
    Rcr,
    Ret,
    Rol,
    Ror,
    Sahf,
    Sar,
    Sbb,
    Scas,
    Setcc(Condition),
    Shl,
    /// By CL.
    ShldCl,
    /// By the immediate.
    ShldImmediate,
    Shr,
    /// By CL.
    ShrdCl,
    /// By the immediate.
    ShrdImmediate,
    Stc,
    Std,
    Stos,
    Sub,
    Test,
    Xadd,
    Xchg,
    Xor,
}

/// A prefix that repeats a string instruction.
#[derive(Clone, Copy, Debug, PartialEq, Eq)]
pub enum Repeat {
    Absent,
    /// REPNE
    F2,
    /// REP, REPE
    F3,
}

/// An operand.
#[derive(Clone, Copy, Debug, PartialEq, Eq)]
pub enum Operand {
    Absent,
    /// A register, by its number.
    Reg(u8),
    /// Memory at the sum of the base register, the index register times the scale, and the offset.
    Place {
        base: Option<u8>,
        index: Option<u8>,
        scale: u8,
        offset: u32,
    },
    /// The immediate of the instruction.
    Imm,
}

/// An instruction.
#[derive(Clone, Copy, Debug, PartialEq, Eq)]
pub struct Instr {
    pub op: Op,
    /// In bytes: 1, 2 or 4.
    pub width: u8,
    pub first: Operand,
    pub second: Operand,
    /// The immediate as 32 bits, 0 where there is none. A jump's or call's is its displacement.
    pub imm: u32,
    pub repeat: Repeat,
    pub lock: bool,
}
