//! Rows: an operation, its operands, and which prefixes may stand before it. (Intel SDM volume 2,
//! section 2.1.1, and the pages of the instructions.)

use crate::forms::Form;
use crate::instruction::Op;

/// Which of F2 and F3 may stand before an instruction.
#[derive(Clone, Copy)]
pub enum Repeats {
    Neither,
    Three,
    Either,
}

/// Which prefixes may stand before an instruction.
#[derive(Clone, Copy)]
pub struct Permits {
    /// 66
    pub operand_size: bool,
    /// F0, where the ModRM byte names memory.
    pub lock: bool,
    pub repeat: Repeats,
}

/// None.
pub const BARE: Permits = Permits {
    operand_size: false,
    lock: false,
    repeat: Repeats::Neither,
};

/// 66.
pub const SIZE: Permits = Permits {
    operand_size: true,
    lock: false,
    repeat: Repeats::Neither,
};

/// 66, and F0 before memory.
pub const LOCK: Permits = Permits {
    operand_size: true,
    lock: true,
    repeat: Repeats::Neither,
};

/// 66, and F2 or F3: string instructions.
pub const STRING: Permits = Permits {
    operand_size: true,
    lock: false,
    repeat: Repeats::Either,
};

/// 66 and F3: PAUSE, which does nothing.
pub const PAUSE: Permits = Permits {
    operand_size: true,
    lock: false,
    repeat: Repeats::Three,
};

/// An instruction's form.
#[derive(Clone, Copy)]
pub struct Row {
    pub op: Op,
    pub form: Form,
    pub permits: Permits,
}

/// The eight rows that bits 3 to 5 of the ModRM byte choose from, by the opcode.
#[derive(Clone, Copy)]
pub enum Group {
    At80,
    At81,
    At83,
    At8F,
    AtC0,
    AtC1,
    AtC6,
    AtC7,
    AtD0,
    AtD1,
    AtD2,
    AtD3,
    AtF6,
    AtF7,
    AtFE,
    AtFF,
    At0FBA,
}

/// What an opcode byte is.
#[derive(Clone, Copy)]
pub enum Entry {
    /// No instruction of this library goes on with it.
    Outside,
    One(Row),
    Group(Group),
    /// The next byte is an opcode of the second map.
    Escape,
}
