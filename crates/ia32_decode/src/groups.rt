//! The opcodes whose operation bits 3 to 5 of the ModRM byte choose (Intel SDM volume 2, table A-6).

use crate::forms::{EB, EB_1, EB_CL, EB_IB, ED, EV, EV_1, EV_CL, EV_IB, EV_IBX, EV_IZ};
use crate::instruction::Op;
use crate::rows::{BARE, LOCK, Row, SIZE};

/// An operation, the form of its operands, and which prefixes may stand before it.
macro_rules! some {
    ($op:ident $form:ident $permits:ident) => {
        Some(Row {
            op: Op::$op,
            form: $form,
            permits: $permits,
        })
    };
}

/// 80: Group 1, Eb,Ib.
pub static GROUP_80: [Option<Row>; 8] = [
    some!(Add EB_IB LOCK), // /0
    some!(Or EB_IB LOCK), // /1
    some!(Adc EB_IB LOCK), // /2
    some!(Sbb EB_IB LOCK), // /3
    some!(And EB_IB LOCK), // /4
    some!(Sub EB_IB LOCK), // /5
    some!(Xor EB_IB LOCK), // /6
    some!(Cmp EB_IB SIZE), // /7
];

/// 81: Group 1, Ev,Iz.
pub static GROUP_81: [Option<Row>; 8] = [
    some!(Add EV_IZ LOCK), // /0
    some!(Or EV_IZ LOCK), // /1
    some!(Adc EV_IZ LOCK), // /2
    some!(Sbb EV_IZ LOCK), // /3
    some!(And EV_IZ LOCK), // /4
    some!(Sub EV_IZ LOCK), // /5
    some!(Xor EV_IZ LOCK), // /6
    some!(Cmp EV_IZ SIZE), // /7
];

/// 83: Group 1, Ev,Ibx.
pub static GROUP_83: [Option<Row>; 8] = [
    some!(Add EV_IBX LOCK), // /0
    some!(Or EV_IBX LOCK), // /1
    some!(Adc EV_IBX LOCK), // /2
    some!(Sbb EV_IBX LOCK), // /3
    some!(And EV_IBX LOCK), // /4
    some!(Sub EV_IBX LOCK), // /5
    some!(Xor EV_IBX LOCK), // /6
    some!(Cmp EV_IBX SIZE), // /7
];

/// 8F: Group 1A, Ev.
pub static GROUP_8F: [Option<Row>; 8] = [
    some!(Pop EV SIZE), // /0
    None, // /1
    None, // /2
    None, // /3
    None, // /4
    None, // /5
    None, // /6
    None, // /7
];

/// C0: Group 2, Eb,Ib.
pub static GROUP_C0: [Option<Row>; 8] = [
    some!(Rol EB_IB SIZE), // /0
    some!(Ror EB_IB SIZE), // /1
    some!(Rcl EB_IB SIZE), // /2
    some!(Rcr EB_IB SIZE), // /3
    some!(Shl EB_IB SIZE), // /4
    some!(Shr EB_IB SIZE), // /5
    None, // /6
    some!(Sar EB_IB SIZE), // /7
];

/// C1: Group 2, Ev,Ib.
pub static GROUP_C1: [Option<Row>; 8] = [
    some!(Rol EV_IB SIZE), // /0
    some!(Ror EV_IB SIZE), // /1
    some!(Rcl EV_IB SIZE), // /2
    some!(Rcr EV_IB SIZE), // /3
    some!(Shl EV_IB SIZE), // /4
    some!(Shr EV_IB SIZE), // /5
    None, // /6
    some!(Sar EV_IB SIZE), // /7
];

/// C6: Group 11, Eb,Ib.
pub static GROUP_C6: [Option<Row>; 8] = [
    some!(Mov EB_IB SIZE), // /0
    None, // /1
    None, // /2
    None, // /3
    None, // /4
    None, // /5
    None, // /6
    None, // /7
];

/// C7: Group 11, Ev,Iz.
pub static GROUP_C7: [Option<Row>; 8] = [
    some!(Mov EV_IZ SIZE), // /0
    None, // /1
    None, // /2
    None, // /3
    None, // /4
    None, // /5
    None, // /6
    None, // /7
];

/// D0: Group 2, Eb,1.
pub static GROUP_D0: [Option<Row>; 8] = [
    some!(Rol EB_1 SIZE), // /0
    some!(Ror EB_1 SIZE), // /1
    some!(Rcl EB_1 SIZE), // /2
    some!(Rcr EB_1 SIZE), // /3
    some!(Shl EB_1 SIZE), // /4
    some!(Shr EB_1 SIZE), // /5
    None, // /6
    some!(Sar EB_1 SIZE), // /7
];

/// D1: Group 2, Ev,1.
pub static GROUP_D1: [Option<Row>; 8] = [
    some!(Rol EV_1 SIZE), // /0
    some!(Ror EV_1 SIZE), // /1
    some!(Rcl EV_1 SIZE), // /2
    some!(Rcr EV_1 SIZE), // /3
    some!(Shl EV_1 SIZE), // /4
    some!(Shr EV_1 SIZE), // /5
    None, // /6
    some!(Sar EV_1 SIZE), // /7
];

/// D2: Group 2, Eb,CL.
pub static GROUP_D2: [Option<Row>; 8] = [
    some!(Rol EB_CL SIZE), // /0
    some!(Ror EB_CL SIZE), // /1
    some!(Rcl EB_CL SIZE), // /2
    some!(Rcr EB_CL SIZE), // /3
    some!(Shl EB_CL SIZE), // /4
    some!(Shr EB_CL SIZE), // /5
    None, // /6
    some!(Sar EB_CL SIZE), // /7
];

/// D3: Group 2, Ev,CL.
pub static GROUP_D3: [Option<Row>; 8] = [
    some!(Rol EV_CL SIZE), // /0
    some!(Ror EV_CL SIZE), // /1
    some!(Rcl EV_CL SIZE), // /2
    some!(Rcr EV_CL SIZE), // /3
    some!(Shl EV_CL SIZE), // /4
    some!(Shr EV_CL SIZE), // /5
    None, // /6
    some!(Sar EV_CL SIZE), // /7
];

/// F6: Group 3, Eb.
pub static GROUP_F6: [Option<Row>; 8] = [
    some!(Test EB_IB SIZE), // /0
    None, // /1
    some!(Not EB LOCK), // /2
    some!(Neg EB LOCK), // /3
    some!(Mul EB SIZE), // /4
    some!(Imul EB SIZE), // /5
    some!(Div EB SIZE), // /6
    some!(Idiv EB SIZE), // /7
];

/// F7: Group 3, Ev.
pub static GROUP_F7: [Option<Row>; 8] = [
    some!(Test EV_IZ SIZE), // /0
    None, // /1
    some!(Not EV LOCK), // /2
    some!(Neg EV LOCK), // /3
    some!(Mul EV SIZE), // /4
    some!(Imul EV SIZE), // /5
    some!(Div EV SIZE), // /6
    some!(Idiv EV SIZE), // /7
];

/// FE: Group 4, Eb.
pub static GROUP_FE: [Option<Row>; 8] = [
    some!(Inc EB LOCK), // /0
    some!(Dec EB LOCK), // /1
    None, // /2
    None, // /3
    None, // /4
    None, // /5
    None, // /6
    None, // /7
];

/// FF: Group 5, Ev; CALL and JMP to four bytes.
pub static GROUP_FF: [Option<Row>; 8] = [
    some!(Inc EV LOCK), // /0
    some!(Dec EV LOCK), // /1
    some!(Call ED BARE), // /2
    None, // /3
    some!(Jmp ED BARE), // /4
    None, // /5
    some!(Push EV SIZE), // /6
    None, // /7
];

/// 0F BA: Group 8, Ev,Ib.
pub static GROUP_0FBA: [Option<Row>; 8] = [
    None, // /0
    None, // /1
    None, // /2
    None, // /3
    some!(Bt EV_IB SIZE), // /4
    some!(Bts EV_IB LOCK), // /5
    some!(Btr EV_IB LOCK), // /6
    some!(Btc EV_IB LOCK), // /7
];
