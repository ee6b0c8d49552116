//! The opcodes of one byte (Intel SDM volume 2, table A-2). What the comment behind an entry that is
//! outside names is what Intel's map has there.

use crate::forms::{
    AL_IB, AL_OB, B, D, EAX_IZ, EAX_OV, EAX_ZV, EB_GB, EV_GV, GB_EB, GV_EV, GV_EV_IBX, GV_EV_IZ,
    GV_M, IBX, IW, IZ, JB, JD, OB_AL, OV_EAX, V, ZB_IB, ZV, ZV_IZ,
};
use crate::instruction::{Condition, Op};
use crate::rows::{BARE, Entry, Group, LOCK, PAUSE, Row, SIZE, STRING};

/// An operation, the form of its operands, and which prefixes may stand before it.
macro_rules! one {
    ($op:ident $form:ident $permits:ident) => {
        Entry::One(Row {
            op: Op::$op,
            form: $form,
            permits: $permits,
        })
    };
    ($op:ident($condition:ident) $form:ident $permits:ident) => {
        Entry::One(Row {
            op: Op::$op(Condition::$condition),
            form: $form,
            permits: $permits,
        })
    };
}

/// What each opcode byte is.
pub static FIRST: [Entry; 256] = [
    one!(Add EB_GB LOCK), // 00
    one!(Add EV_GV LOCK), // 01
    one!(Add GB_EB SIZE), // 02
    one!(Add GV_EV SIZE), // 03
    one!(Add AL_IB SIZE), // 04
    one!(Add EAX_IZ SIZE), // 05
    Entry::Outside, // 06 PUSH ES
    Entry::Outside, // 07 POP ES
    one!(Or EB_GB LOCK), // 08
    one!(Or EV_GV LOCK), // 09
    one!(Or GB_EB SIZE), // 0A
    one!(Or GV_EV SIZE), // 0B
    one!(Or AL_IB SIZE), // 0C
    one!(Or EAX_IZ SIZE), // 0D
    Entry::Outside, // 0E PUSH CS
    Entry::Escape, // 0F
    one!(Adc EB_GB LOCK), // 10
    one!(Adc EV_GV LOCK), // 11
    one!(Adc GB_EB SIZE), // 12
    one!(Adc GV_EV SIZE), // 13
    one!(Adc AL_IB SIZE), // 14
    one!(Adc EAX_IZ SIZE), // 15
    Entry::Outside, // 16 PUSH SS
    Entry::Outside, // 17 POP SS
    one!(Sbb EB_GB LOCK), // 18
    one!(Sbb EV_GV LOCK), // 19
    one!(Sbb GB_EB SIZE), // 1A
    one!(Sbb GV_EV SIZE), // 1B
    one!(Sbb AL_IB SIZE), // 1C
    one!(Sbb EAX_IZ SIZE), // 1D
    Entry::Outside, // 1E PUSH DS
    Entry::Outside, // 1F POP DS
    one!(And EB_GB LOCK), // 20
    one!(And EV_GV LOCK), // 21
    one!(And GB_EB SIZE), // 22
    one!(And GV_EV SIZE), // 23
    one!(And AL_IB SIZE), // 24
    one!(And EAX_IZ SIZE), // 25
    Entry::Outside, // 26 prefix ES
    Entry::Outside, // 27 DAA
    one!(Sub EB_GB LOCK), // 28
    one!(Sub EV_GV LOCK), // 29
    one!(Sub GB_EB SIZE), // 2A
    one!(Sub GV_EV SIZE), // 2B
    one!(Sub AL_IB SIZE), // 2C
    one!(Sub EAX_IZ SIZE), // 2D
    Entry::Outside, // 2E prefix CS
    Entry::Outside, // 2F DAS
    one!(Xor EB_GB LOCK), // 30
    one!(Xor EV_GV LOCK), // 31
    one!(Xor GB_EB SIZE), // 32
    one!(Xor GV_EV SIZE), // 33
    one!(Xor AL_IB SIZE), // 34
    one!(Xor EAX_IZ SIZE), // 35
    Entry::Outside, // 36 prefix SS
    Entry::Outside, // 37 AAA
    one!(Cmp EB_GB SIZE), // 38
    one!(Cmp EV_GV SIZE), // 39
    one!(Cmp GB_EB SIZE), // 3A
    one!(Cmp GV_EV SIZE), // 3B
    one!(Cmp AL_IB SIZE), // 3C
    one!(Cmp EAX_IZ SIZE), // 3D
    Entry::Outside, // 3E prefix DS
    Entry::Outside, // 3F AAS
    one!(Inc ZV SIZE), // 40
    one!(Inc ZV SIZE), // 41
    one!(Inc ZV SIZE), // 42
    one!(Inc ZV SIZE), // 43
    one!(Inc ZV SIZE), // 44
    one!(Inc ZV SIZE), // 45
    one!(Inc ZV SIZE), // 46
    one!(Inc ZV SIZE), // 47
    one!(Dec ZV SIZE), // 48
    one!(Dec ZV SIZE), // 49
    one!(Dec ZV SIZE), // 4A
    one!(Dec ZV SIZE), // 4B
    one!(Dec ZV SIZE), // 4C
    one!(Dec ZV SIZE), // 4D
    one!(Dec ZV SIZE), // 4E
    one!(Dec ZV SIZE), // 4F
    one!(Push ZV SIZE), // 50
    one!(Push ZV SIZE), // 51
    one!(Push ZV SIZE), // 52
    one!(Push ZV SIZE), // 53
    one!(Push ZV SIZE), // 54
    one!(Push ZV SIZE), // 55
    one!(Push ZV SIZE), // 56
    one!(Push ZV SIZE), // 57
    one!(Pop ZV SIZE), // 58
    one!(Pop ZV SIZE), // 59
    one!(Pop ZV SIZE), // 5A
    one!(Pop ZV SIZE), // 5B
    one!(Pop ZV SIZE), // 5C
    one!(Pop ZV SIZE), // 5D
    one!(Pop ZV SIZE), // 5E
    one!(Pop ZV SIZE), // 5F
    one!(Pushad D BARE), // 60
    one!(Popad D BARE), // 61
    Entry::Outside, // 62 BOUND
    Entry::Outside, // 63 ARPL
    Entry::Outside, // 64 prefix FS
    Entry::Outside, // 65 prefix GS
    Entry::Outside, // 66 a prefix
    Entry::Outside, // 67 prefix of the address size
    one!(Push IZ SIZE), // 68
    one!(ImulImmediate GV_EV_IZ SIZE), // 69
    one!(Push IBX SIZE), // 6A
    one!(ImulImmediate GV_EV_IBX SIZE), // 6B
    Entry::Outside, // 6C INS
    Entry::Outside, // 6D INS
    Entry::Outside, // 6E OUTS
    Entry::Outside, // 6F OUTS
    one!(Jcc(Overflow) JB BARE), // 70
    one!(Jcc(NotOverflow) JB BARE), // 71
    one!(Jcc(Below) JB BARE), // 72
    one!(Jcc(AboveOrEqual) JB BARE), // 73
    one!(Jcc(Equal) JB BARE), // 74
    one!(Jcc(NotEqual) JB BARE), // 75
    one!(Jcc(BelowOrEqual) JB BARE), // 76
    one!(Jcc(Above) JB BARE), // 77
    one!(Jcc(Sign) JB BARE), // 78
    one!(Jcc(NotSign) JB BARE), // 79
    one!(Jcc(Parity) JB BARE), // 7A
    one!(Jcc(NotParity) JB BARE), // 7B
    one!(Jcc(Less) JB BARE), // 7C
    one!(Jcc(GreaterOrEqual) JB BARE), // 7D
    one!(Jcc(LessOrEqual) JB BARE), // 7E
    one!(Jcc(Greater) JB BARE), // 7F
    Entry::Group(Group::At80), // 80
    Entry::Group(Group::At81), // 81
    Entry::Outside, // 82 a second spelling of 80
    Entry::Group(Group::At83), // 83
    one!(Test EB_GB SIZE), // 84
    one!(Test EV_GV SIZE), // 85
    one!(Xchg EB_GB LOCK), // 86
    one!(Xchg EV_GV LOCK), // 87
    one!(Mov EB_GB SIZE), // 88
    one!(Mov EV_GV SIZE), // 89
    one!(Mov GB_EB SIZE), // 8A
    one!(Mov GV_EV SIZE), // 8B
    Entry::Outside, // 8C MOV from a segment register
    one!(Lea GV_M SIZE), // 8D
    Entry::Outside, // 8E MOV to a segment register
    Entry::Group(Group::At8F), // 8F
    one!(Nop B PAUSE), // 90
    one!(Xchg EAX_ZV SIZE), // 91
    one!(Xchg EAX_ZV SIZE), // 92
    one!(Xchg EAX_ZV SIZE), // 93
    one!(Xchg EAX_ZV SIZE), // 94
    one!(Xchg EAX_ZV SIZE), // 95
    one!(Xchg EAX_ZV SIZE), // 96
    one!(Xchg EAX_ZV SIZE), // 97
    one!(Cwde V SIZE), // 98
    one!(Cdq V SIZE), // 99
    Entry::Outside, // 9A CALL far
    Entry::Outside, // 9B WAIT
    one!(Pushfd D BARE), // 9C
    one!(Popfd D BARE), // 9D
    one!(Sahf B SIZE), // 9E
    one!(Lahf B SIZE), // 9F
    one!(Mov AL_OB SIZE), // A0
    one!(Mov EAX_OV SIZE), // A1
    one!(Mov OB_AL SIZE), // A2
    one!(Mov OV_EAX SIZE), // A3
    one!(Movs B STRING), // A4
    one!(Movs V STRING), // A5
    one!(Cmps B STRING), // A6
    one!(Cmps V STRING), // A7
    one!(Test AL_IB SIZE), // A8
    one!(Test EAX_IZ SIZE), // A9
    one!(Stos B STRING), // AA
    one!(Stos V STRING), // AB
    one!(Lods B STRING), // AC
    one!(Lods V STRING), // AD
    one!(Scas B STRING), // AE
    one!(Scas V STRING), // AF
    one!(Mov ZB_IB SIZE), // B0
    one!(Mov ZB_IB SIZE), // B1
    one!(Mov ZB_IB SIZE), // B2
    one!(Mov ZB_IB SIZE), // B3
    one!(Mov ZB_IB SIZE), // B4
    one!(Mov ZB_IB SIZE), // B5
    one!(Mov ZB_IB SIZE), // B6
    one!(Mov ZB_IB SIZE), // B7
    one!(Mov ZV_IZ SIZE), // B8
    one!(Mov ZV_IZ SIZE), // B9
    one!(Mov ZV_IZ SIZE), // BA
    one!(Mov ZV_IZ SIZE), // BB
    one!(Mov ZV_IZ SIZE), // BC
    one!(Mov ZV_IZ SIZE), // BD
    one!(Mov ZV_IZ SIZE), // BE
    one!(Mov ZV_IZ SIZE), // BF
    Entry::Group(Group::AtC0), // C0
    Entry::Group(Group::AtC1), // C1
    one!(Ret IW BARE), // C2
    one!(Ret D BARE), // C3
    Entry::Outside, // C4 LES
    Entry::Outside, // C5 LDS
    Entry::Group(Group::AtC6), // C6
    Entry::Group(Group::AtC7), // C7
    Entry::Outside, // C8 ENTER
    one!(Leave D BARE), // C9
    Entry::Outside, // CA RET far
    Entry::Outside, // CB RET far
    Entry::Outside, // CC INT3
    Entry::Outside, // CD INT
    Entry::Outside, // CE INTO
    Entry::Outside, // CF IRET
    Entry::Group(Group::AtD0), // D0
    Entry::Group(Group::AtD1), // D1
    Entry::Group(Group::AtD2), // D2
    Entry::Group(Group::AtD3), // D3
    Entry::Outside, // D4 AAM
    Entry::Outside, // D5 AAD
    Entry::Outside, // D6 none
    Entry::Outside, // D7 XLAT
    Entry::Outside, // D8 floating point
    Entry::Outside, // D9 floating point
    Entry::Outside, // DA floating point
    Entry::Outside, // DB floating point
    Entry::Outside, // DC floating point
    Entry::Outside, // DD floating point
    Entry::Outside, // DE floating point
    Entry::Outside, // DF floating point
    one!(Loopne JB BARE), // E0
    one!(Loope JB BARE), // E1
    one!(Loop JB BARE), // E2
    one!(Jecxz JB BARE), // E3
    Entry::Outside, // E4 IN
    Entry::Outside, // E5 IN
    Entry::Outside, // E6 OUT
    Entry::Outside, // E7 OUT
    one!(Call JD BARE), // E8
    one!(Jmp JD BARE), // E9
    Entry::Outside, // EA JMP far
    one!(Jmp JB BARE), // EB
    Entry::Outside, // EC IN
    Entry::Outside, // ED IN
    Entry::Outside, // EE OUT
    Entry::Outside, // EF OUT
    Entry::Outside, // F0 a prefix
    Entry::Outside, // F1 INT1
    Entry::Outside, // F2 a prefix
    Entry::Outside, // F3 a prefix
    Entry::Outside, // F4 HLT
    one!(Cmc B SIZE), // F5
    Entry::Group(Group::AtF6), // F6
    Entry::Group(Group::AtF7), // F7
    one!(Clc B SIZE), // F8
    one!(Stc B SIZE), // F9
    Entry::Outside, // FA CLI
    Entry::Outside, // FB STI
    one!(Cld B SIZE), // FC
    one!(Std B SIZE), // FD
    Entry::Group(Group::AtFE), // FE
    Entry::Group(Group::AtFF), // FF
];
