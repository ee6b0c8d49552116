//! The opcodes behind 0F (Intel SDM volume 2, table A-3). What the comment behind an entry that is
//! outside names is what Intel's map has there.

use crate::forms::{EB, EB_GB, EV_GV, EV_GV_CL, EV_GV_IB, GV_EB, GV_EV, GV_EW, JD, ZD};
use crate::instruction::{Condition, Op};
use crate::rows::{BARE, Entry, Group, LOCK, Row, SIZE};

/// An operation, the form of its operands, and which prefixes may stand before it.
macro_rules! one {
    ($op:ident $form:ident $permits:ident) => {
        Entry::One(Row {
            op: Op::$op,
            form: $form,
            permits: $permits,
        })
    };
    ($op:ident($condition:ident) $form:ident $permits:ident) => {
        Entry::One(Row {
            op: Op::$op(Condition::$condition),
            form: $form,
            permits: $permits,
        })
    };
}

/// What each byte behind 0F is.
pub static SECOND: [Entry; 256] = [
    Entry::Outside, // 0F 00 group 6: descriptor tables
    Entry::Outside, // 0F 01 group 7: descriptor tables
    Entry::Outside, // 0F 02 LAR
    Entry::Outside, // 0F 03 LSL
    Entry::Outside, // 0F 04 none
    Entry::Outside, // 0F 05 SYSCALL
    Entry::Outside, // 0F 06 CLTS
    Entry::Outside, // 0F 07 SYSRET
    Entry::Outside, // 0F 08 INVD
    Entry::Outside, // 0F 09 WBINVD
    Entry::Outside, // 0F 0A none
    Entry::Outside, // 0F 0B UD2
    Entry::Outside, // 0F 0C none
    Entry::Outside, // 0F 0D PREFETCHW
    Entry::Outside, // 0F 0E none
    Entry::Outside, // 0F 0F none
    Entry::Outside, // 0F 10 SSE
    Entry::Outside, // 0F 11 SSE
    Entry::Outside, // 0F 12 SSE
    Entry::Outside, // 0F 13 SSE
    Entry::Outside, // 0F 14 SSE
    Entry::Outside, // 0F 15 SSE
    Entry::Outside, // 0F 16 SSE
    Entry::Outside, // 0F 17 SSE
    Entry::Outside, // 0F 18 PREFETCH
    Entry::Outside, // 0F 19 NOP of a ModRM byte
    Entry::Outside, // 0F 1A NOP of a ModRM byte
    Entry::Outside, // 0F 1B NOP of a ModRM byte
    Entry::Outside, // 0F 1C NOP of a ModRM byte
    Entry::Outside, // 0F 1D NOP of a ModRM byte
    Entry::Outside, // 0F 1E NOP of a ModRM byte
    Entry::Outside, // 0F 1F NOP of a ModRM byte
    Entry::Outside, // 0F 20 MOV of a control or debug register
    Entry::Outside, // 0F 21 MOV of a control or debug register
    Entry::Outside, // 0F 22 MOV of a control or debug register
    Entry::Outside, // 0F 23 MOV of a control or debug register
    Entry::Outside, // 0F 24 none
    Entry::Outside, // 0F 25 none
    Entry::Outside, // 0F 26 none
    Entry::Outside, // 0F 27 none
    Entry::Outside, // 0F 28 SSE
    Entry::Outside, // 0F 29 SSE
    Entry::Outside, // 0F 2A SSE
    Entry::Outside, // 0F 2B SSE
    Entry::Outside, // 0F 2C SSE
    Entry::Outside, // 0F 2D SSE
    Entry::Outside, // 0F 2E SSE
    Entry::Outside, // 0F 2F SSE
    Entry::Outside, // 0F 30 WRMSR
    Entry::Outside, // 0F 31 RDTSC
    Entry::Outside, // 0F 32 RDMSR
    Entry::Outside, // 0F 33 RDPMC
    Entry::Outside, // 0F 34 SYSENTER
    Entry::Outside, // 0F 35 SYSEXIT
    Entry::Outside, // 0F 36 none
    Entry::Outside, // 0F 37 GETSEC
    Entry::Outside, // 0F 38 a third map
    Entry::Outside, // 0F 39 none
    Entry::Outside, // 0F 3A a third map
    Entry::Outside, // 0F 3B none
    Entry::Outside, // 0F 3C none
    Entry::Outside, // 0F 3D none
    Entry::Outside, // 0F 3E none
    Entry::Outside, // 0F 3F none
    one!(Cmovcc(Overflow) GV_EV SIZE), // 0F 40
    one!(Cmovcc(NotOverflow) GV_EV SIZE), // 0F 41
    one!(Cmovcc(Below) GV_EV SIZE), // 0F 42
    one!(Cmovcc(AboveOrEqual) GV_EV SIZE), // 0F 43
    one!(Cmovcc(Equal) GV_EV SIZE), // 0F 44
    one!(Cmovcc(NotEqual) GV_EV SIZE), // 0F 45
    one!(Cmovcc(BelowOrEqual) GV_EV SIZE), // 0F 46
    one!(Cmovcc(Above) GV_EV SIZE), // 0F 47
    one!(Cmovcc(Sign) GV_EV SIZE), // 0F 48
    one!(Cmovcc(NotSign) GV_EV SIZE), // 0F 49
    one!(Cmovcc(Parity) GV_EV SIZE), // 0F 4A
    one!(Cmovcc(NotParity) GV_EV SIZE), // 0F 4B
    one!(Cmovcc(Less) GV_EV SIZE), // 0F 4C
    one!(Cmovcc(GreaterOrEqual) GV_EV SIZE), // 0F 4D
    one!(Cmovcc(LessOrEqual) GV_EV SIZE), // 0F 4E
    one!(Cmovcc(Greater) GV_EV SIZE), // 0F 4F
    Entry::Outside, // 0F 50 MMX, SSE
    Entry::Outside, // 0F 51 MMX, SSE
    Entry::Outside, // 0F 52 MMX, SSE
    Entry::Outside, // 0F 53 MMX, SSE
    Entry::Outside, // 0F 54 MMX, SSE
    Entry::Outside, // 0F 55 MMX, SSE
    Entry::Outside, // 0F 56 MMX, SSE
    Entry::Outside, // 0F 57 MMX, SSE
    Entry::Outside, // 0F 58 MMX, SSE
    Entry::Outside, // 0F 59 MMX, SSE
    Entry::Outside, // 0F 5A MMX, SSE
    Entry::Outside, // 0F 5B MMX, SSE
    Entry::Outside, // 0F 5C MMX, SSE
    Entry::Outside, // 0F 5D MMX, SSE
    Entry::Outside, // 0F 5E MMX, SSE
    Entry::Outside, // 0F 5F MMX, SSE
    Entry::Outside, // 0F 60 MMX, SSE
    Entry::Outside, // 0F 61 MMX, SSE
    Entry::Outside, // 0F 62 MMX, SSE
    Entry::Outside, // 0F 63 MMX, SSE
    Entry::Outside, // 0F 64 MMX, SSE
    Entry::Outside, // 0F 65 MMX, SSE
    Entry::Outside, // 0F 66 MMX, SSE
    Entry::Outside, // 0F 67 MMX, SSE
    Entry::Outside, // 0F 68 MMX, SSE
    Entry::Outside, // 0F 69 MMX, SSE
    Entry::Outside, // 0F 6A MMX, SSE
    Entry::Outside, // 0F 6B MMX, SSE
    Entry::Outside, // 0F 6C MMX, SSE
    Entry::Outside, // 0F 6D MMX, SSE
    Entry::Outside, // 0F 6E MMX, SSE
    Entry::Outside, // 0F 6F MMX, SSE
    Entry::Outside, // 0F 70 MMX, SSE
    Entry::Outside, // 0F 71 MMX, SSE
    Entry::Outside, // 0F 72 MMX, SSE
    Entry::Outside, // 0F 73 MMX, SSE
    Entry::Outside, // 0F 74 MMX, SSE
    Entry::Outside, // 0F 75 MMX, SSE
    Entry::Outside, // 0F 76 MMX, SSE
    Entry::Outside, // 0F 77 MMX, SSE
    Entry::Outside, // 0F 78 VMREAD
    Entry::Outside, // 0F 79 VMWRITE
    Entry::Outside, // 0F 7A none
    Entry::Outside, // 0F 7B none
    Entry::Outside, // 0F 7C MMX, SSE
    Entry::Outside, // 0F 7D MMX, SSE
    Entry::Outside, // 0F 7E MMX, SSE
    Entry::Outside, // 0F 7F MMX, SSE
    one!(Jcc(Overflow) JD BARE), // 0F 80
    one!(Jcc(NotOverflow) JD BARE), // 0F 81
    one!(Jcc(Below) JD BARE), // 0F 82
    one!(Jcc(AboveOrEqual) JD BARE), // 0F 83
    one!(Jcc(Equal) JD BARE), // 0F 84
    one!(Jcc(NotEqual) JD BARE), // 0F 85
    one!(Jcc(BelowOrEqual) JD BARE), // 0F 86
    one!(Jcc(Above) JD BARE), // 0F 87
    one!(Jcc(Sign) JD BARE), // 0F 88
    one!(Jcc(NotSign) JD BARE), // 0F 89
    one!(Jcc(Parity) JD BARE), // 0F 8A
    one!(Jcc(NotParity) JD BARE), // 0F 8B
    one!(Jcc(Less) JD BARE), // 0F 8C
    one!(Jcc(GreaterOrEqual) JD BARE), // 0F 8D
    one!(Jcc(LessOrEqual) JD BARE), // 0F 8E
    one!(Jcc(Greater) JD BARE), // 0F 8F
    one!(Setcc(Overflow) EB SIZE), // 0F 90
    one!(Setcc(NotOverflow) EB SIZE), // 0F 91
    one!(Setcc(Below) EB SIZE), // 0F 92
    one!(Setcc(AboveOrEqual) EB SIZE), // 0F 93
    one!(Setcc(Equal) EB SIZE), // 0F 94
    one!(Setcc(NotEqual) EB SIZE), // 0F 95
    one!(Setcc(BelowOrEqual) EB SIZE), // 0F 96
    one!(Setcc(Above) EB SIZE), // 0F 97
    one!(Setcc(Sign) EB SIZE), // 0F 98
    one!(Setcc(NotSign) EB SIZE), // 0F 99
    one!(Setcc(Parity) EB SIZE), // 0F 9A
    one!(Setcc(NotParity) EB SIZE), // 0F 9B
    one!(Setcc(Less) EB SIZE), // 0F 9C
    one!(Setcc(GreaterOrEqual) EB SIZE), // 0F 9D
    one!(Setcc(LessOrEqual) EB SIZE), // 0F 9E
    one!(Setcc(Greater) EB SIZE), // 0F 9F
    Entry::Outside, // 0F A0 PUSH FS
    Entry::Outside, // 0F A1 POP FS
    Entry::Outside, // 0F A2 CPUID
    one!(Bt EV_GV SIZE), // 0F A3
    one!(ShldImmediate EV_GV_IB SIZE), // 0F A4
    one!(ShldCl EV_GV_CL SIZE), // 0F A5
    Entry::Outside, // 0F A6 none
    Entry::Outside, // 0F A7 none
    Entry::Outside, // 0F A8 PUSH GS
    Entry::Outside, // 0F A9 POP GS
    Entry::Outside, // 0F AA RSM
    one!(Bts EV_GV LOCK), // 0F AB
    one!(ShrdImmediate EV_GV_IB SIZE), // 0F AC
    one!(ShrdCl EV_GV_CL SIZE), // 0F AD
    Entry::Outside, // 0F AE group 15
    one!(ImulRegister GV_EV SIZE), // 0F AF
    one!(Cmpxchg EB_GB LOCK), // 0F B0
    one!(Cmpxchg EV_GV LOCK), // 0F B1
    Entry::Outside, // 0F B2 LSS
    one!(Btr EV_GV LOCK), // 0F B3
    Entry::Outside, // 0F B4 LFS
    Entry::Outside, // 0F B5 LGS
    one!(MovzxByte GV_EB SIZE), // 0F B6
    one!(MovzxWord GV_EW SIZE), // 0F B7
    Entry::Outside, // 0F B8 POPCNT
    Entry::Outside, // 0F B9 UD1
    Entry::Group(Group::At0FBA), // 0F BA
    one!(Btc EV_GV LOCK), // 0F BB
    one!(Bsf GV_EV SIZE), // 0F BC
    one!(Bsr GV_EV SIZE), // 0F BD
    one!(MovsxByte GV_EB SIZE), // 0F BE
    one!(MovsxWord GV_EW SIZE), // 0F BF
    one!(Xadd EB_GB LOCK), // 0F C0
    one!(Xadd EV_GV LOCK), // 0F C1
    Entry::Outside, // 0F C2 SSE
    Entry::Outside, // 0F C3 MOVNTI
    Entry::Outside, // 0F C4 SSE
    Entry::Outside, // 0F C5 SSE
    Entry::Outside, // 0F C6 SSE
    Entry::Outside, // 0F C7 group 9: CMPXCHG8B
    one!(Bswap ZD BARE), // 0F C8
    one!(Bswap ZD BARE), // 0F C9
    one!(Bswap ZD BARE), // 0F CA
    one!(Bswap ZD BARE), // 0F CB
    one!(Bswap ZD BARE), // 0F CC
    one!(Bswap ZD BARE), // 0F CD
    one!(Bswap ZD BARE), // 0F CE
    one!(Bswap ZD BARE), // 0F CF
    Entry::Outside, // 0F D0 MMX, SSE
    Entry::Outside, // 0F D1 MMX, SSE
    Entry::Outside, // 0F D2 MMX, SSE
    Entry::Outside, // 0F D3 MMX, SSE
    Entry::Outside, // 0F D4 MMX, SSE
    Entry::Outside, // 0F D5 MMX, SSE
    Entry::Outside, // 0F D6 MMX, SSE
    Entry::Outside, // 0F D7 MMX, SSE
    Entry::Outside, // 0F D8 MMX, SSE
    Entry::Outside, // 0F D9 MMX, SSE
    Entry::Outside, // 0F DA MMX, SSE
    Entry::Outside, // 0F DB MMX, SSE
    Entry::Outside, // 0F DC MMX, SSE
    Entry::Outside, // 0F DD MMX, SSE
    Entry::Outside, // 0F DE MMX, SSE
    Entry::Outside, // 0F DF MMX, SSE
    Entry::Outside, // 0F E0 MMX, SSE
    Entry::Outside, // 0F E1 MMX, SSE
    Entry::Outside, // 0F E2 MMX, SSE
    Entry::Outside, // 0F E3 MMX, SSE
    Entry::Outside, // 0F E4 MMX, SSE
    Entry::Outside, // 0F E5 MMX, SSE
    Entry::Outside, // 0F E6 MMX, SSE
    Entry::Outside, // 0F E7 MMX, SSE
    Entry::Outside, // 0F E8 MMX, SSE
    Entry::Outside, // 0F E9 MMX, SSE
    Entry::Outside, // 0F EA MMX, SSE
    Entry::Outside, // 0F EB MMX, SSE
    Entry::Outside, // 0F EC MMX, SSE
    Entry::Outside, // 0F ED MMX, SSE
    Entry::Outside, // 0F EE MMX, SSE
    Entry::Outside, // 0F EF MMX, SSE
    Entry::Outside, // 0F F0 MMX, SSE
    Entry::Outside, // 0F F1 MMX, SSE
    Entry::Outside, // 0F F2 MMX, SSE
    Entry::Outside, // 0F F3 MMX, SSE
    Entry::Outside, // 0F F4 MMX, SSE
    Entry::Outside, // 0F F5 MMX, SSE
    Entry::Outside, // 0F F6 MMX, SSE
    Entry::Outside, // 0F F7 MMX, SSE
    Entry::Outside, // 0F F8 MMX, SSE
    Entry::Outside, // 0F F9 MMX, SSE
    Entry::Outside, // 0F FA MMX, SSE
    Entry::Outside, // 0F FB MMX, SSE
    Entry::Outside, // 0F FC MMX, SSE
    Entry::Outside, // 0F FD MMX, SSE
    Entry::Outside, // 0F FE MMX, SSE
    Entry::Outside, // 0F FF UD0
];
