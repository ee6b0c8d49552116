//! Tests of the crate `ia32_decode`. What instructions are expected to be is what objdump prints of
//! their bytes.
#![tactic(auto)]

#[cfg(test)]
mod tests {
    use ia32_decode::{Condition, Decoded, Instr, Op, Operand, Repeat, decode, encode};

    const EAX: Operand = Operand::Reg(0);

    const ECX: Operand = Operand::Reg(1);

    static LARGE: [u8; 65536] = [0x90; 65536];

    /// Without prefixes that are seen.
    fn plain(op: Op, width: u8, first: Operand, second: Operand, imm: u32) -> Instr {
        Instr {
            op,
            width,
            first,
            second,
            imm,
            repeat: Repeat::Absent,
            lock: false,
        }
    }

    fn memory(base: Option<u8>, index: Option<u8>, scale: u8, offset: u32) -> Operand {
        Operand::Place {
            base,
            index,
            scale,
            offset,
        }
    }

    fn reads(bytes: &[u8], instruction: Instr, size: u8) -> bool {
        decode(bytes) == Decoded::One(instruction, size)
    }

    fn is_outside(bytes: &[u8], index: u8) -> bool {
        decode(bytes) == Decoded::Outside(index)
    }

    fn needs_more(bytes: &[u8]) -> bool {
        decode(bytes) == Decoded::More
    }

    fn spells(instruction: Instr, bytes: &[u8]) -> bool {
        match encode(&instruction) {
            Some(spelling) => spelling.as_slice() == bytes,
            None => false,
        }
    }

    fn has_no_spelling(instruction: Instr) -> bool {
        encode(&instruction).is_none()
    }

    #[test]
    fn bytes_of_no_instruction_are_outside(rt: HostRuntime) {
        // a floating-point instruction, UD2, a prefix twice, a jump of two bytes
        assert!(rt; is_outside(&[0xD9, 0xC0], 0) && is_outside(&[0xD9], 0));
        assert!(rt; is_outside(&[0x0F, 0x0B], 1));
        let prefixes = [
            0x66, 0x66, 0x66, 0x66, 0x66, 0x66, 0x66, 0x66, 0x66, 0x66, 0x66, 0x66, 0x66, 0x66,
            0x90,
        ];
        assert!(rt; is_outside(&prefixes, 1));
        assert!(rt; is_outside(&[0x66, 0xE8, 0, 0, 0, 0], 1));
        // REP with REPNE, LOCK with REP, LOCK before MOV and before an exchange of registers
        assert!(rt; is_outside(&[0xF2, 0xF3, 0xA4], 1) && is_outside(&[0xF0, 0xF3, 0xA4], 1));
        assert!(rt; is_outside(&[0xF0, 0x89, 0x08], 1));
        assert!(rt; is_outside(&[0xF0, 0x87, 0xC8], 2));
        // LEA of a register, a reserved member of a group, REPNE before NOP
        assert!(rt; is_outside(&[0x8D, 0xC0], 1) && is_outside(&[0xF7, 0xC8], 1));
        assert!(rt; is_outside(&[0xF2, 0x90], 1));
    }

    #[test]
    fn a_front_of_an_instruction_needs_more(rt: HostRuntime) {
        assert!(rt; needs_more(&[]) && needs_more(&[0x0F]) && needs_more(&[0x66, 0xF0]));
        assert!(rt; needs_more(&[0x81, 0x84, 0x24, 1, 2, 3, 4, 5, 6, 7]));
    }

    #[test]
    fn the_longest_instructions_are_read(rt: HostRuntime) {
        let place = memory(Some(4), None, 1, 0x1234_5678);
        // lock add DWORD PTR [esp+0x12345678],0xdeadbeef
        let add = Instr {
            lock: true,
            ..plain(Op::Add, 4, place, Operand::Imm, 0xDEAD_BEEF)
        };
        let bytes = [
            0xF0, 0x81, 0x84, 0x24, 0x78, 0x56, 0x34, 0x12, 0xEF, 0xBE, 0xAD, 0xDE,
        ];
        assert!(rt; reads(&bytes, add, 12));
        // lock add WORD PTR [esp+0x12345678],0xbeef
        let short = Instr {
            lock: true,
            ..plain(Op::Add, 2, place, Operand::Imm, 0xBEEF)
        };
        let bytes = [
            0x66, 0xF0, 0x81, 0x84, 0x24, 0x78, 0x56, 0x34, 0x12, 0xEF, 0xBE, 0xFF,
        ];
        assert!(rt; reads(&bytes, short, 11));
        // lock bts WORD PTR [esp+0x12345678],0x7
        let bts = Instr {
            lock: true,
            ..plain(Op::Bts, 2, place, Operand::Imm, 7)
        };
        let bytes = [
            0xF0, 0x66, 0x0F, 0xBA, 0xAC, 0x24, 0x78, 0x56, 0x34, 0x12, 7,
        ];
        assert!(rt; reads(&bytes, bts, 11));
    }

    #[test]
    fn operands_are_as_objdump_prints_them(rt: HostRuntime) {
        // mov eax,DWORD PTR [ecx*4+0x8]; mov eax,DWORD PTR [esp-0x1]; mov eax,ds:0x10
        let indexed = plain(Op::Mov, 4, EAX, memory(None, Some(1), 4, 8), 0);
        assert!(rt; reads(&[0x8B, 0x04, 0x8D, 8, 0, 0, 0], indexed, 7));
        let stack = plain(Op::Mov, 4, EAX, memory(Some(4), None, 1, 0xFFFF_FFFF), 0);
        assert!(rt; reads(&[0x8B, 0x44, 0xE4, 0xFF], stack, 4));
        let offset = plain(Op::Mov, 4, EAX, memory(None, None, 1, 0x10), 0);
        assert!(rt;
            reads(&[0xA1, 0x10, 0, 0, 0], offset, 5)
                && reads(&[0x8B, 0x05, 0x10, 0, 0, 0], offset, 6)
        );
        // cmove ax,WORD PTR [esp+0x8]; shld ecx,eax,cl; imul eax,ecx,0xfffffff0
        let cmov = plain(
            Op::Cmovcc(Condition::Equal),
            2,
            EAX,
            memory(Some(4), None, 1, 8),
            0,
        );
        assert!(rt; reads(&[0x66, 0x0F, 0x44, 0x44, 0x24, 0x08], cmov, 6));
        assert!(rt; reads(&[0x0F, 0xA5, 0xC1], plain(Op::ShldCl, 4, ECX, EAX, 0), 3));
        assert!(rt;
            reads(
                &[0x6B, 0xC1, 0xF0],
                plain(Op::ImulImmediate, 4, EAX, ECX, 0xFFFF_FFF0),
                3
            )
        );
        // repnz scas al,BYTE PTR es:[edi]; pause, with a prefix that changes nothing
        let scas = Instr {
            repeat: Repeat::F2,
            ..plain(Op::Scas, 1, Operand::Absent, Operand::Absent, 0)
        };
        assert!(rt; reads(&[0xF2, 0xAE], scas, 2));
        let pause = Instr {
            repeat: Repeat::F3,
            ..plain(Op::Nop, 1, Operand::Absent, Operand::Absent, 0)
        };
        assert!(rt; reads(&[0x66, 0xF3, 0x90], pause, 3));
    }

    #[test]
    fn what_follows_an_instruction_is_left(rt: HostRuntime) {
        let nop = plain(Op::Nop, 1, Operand::Absent, Operand::Absent, 0);
        assert!(rt; reads(&LARGE, nop, 1));
    }

    #[test]
    fn spellings_are_as_objdump_reads_them(rt: HostRuntime) {
        // add eax,0x1; jo with a displacement of 2, in its long form; mov eax,DWORD PTR [ecx*4+0x8]
        assert!(rt; spells(plain(Op::Add, 4, EAX, Operand::Imm, 1), &[0x05, 1, 0, 0, 0]));
        let jump = plain(
            Op::Jcc(Condition::Overflow),
            4,
            Operand::Imm,
            Operand::Absent,
            2,
        );
        assert!(rt; spells(jump, &[0x0F, 0x80, 2, 0, 0, 0]));
        let indexed = plain(Op::Mov, 4, EAX, memory(None, Some(1), 4, 8), 0);
        assert!(rt; spells(indexed, &[0x8B, 0x04, 0x8D, 8, 0, 0, 0]));
        // lock xadd WORD PTR [ebp+0x0],ax; rep movs BYTE PTR es:[edi],BYTE PTR ds:[esi]
        let xadd = Instr {
            lock: true,
            ..plain(Op::Xadd, 2, memory(Some(5), None, 1, 0), EAX, 0)
        };
        assert!(rt; spells(xadd, &[0x66, 0xF0, 0x0F, 0xC1, 0x45, 0]));
        let movs = Instr {
            repeat: Repeat::F3,
            ..plain(Op::Movs, 1, Operand::Absent, Operand::Absent, 0)
        };
        assert!(rt; spells(movs, &[0xF3, 0xA4]));
        // not eax, the member 2 of a group; sar cl, by 1; imul ax,cx,0xfff0
        assert!(rt; spells(plain(Op::Not, 4, EAX, Operand::Absent, 0), &[0xF7, 0xD0]));
        assert!(rt; spells(plain(Op::Sar, 1, ECX, Operand::Imm, 1), &[0xC0, 0xF9, 1]));
        assert!(rt;
            spells(
                plain(Op::ImulImmediate, 2, EAX, ECX, 0xFFF0),
                &[0x66, 0x69, 0xC1, 0xF0, 0xFF]
            )
        );
    }

    #[test]
    fn what_is_no_instruction_has_no_spelling(rt: HostRuntime) {
        assert!(rt; has_no_spelling(plain(Op::Add, 8, EAX, ECX, 0)));
        assert!(rt; has_no_spelling(plain(Op::Add, 4, Operand::Reg(8), ECX, 0)));
        assert!(rt; has_no_spelling(plain(Op::Mov, 4, EAX, memory(None, Some(4), 1, 0), 0)));
        assert!(rt; has_no_spelling(plain(Op::Mov, 4, EAX, memory(None, Some(1), 3, 0), 0)));
        let locked = Instr {
            lock: true,
            ..plain(Op::Add, 4, EAX, ECX, 0)
        };
        assert!(rt; has_no_spelling(locked));
    }
}
