//! Tests of the crate `asm_lines`.
#![tactic(auto)]

#[cfg(test)]
mod tests {
    use asm_lines::{Argument, Content, Mnemonic, Operands, Value, line_content};
    use ia32_decode::{Condition, Op, Repeat};

    fn is_no_line(line: &[u8]) -> bool {
        line_content(line).is_none()
    }

    fn says_nothing(line: &[u8]) -> bool {
        matches!(line_content(line), Some(Content::Nothing))
    }

    fn is_label(line: &[u8], name: &[u8]) -> bool {
        match line_content(line) {
            Some(Content::Label(label)) => label == name,
            _ => false,
        }
    }

    fn is_import(line: &[u8], name: &[u8]) -> bool {
        match line_content(line) {
            Some(Content::Import(import)) => import == name,
            _ => false,
        }
    }

    fn is_data(line: &[u8], digits: &[u8]) -> bool {
        match line_content(line) {
            Some(Content::Octets(octets)) => octets == digits,
            _ => false,
        }
    }

    fn is_word(line: &[u8], number: u64) -> bool {
        match line_content(line) {
            Some(Content::Word(Value::Number(word))) => word == number,
            _ => false,
        }
    }

    fn is_address(line: &[u8], name: &[u8]) -> bool {
        match line_content(line) {
            Some(Content::Word(Value::Address(label))) => label == name,
            _ => false,
        }
    }

    fn operands(line: &[u8]) -> Option<Operands<'_>> {
        match line_content(line) {
            Some(Content::Instruction(statement)) => Some(statement.operands),
            _ => None,
        }
    }

    fn is_register(argument: Argument<'_>, width: u8, number: u8) -> bool {
        match argument {
            Argument::Register(register) => register.width == width && register.number == number,
            _ => false,
        }
    }

    fn is_number(argument: Argument<'_>, wanted: u64) -> bool {
        match argument {
            Argument::Value(Value::Number(number)) => number == wanted,
            _ => false,
        }
    }

    fn is_at(argument: Argument<'_>, size: u8, at: Option<u8>, times: Option<(u8, u8)>) -> bool {
        let Argument::Memory(width, place) = argument else {
            return false;
        };
        let index = match place.index {
            Some(index) => Some((index.register, index.scale)),
            None => None,
        };
        width == size && place.base == at && index == times
    }

    #[test]
    fn lines_that_say_nothing(rt: HostRuntime) {
        assert!(rt; says_nothing(b"") && says_nothing(b" \t ") && says_nothing(b"# nop, nop"));
        assert!(rt; is_no_line(b" # nop") && is_no_line(b"nop # nop") && is_no_line(b","));
    }

    #[test]
    fn labels(rt: HostRuntime) {
        assert!(rt; is_label(b"next_1:", b"next_1") && is_label(b"  _a:  ", b"_a"));
        assert!(rt; is_no_line(b"1a:") && is_no_line(b":") && is_no_line(b"eax:"));
        assert!(rt; is_no_line(b"a::") && is_no_line(b"a :") && is_no_line(b"a: nop"));
    }

    #[test]
    fn data(rt: HostRuntime) {
        assert!(rt; is_data(b"db 00fFA5", b"00fFA5") && is_no_line(b"db 0") && is_no_line(b"db"));
        assert!(rt; is_no_line(b"db 00 11") && is_no_line(b"db 0x00") && is_no_line(b"db xy"));
        assert!(rt; is_word(b"dd 0", 0) && is_word(b"dd 4294967296", 0x1_0000_0000));
        assert!(rt; is_word(b"dd 0xfFf", 0xFFF) && is_no_line(b"dd 07") && is_no_line(b"dd 0x"));
        assert!(rt; is_word(b"dd 99999999999999999999", 0xFFFF_FFFF_FFFF_FFFF));
        assert!(rt; is_word(b"dd 0x10000000000000000", 0xFFFF_FFFF_FFFF_FFFF));
        assert!(rt;
            is_address(b"dd text", b"text") && is_no_line(b"dd eax") && is_no_line(b"dd -1")
        );
    }

    #[test]
    fn calls_of_imports(rt: HostRuntime) {
        assert!(rt; is_import(b"call @NdisMSleep", b"NdisMSleep") && is_no_line(b"call @"));
        assert!(rt; is_no_line(b"call @a b") && is_no_line(b"jmp @a") && is_no_line(b"call @a-b"));
    }

    #[test]
    fn operands_are_told_apart(rt: HostRuntime) {
        let Some(moved) = operands(b"mov al, 256") else {
            assert!(rt; false);
            return;
        };
        assert!(rt; is_register(moved.first, 1, 0) && is_number(moved.second, 256));
        let Some(added) = operands(b"\tlock add dword [esp+ebp*8+0x10] ,edi") else {
            assert!(rt; false);
            return;
        };
        assert!(rt;
            is_at(added.first, 4, Some(4), Some((5, 8))) && is_register(added.second, 4, 7)
        );
        let Some(shifted) = operands(b"shld word [ecx*2],ax,  cl") else {
            assert!(rt; false);
            return;
        };
        assert!(rt;
            is_at(shifted.first, 2, None, Some((1, 2))) && is_register(shifted.third, 1, 1)
        );
    }

    #[test]
    fn operands_that_are_none(rt: HostRuntime) {
        assert!(rt;
            is_no_line(b"mov eax,") && is_no_line(b"mov ,eax") && is_no_line(b"mov eax eax")
        );
        assert!(rt; is_no_line(b"shld eax,eax,cl,cl") && is_no_line(b"mov eax, [ecx]"));
        assert!(rt;
            is_no_line(b"inc dword []")
                && is_no_line(b"inc dword [eax")
                && is_no_line(b"inc dword eax]")
        );
        assert!(rt; is_no_line(b"inc dword [eax+ecx]") && is_no_line(b"inc dword [eax*3]"));
        assert!(rt; is_no_line(b"inc dword [1+eax]") && is_no_line(b"inc dword [ax]"));
        assert!(rt; is_no_line(b"inc dword [eax+ecx*2+1+1]") && is_no_line(b"inc qword [eax]"));
        assert!(rt;
            is_no_line(b"frob eax") && is_no_line(b"MOV eax, ecx") && is_no_line(b"lock rep movsb")
        );
        assert!(rt; is_no_line(b"lock") && is_no_line(b"lock, add eax, eax"));
    }

    fn has(line: &[u8], condition: Condition, behind: Repeat) -> bool {
        match line_content(line) {
            Some(Content::Instruction(statement)) => match statement.mnemonic {
                Mnemonic::To(Op::Jcc(found)) => {
                    found == condition && statement.prefix.repeat == behind
                }
                _ => false,
            },
            _ => false,
        }
    }

    #[test]
    fn mnemonics_and_prefixes(rt: HostRuntime) {
        assert!(rt; has(b"jle text", Condition::LessOrEqual, Repeat::Absent));
        assert!(rt; has(b"rep jo 5", Condition::Overflow, Repeat::F3));
        assert!(rt; has(b"repne jnp 5", Condition::NotParity, Repeat::F2));
    }

    #[test]
    fn a_long_line(rt: HostRuntime) {
        let blanks = [b' '; 4096];
        assert!(rt; says_nothing(&blanks));
    }
}
