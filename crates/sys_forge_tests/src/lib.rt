//! Tests of the crate `sys_forge`. Bytes are those that nasm or objdump give.
#![tactic(auto)]

#[cfg(test)]
mod tests {
    use std::alloc::Global;
    use sys_forge::{ForgeRefusal, assemble, assemble_with_places};

    fn gives(alloc: Global, text: &[u8], wanted: &[u8]) -> bool {
        match assemble(alloc, text) {
            Ok(bytes) => bytes.as_slice() == wanted,
            Err(_) => false,
        }
    }

    fn is_refused(alloc: Global, text: &[u8], wanted: ForgeRefusal) -> bool {
        match assemble(alloc, text) {
            Ok(_) => false,
            Err(refusal) => refusal == wanted,
        }
    }

    #[test]
    fn a_program(rt: HostRuntime) {
        let text =
            b"# adds 1\n\nstart:\n  mov eax, 1\r\n\tadd eax, dword [one]\n ret 8\none: \ndd 1\ndb 00ff";
        // mov eax,0x1; add eax,DWORD PTR ds:0x8010100e; ret 0x8
        let bytes = [
            0xB8, 1, 0, 0, 0, 0x03, 0x05, 0x0E, 0x10, 0x10, 0x80, 0xC2, 8, 0, 1, 0, 0, 0, 0, 0xFF,
        ];
        assert!(rt; gives(rt.alloc(), text, &bytes));
        assert!(rt; gives(rt.alloc(), b"", &[]) && gives(rt.alloc(), b"\n", &[]));
    }

    #[test]
    fn imports_have_one_word_each(rt: HostRuntime) {
        let text = b"call @A\ncall @B\ncall @A";
        // the words stand at 0x80101012 and 0x80101016
        let bytes = [
            0xFF, 0x15, 0x12, 0x10, 0x10, 0x80, 0xFF, 0x15, 0x16, 0x10, 0x10, 0x80, 0xFF, 0x15,
            0x12, 0x10, 0x10, 0x80, 0, 0, 0, 0, 0, 0, 0, 0,
        ];
        assert!(rt; gives(rt.alloc(), text, &bytes));
    }

    #[test]
    fn jumps_lead_to_labels(rt: HostRuntime) {
        let text = b"back:\njmp on\nje back\nloop back\non:\ncall 0x80101000";
        let bytes = [
            0xE9, 8, 0, 0, 0, 0x0F, 0x84, 0xF5, 0xFF, 0xFF, 0xFF, 0xE2, 0xF3, 0xE8, 0xEE, 0xFF,
            0xFF, 0xFF,
        ];
        assert!(rt; gives(rt.alloc(), text, &bytes));
    }

    /// The bytes are nasm's.
    #[test]
    fn each_mnemonic(rt: HostRuntime) {
        let text = b"jecxz 0x80101000\nloop 0x80101000\nloope 0x80101000\nloopne 0x80101000\n\
adc ecx, edx\nadd ecx, edx\nand ecx, edx\nbsf ecx, edx\nbsr ecx, edx\nbswap ecx\n\
bt ecx, edx\nbtc ecx, edx\nbtr ecx, edx\nbts ecx, edx\ncall 0x80101000\ncbw\ncdq\n\
clc\ncld\ncmc\ncmova ecx, edx\ncmovae ecx, edx\ncmovb ecx, edx\ncmovbe ecx, edx\n\
cmove ecx, edx\ncmovg ecx, edx\ncmovge ecx, edx\ncmovl ecx, edx\ncmovle ecx, edx\n\
cmovne ecx, edx\ncmovno ecx, edx\ncmovnp ecx, edx\ncmovns ecx, edx\ncmovo ecx, edx\n\
cmovp ecx, edx\ncmovs ecx, edx\ncmp ecx, edx\ncmpsb\ncmpsd\ncmpsw\n\
cmpxchg ecx, edx\ncwd\ncwde\ndec ecx\ndiv ecx\nidiv ecx\nimul ecx, edx\ninc ecx\n\
ja 0x80101000\njae 0x80101000\njb 0x80101000\njbe 0x80101000\nje 0x80101000\n\
jg 0x80101000\njge 0x80101000\njl 0x80101000\njle 0x80101000\njmp 0x80101000\n\
jne 0x80101000\njno 0x80101000\njnp 0x80101000\njns 0x80101000\njo 0x80101000\n\
jp 0x80101000\njs 0x80101000\nlahf\nlea ecx, dword [edx]\nleave\nlodsb\nlodsd\n\
lodsw\nmov ecx, edx\nmovsb\nmovsd\nmovsw\nmovsx ecx, dl\nmovzx ecx, dl\nmul ecx\n\
neg ecx\nnop\nnot ecx\nor ecx, edx\npop ecx\npopad\npopfd\npush ecx\npushad\n\
pushfd\nrcl ecx, cl\nrcr ecx, cl\nret\nrol ecx, cl\nror ecx, cl\nsahf\nsar ecx, cl\n\
sbb ecx, edx\nscasb\nscasd\nscasw\nseta cl\nsetae cl\nsetb cl\nsetbe cl\nsete cl\n\
setg cl\nsetge cl\nsetl cl\nsetle cl\nsetne cl\nsetno cl\nsetnp cl\nsetns cl\n\
seto cl\nsetp cl\nsets cl\nshl ecx, cl\nshld ecx, edx, cl\nshr ecx, cl\n\
shrd ecx, edx, cl\nstc\nstd\nstosb\nstosd\nstosw\nsub ecx, edx\ntest ecx, edx\n\
xadd ecx, edx\nxchg dword [ecx], edx\nxor ecx, edx\n";
        let bytes = [
            0xE3, 0xFE, 0xE2, 0xFC, 0xE1, 0xFA, 0xE0, 0xF8, 0x11, 0xD1, 0x01, 0xD1, 0x21, 0xD1,
            0x0F, 0xBC, 0xCA, 0x0F, 0xBD, 0xCA, 0x0F, 0xC9, 0x0F, 0xA3, 0xD1, 0x0F, 0xBB, 0xD1,
            0x0F, 0xB3, 0xD1, 0x0F, 0xAB, 0xD1, 0xE8, 0xD9, 0xFF, 0xFF, 0xFF, 0x66, 0x98, 0x99,
            0xF8, 0xFC, 0xF5, 0x0F, 0x47, 0xCA, 0x0F, 0x43, 0xCA, 0x0F, 0x42, 0xCA, 0x0F, 0x46,
            0xCA, 0x0F, 0x44, 0xCA, 0x0F, 0x4F, 0xCA, 0x0F, 0x4D, 0xCA, 0x0F, 0x4C, 0xCA, 0x0F,
            0x4E, 0xCA, 0x0F, 0x45, 0xCA, 0x0F, 0x41, 0xCA, 0x0F, 0x4B, 0xCA, 0x0F, 0x49, 0xCA,
            0x0F, 0x40, 0xCA, 0x0F, 0x4A, 0xCA, 0x0F, 0x48, 0xCA, 0x39, 0xD1, 0xA6, 0xA7, 0x66,
            0xA7, 0x0F, 0xB1, 0xD1, 0x66, 0x99, 0x98, 0x49, 0xF7, 0xF1, 0xF7, 0xF9, 0x0F, 0xAF,
            0xCA, 0x41, 0x0F, 0x87, 0x88, 0xFF, 0xFF, 0xFF, 0x0F, 0x83, 0x82, 0xFF, 0xFF, 0xFF,
            0x0F, 0x82, 0x7C, 0xFF, 0xFF, 0xFF, 0x0F, 0x86, 0x76, 0xFF, 0xFF, 0xFF, 0x0F, 0x84,
            0x70, 0xFF, 0xFF, 0xFF, 0x0F, 0x8F, 0x6A, 0xFF, 0xFF, 0xFF, 0x0F, 0x8D, 0x64, 0xFF,
            0xFF, 0xFF, 0x0F, 0x8C, 0x5E, 0xFF, 0xFF, 0xFF, 0x0F, 0x8E, 0x58, 0xFF, 0xFF, 0xFF,
            0xE9, 0x53, 0xFF, 0xFF, 0xFF, 0x0F, 0x85, 0x4D, 0xFF, 0xFF, 0xFF, 0x0F, 0x81, 0x47,
            0xFF, 0xFF, 0xFF, 0x0F, 0x8B, 0x41, 0xFF, 0xFF, 0xFF, 0x0F, 0x89, 0x3B, 0xFF, 0xFF,
            0xFF, 0x0F, 0x80, 0x35, 0xFF, 0xFF, 0xFF, 0x0F, 0x8A, 0x2F, 0xFF, 0xFF, 0xFF, 0x0F,
            0x88, 0x29, 0xFF, 0xFF, 0xFF, 0x9F, 0x8D, 0x0A, 0xC9, 0xAC, 0xAD, 0x66, 0xAD, 0x89,
            0xD1, 0xA4, 0xA5, 0x66, 0xA5, 0x0F, 0xBE, 0xCA, 0x0F, 0xB6, 0xCA, 0xF7, 0xE1, 0xF7,
            0xD9, 0x90, 0xF7, 0xD1, 0x09, 0xD1, 0x59, 0x61, 0x9D, 0x51, 0x60, 0x9C, 0xD3, 0xD1,
            0xD3, 0xD9, 0xC3, 0xD3, 0xC1, 0xD3, 0xC9, 0x9E, 0xD3, 0xF9, 0x19, 0xD1, 0xAE, 0xAF,
            0x66, 0xAF, 0x0F, 0x97, 0xC1, 0x0F, 0x93, 0xC1, 0x0F, 0x92, 0xC1, 0x0F, 0x96, 0xC1,
            0x0F, 0x94, 0xC1, 0x0F, 0x9F, 0xC1, 0x0F, 0x9D, 0xC1, 0x0F, 0x9C, 0xC1, 0x0F, 0x9E,
            0xC1, 0x0F, 0x95, 0xC1, 0x0F, 0x91, 0xC1, 0x0F, 0x9B, 0xC1, 0x0F, 0x99, 0xC1, 0x0F,
            0x90, 0xC1, 0x0F, 0x9A, 0xC1, 0x0F, 0x98, 0xC1, 0xD3, 0xE1, 0x0F, 0xA5, 0xD1, 0xD3,
            0xE9, 0x0F, 0xAD, 0xD1, 0xF9, 0xFD, 0xAA, 0xAB, 0x66, 0xAB, 0x29, 0xD1, 0x85, 0xD1,
            0x0F, 0xC1, 0xD1, 0x87, 0x11, 0x31, 0xD1,
        ];
        assert!(rt; gives(rt.alloc(), text, &bytes));
    }

    /// 200 bytes of NOP, a jump to each side, and 200 bytes more.
    const FAR: &[u8] = b"back:\n\
db 9090909090909090909090909090909090909090909090909090909090909090909090909090909090909090909090909090\n\
db 9090909090909090909090909090909090909090909090909090909090909090909090909090909090909090909090909090\n\
db 9090909090909090909090909090909090909090909090909090909090909090909090909090909090909090909090909090\n\
db 9090909090909090909090909090909090909090909090909090909090909090909090909090909090909090909090909090\n\
jmp on\nje back\ncall back\n\
db 9090909090909090909090909090909090909090909090909090909090909090909090909090909090909090909090909090\n\
db 9090909090909090909090909090909090909090909090909090909090909090909090909090909090909090909090909090\n\
db 9090909090909090909090909090909090909090909090909090909090909090909090909090909090909090909090909090\n\
db 9090909090909090909090909090909090909090909090909090909090909090909090909090909090909090909090909090\n\
on:\nmov ecx, dword [back]\nmov edx, on\ndd on";

    fn stands(bytes: &[u8], place: usize, wanted: &[u8]) -> bool {
        place <= bytes.len() && bytes[place..].starts_with(wanted)
    }

    /// Whether the jumps and what is behind them are these.
    fn leads_far(alloc: Global, jumps: &[u8], end: &[u8]) -> bool {
        match assemble(alloc, FAR) {
            Ok(bytes) => {
                let bytes = bytes.as_slice();
                bytes.len() == 431 && stands(bytes, 200, jumps) && stands(bytes, 416, end)
            }
            Err(_) => false,
        }
    }

    /// The bytes are nasm's.
    #[test]
    fn jumps_lead_far(rt: HostRuntime) {
        let jumps = [
            0xE9, 0xD3, 0x00, 0x00, 0x00, 0x0F, 0x84, 0x2D, 0xFF, 0xFF, 0xFF, 0xE8, 0x28, 0xFF,
            0xFF, 0xFF,
        ];
        let end = [
            0x8B, 0x0D, 0x00, 0x10, 0x10, 0x80, 0xBA, 0xA0, 0x11, 0x10, 0x80, 0xA0, 0x11, 0x10,
            0x80,
        ];
        assert!(rt; leads_far(rt.alloc(), &jumps, &end));
    }

    fn has_places(alloc: Global, text: &[u8], wanted: &[u32]) -> bool {
        match assemble_with_places(alloc, text) {
            Ok(what) => what.places.as_slice() == wanted,
            Err(_) => false,
        }
    }

    /// The places are counted from the encodings of Intel's manual.
    #[test]
    fn words_with_addresses(rt: HostRuntime) {
        let text = b"start:\n mov eax, there\n mov dword [eax+there], start\n jmp there\n call @A\n\
 loop 0x80101010\n mov word [there], 0x8010\n push 0x80101000\nthere:\n dd there\n dd 5\n";
        // b8 (there); c7 80 (there) (start); e9 ..; ff 15 (A); e2 ..; 66 c7 05 (there) 10 80; 68 ..; (there)
        assert!(rt; has_places(rt.alloc(), text, &[1, 7, 11, 22, 31, 42]));
        assert!(rt; has_places(rt.alloc(), b"nop\n jmp 0x80101000", &[]));
    }

    #[test]
    fn lines_are_refused(rt: HostRuntime) {
        let alloc = rt.alloc();
        assert!(rt; is_refused(alloc, b"mov al, 256", ForgeRefusal::Range(1)));
        assert!(rt;
            is_refused(
                alloc,
                b"nop\nmov al, ah, 1\nmov al, 256",
                ForgeRefusal::Line(2)
            )
        );
        assert!(rt; is_refused(alloc, b"jmp there", ForgeRefusal::Line(1)));
        assert!(rt; is_refused(alloc, b"a:\nnop\na:", ForgeRefusal::Line(3)));
        assert!(rt; is_refused(alloc, b"dd 0x100000000", ForgeRefusal::Range(1)));
        assert!(rt; is_refused(alloc, b"mov eax, cl", ForgeRefusal::Line(1)));
        assert!(rt; is_refused(alloc, b"mov al, 256\nfrob", ForgeRefusal::Range(1)));
        assert!(rt; is_refused(alloc, b"loop 0x80101082", ForgeRefusal::Range(1)));
        assert!(rt; is_refused(alloc, b"nop # nothing", ForgeRefusal::Line(1)));
    }
}
