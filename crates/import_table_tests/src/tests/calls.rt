use ia32_step::Regs;
use import_table::{Call, Convention, CutCall, ImportRow, arguments, import_row};
use nd_base::Addr;
use nd_mem::{MemFault, Memory, Rights};
use std::alloc::Global;

/// The first address of the stack, and the first behind it.
const STACK: u32 = 0x8200_0000;

const END: u32 = 0x8200_0040;

/// A stack of 64 bytes that counts up from 1, and behind it a byte that may only be written.
fn stack(alloc: Global) -> Option<Memory> {
    let readable = Rights {
        read: true,
        write: true,
        execute: false,
    };
    let hidden = Rights {
        read: false,
        write: true,
        execute: false,
    };
    let mut memory = Memory::new(alloc);
    memory.add_region(alloc, Addr(STACK), 64, readable).ok()?;
    memory.add_region(alloc, Addr(END), 1, hidden).ok()?;
    Some(memory)
}

/// Whether the words of the stack could be written: word k, from 1, is k.
fn is_filled(memory: &mut Memory) -> bool {
    (0..16_u32).all(|k| memory
        .write(Addr(STACK + k % 16 * 4), &(k % 16 + 1).to_le_bytes())
        .is_ok())
}

/// Registers with this ECX, EDX and ESP.
fn registers(ecx: u32, edx: u32, esp: u32) -> Regs {
    let mut regs = Regs::new();
    regs.general[1] = ecx;
    regs.general[2] = edx;
    regs.general[4] = esp;
    regs
}

/// Whether a call of the row with this ESP has these words.
fn has_words(memory: &Memory, row: &ImportRow, esp: u32, words: [u32; 8]) -> bool {
    let call = Call {
        import: row.import,
        count: row.words,
        words,
    };
    arguments(row, &registers(70, 80, esp), memory) == Ok(call)
}

/// Whether a call of the row with this ESP is cut off behind `count` words, with this fault.
fn is_cut(
    memory: &Memory,
    row: &ImportRow,
    esp: u32,
    count: u8,
    words: [u32; 8],
    fault: MemFault,
) -> bool {
    let call = Call {
        import: row.import,
        count,
        words,
    };
    arguments(row, &registers(70, 80, esp), memory) == Err(CutCall { call, fault })
}

/// A row that no import has: three words by fastcall.
const FAST: ImportRow = ImportRow {
    name: b"Fast",
    import: 7,
    words: 3,
    convention: Convention::Fastcall,
    low: 0,
    high: 0,
};

fn words_are_taken(memory: &Memory) -> bool {
    has_words(memory, import_row(2), STACK, [2, 3, 0, 0, 0, 0, 0, 0])
        && has_words(memory, import_row(62), STACK + 8, [4, 5, 6, 0, 0, 0, 0, 0])
        && has_words(memory, import_row(4), STACK, [70, 0, 0, 0, 0, 0, 0, 0])
        && has_words(memory, &FAST, STACK, [70, 80, 2, 0, 0, 0, 0, 0])
        && has_words(
            memory,
            import_row(47),
            END - 36,
            [9, 10, 11, 12, 13, 14, 15, 16],
        )
}

fn calls_are_cut_off(memory: &Memory) -> bool {
    let hidden = MemFault::NotReadable(Addr(END));
    is_cut(memory, import_row(2), END, 0, [0; 8], hidden)
        && is_cut(memory, import_row(4), END, 0, [0; 8], hidden)
        && is_cut(memory, import_row(2), END - 4, 0, [0; 8], hidden)
        && is_cut(
            memory,
            import_row(2),
            END - 8,
            1,
            [16, 0, 0, 0, 0, 0, 0, 0],
            hidden,
        )
        && is_cut(
            memory,
            import_row(2),
            END - 10,
            1,
            [0x0010_0000, 0, 0, 0, 0, 0, 0, 0],
            hidden,
        )
        && is_cut(
            memory,
            &FAST,
            END - 4,
            2,
            [70, 80, 0, 0, 0, 0, 0, 0],
            hidden,
        )
        && is_cut(
            memory,
            import_row(2),
            STACK - 4,
            0,
            [0; 8],
            MemFault::Unmapped(Addr(STACK - 4)),
        )
        && is_cut(
            memory,
            import_row(2),
            0xFFFF_FFFC,
            0,
            [0; 8],
            MemFault::Unmapped(Addr(0xFFFF_FFFC)),
        )
}

#[test]
fn words_by_each_convention(rt: HostRuntime) {
    let taken = match stack(rt.alloc()) {
        Some(mut memory) => is_filled(&mut memory) && words_are_taken(&memory),
        None => false,
    };
    assert!(rt; taken);
}

#[test]
fn words_that_cannot_be_read(rt: HostRuntime) {
    let cut = match stack(rt.alloc()) {
        Some(mut memory) => is_filled(&mut memory) && calls_are_cut_off(&memory),
        None => false,
    };
    assert!(rt; cut);
}

fn goes_on_at_0(alloc: Global) -> Option<bool> {
    let readable = Rights {
        read: true,
        write: true,
        execute: false,
    };
    let mut memory = Memory::new(alloc);
    memory.add_region(alloc, Addr(0), 4, readable).ok()?;
    Some(is_cut(
        &memory,
        import_row(2),
        0,
        0,
        [0; 8],
        MemFault::Unmapped(Addr(4)),
    ))
}

#[test]
fn a_stack_at_address_0(rt: HostRuntime) {
    assert!(rt; goes_on_at_0(rt.alloc()) == Some(true));
}
