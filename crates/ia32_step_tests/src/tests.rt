//! Instructions, one at a time and in small programs.

use ia32_arithmetic::Flags;
use ia32_step::{Decodings, FaultKind, Regs, Stepped, step, step_decoded};
use nd_base::{Addr, Slot};
use nd_mem::{Memory, Rights};
use std::alloc::Global;

/// Where code stands. It can be read and executed.
const CODE: u32 = 0x1000;

/// Where data stand, 0 at first. They can be read and written.
const DATA: u32 = 0x2000;

const EAX: usize = 0;

const ECX: usize = 1;

const EDX: usize = 2;

const ESP: usize = 4;

const ESI: usize = 6;

const EDI: usize = 7;

/// The bits of CF, PF, AF, ZF and OF in EFLAGS.
const CF: u32 = 1;

const PF: u32 = 4;

const AF: u32 = 0x10;

const ZF: u32 = 0x40;

const OF: u32 = 0x800;

fn add(alloc: Global, m: &mut Memory, at: u32, write: bool, execute: bool) -> bool {
    let rights = Rights {
        read: true,
        write,
        execute,
    };
    m.add_region(alloc, Addr(at), 0x100, rights).is_ok()
}

/// Code and data.
fn lay_out(alloc: Global, m: &mut Memory) -> bool {
    add(alloc, m, CODE, false, true) && add(alloc, m, DATA, true, false)
}

/// A step of the instruction that these bytes spell.
fn one(code: &[u8], r: &mut Regs, m: &mut Memory) -> Stepped {
    let _ = m.place(Addr(CODE), code);
    r.eip = CODE;
    step(r, m)
}

/// The instruction is done, and EIP is behind it.
fn goes(code: &[u8], r: &mut Regs, m: &mut Memory) -> bool {
    one(code, r, m) == Stepped::Went && u64::from(r.eip) == 0x1000 + code.len() as u64
}

/// The instruction faults, and changes no register.
fn faults(code: &[u8], r: &mut Regs, m: &mut Memory, kind: FaultKind, at: u32) -> bool {
    r.eip = CODE;
    let before = *r;
    one(code, r, m) == Stepped::Fault(kind, Addr(at)) && *r == before
}

/// The four bytes at an address of data.
fn word_at(m: &Memory, at: u32) -> u32 {
    let mut bytes = [0; 4];
    let _ = m.read(Addr(at), &mut bytes);
    u32::from_le_bytes(bytes)
}

/// adc al, ff, and a 16-bit addition, which keeps the high half.
fn adds(m: &mut Memory) -> bool {
    let mut r = Regs::new();
    r.general[EAX] = 0x1234_5600;
    r.flags = Flags::of_word(CF);
    let carried = goes(&[0x14, 0xFF], &mut r, m)
        && r.general[EAX] == 0x1234_5600
        && r.flags == Flags::of_word(CF + PF + AF + ZF);
    r.general[ECX] = 0x0001_AA01;
    // add ax, cx
    carried && goes(&[0x66, 0x01, 0xC8], &mut r, m) && r.general[EAX] == 0x1234_0001
}

#[test]
fn additions(rt: HostRuntime) {
    let mut m = Memory::new(rt.alloc());
    let holds = lay_out(rt.alloc(), &mut m) && adds(&mut m);
    assert!(rt; holds);
}

/// div ecx by 0; idiv of -2 ^ 63 by -1, and of the least number whose quotient fits.
fn divides(m: &mut Memory) -> bool {
    let mut r = Regs::new();
    r.general[EAX] = 7;
    let by_zero = faults(&[0xF7, 0xF1], &mut r, m, FaultKind::DivideError, CODE);
    r.general[EAX] = 0;
    r.general[EDX] = 0x8000_0000;
    r.general[ECX] = 0xFFFF_FFFF;
    let large = faults(&[0xF7, 0xF9], &mut r, m, FaultKind::DivideError, CODE);
    r.general[EAX] = 0x8000_0000;
    r.general[EDX] = 0xFFFF_FFFF;
    r.general[ECX] = 1;
    by_zero
        && large
        && goes(&[0xF7, 0xF9], &mut r, m)
        && r.general[EAX] == 0x8000_0000
        && r.general[EDX] == 0
}

#[test]
fn divisions(rt: HostRuntime) {
    let mut m = Memory::new(rt.alloc());
    let holds = lay_out(rt.alloc(), &mut m) && divides(&mut m);
    assert!(rt; holds);
}

/// push esp pushes it as it was; pop [esp] is by ESP as it becomes.
fn pushes_and_pops(m: &mut Memory) -> bool {
    let mut r = Regs::new();
    r.general[ESP] = DATA + 0x20;
    goes(&[0x54], &mut r, m)
        && r.general[ESP] == DATA + 0x1C
        && word_at(m, DATA + 0x1C) == DATA + 0x20
        && goes(&[0x8F, 0x04, 0x24], &mut r, m)
        && r.general[ESP] == DATA + 0x20
        && word_at(m, DATA + 0x20) == DATA + 0x20
}

/// pushad and popad give back all registers; ESP is not taken from the stack.
fn pushes_all(m: &mut Memory) -> bool {
    let mut r = Regs::new();
    r.general = [1, 2, 3, 4, DATA + 0x40, 6, 7, 8];
    let pushed = goes(&[0x60], &mut r, m) && r.general[ESP] == DATA + 0x20;
    r.general = [0, 0, 0, 0, DATA + 0x20, 0, 0, 0];
    pushed && goes(&[0x61], &mut r, m) && r.general == [1, 2, 3, 4, DATA + 0x40, 6, 7, 8]
}

#[test]
fn the_stack(rt: HostRuntime) {
    let mut m = Memory::new(rt.alloc());
    let holds = lay_out(rt.alloc(), &mut m) && pushes_and_pops(&mut m) && pushes_all(&mut m);
    assert!(rt; holds);
}

/// call whose push faults; ret 4; jecxz both ways; loop.
fn jumps(m: &mut Memory) -> bool {
    let mut r = Regs::new();
    let call = [0xE8, 0, 1, 0, 0];
    let unpushed = faults(&call, &mut r, m, FaultKind::Unmapped, 0xFFFF_FFFC);
    r.general[ESP] = DATA + 8;
    let called = one(&call, &mut r, m) == Stepped::Went
        && r.eip == CODE + 0x105
        && word_at(m, DATA + 4) == CODE + 5;
    let returned = one(&[0xC2, 4, 0], &mut r, m) == Stepped::Went
        && r.eip == CODE + 5
        && r.general[ESP] == DATA + 12;
    let jumped = one(&[0xE3, 0x10], &mut r, m) == Stepped::Went && r.eip == CODE + 0x12;
    r.general[ECX] = 2;
    let passed = goes(&[0xE3, 0x10], &mut r, m);
    let looped = one(&[0xE2, 0xFE], &mut r, m) == Stepped::Went && r.eip == CODE;
    let ended = goes(&[0xE2, 0xFE], &mut r, m) && r.general[ECX] == 0;
    unpushed && called && returned && jumped && passed && looped && ended
}

#[test]
fn jumps_and_calls(rt: HostRuntime) {
    let mut m = Memory::new(rt.alloc());
    let holds = lay_out(rt.alloc(), &mut m) && jumps(&mut m);
    assert!(rt; holds);
}

/// Accesses of which the second faults: xchg [code], eax; cmpxchg [code], ecx, which is written
/// where it is unequal too; rep movsb into code.
fn second_access_faults(m: &mut Memory) -> bool {
    let mut r = Regs::new();
    r.general = [5, 3, 0, 0, 0, 0, DATA, CODE];
    let at = CODE + 0x80;
    faults(
        &[0x87, 0x05, 0x80, 0x10, 0, 0],
        &mut r,
        m,
        FaultKind::NotWritable,
        at,
    ) && faults(
        &[0x0F, 0xB1, 0x0D, 0x80, 0x10, 0, 0],
        &mut r,
        m,
        FaultKind::NotWritable,
        at,
    ) && faults(&[0xF3, 0xA4], &mut r, m, FaultKind::NotWritable, CODE)
        && word_at(m, at) == 0
}

#[test]
fn a_fault_changes_nothing(rt: HostRuntime) {
    let mut m = Memory::new(rt.alloc());
    let holds = lay_out(rt.alloc(), &mut m) && second_access_faults(&mut m);
    assert!(rt; holds);
}

/// So many steps of rep movsb, which begins at the code's front.
fn moves(n: u32, r: &mut Regs, m: &mut Memory) -> bool {
    for _ in 0..n {
        if step(r, m) != Stepped::Went {
            return false;
        }
    }
    true
}

/// rep movsb: with ECX 0 nothing; of 100 bytes 64, and then the rest.
fn repeats(m: &mut Memory) -> bool {
    let mut r = Regs::new();
    let none = goes(&[0xF3, 0xA4], &mut r, m) && r.general == [0; 8];
    let _ = m.place(Addr(DATA), &[0xA5; 100]);
    r.general[ECX] = 100;
    r.general[ESI] = DATA;
    r.general[EDI] = DATA + 0x80;
    r.eip = CODE;
    let most = moves(64, &mut r, m) && r.general[ECX] == 36 && r.eip == CODE;
    let not_yet = word_at(m, DATA + 0x80 + 62) == 0xA5A5;
    let rest = moves(36, &mut r, m) && r.general[ECX] == 0 && r.eip == CODE + 2;
    let all = word_at(m, DATA + 0x80 + 98) == 0xA5A5 && word_at(m, DATA + 0x80 + 96) == 0xA5A5_A5A5;
    none && most && not_yet && rest && all
}

/// repne scasb stops at the byte that is AL; std lets lodsd go down.
fn scans(m: &mut Memory) -> bool {
    let mut r = Regs::new();
    let _ = m.place(Addr(DATA), &[1, 2, 3, 4, 5, 6, 7, 8]);
    r.general[EAX] = 3;
    r.general[ECX] = 10;
    r.general[EDI] = DATA;
    let _ = m.place(Addr(CODE), &[0xF2, 0xAE]);
    r.eip = CODE;
    let found = moves(3, &mut r, m)
        && r.eip == CODE + 2
        && r.general[ECX] == 7
        && r.general[EDI] == DATA + 3
        && r.flags.zero;
    r.general[ESI] = DATA + 4;
    let down = goes(&[0xFD], &mut r, m) && goes(&[0xAD], &mut r, m);
    found && down && r.general[EAX] == 0x0807_0605 && r.general[ESI] == DATA
}

#[test]
fn strings(rt: HostRuntime) {
    let mut m = Memory::new(rt.alloc());
    let holds = lay_out(rt.alloc(), &mut m) && repeats(&mut m) && scans(&mut m);
    assert!(rt; holds);
}

/// bt [data + 8], eax with EAX -1 is bit 31 of the number below; lock bts of an immediate; movsx,
/// lea, setc and cmov of 16 bits.
fn bits_and_moves(m: &mut Memory) -> bool {
    let mut r = Regs::new();
    let _ = m.place(Addr(DATA + 4), &[0, 0, 0, 0x80]);
    r.general[EAX] = 0xFFFF_FFFF;
    let below = goes(&[0x0F, 0xA3, 0x05, 0x08, 0x20, 0, 0], &mut r, m) && r.flags.carry;
    let set = goes(&[0xF0, 0x0F, 0xBA, 0x2D, 0x08, 0x20, 0, 0, 0x21], &mut r, m)
        && !r.flags.carry
        && word_at(m, DATA + 8) == 2;
    r.general[ECX] = 0x80;
    let extended = goes(&[0x66, 0x0F, 0xBE, 0xC1], &mut r, m) && r.general[EAX] == 0xFFFF_FF80;
    // lea edx, [eax + ecx * 2 + 1]
    let address = goes(&[0x8D, 0x54, 0x48, 1], &mut r, m) && r.general[EDX] == 0x81;
    r.flags = Flags::of_word(CF + OF);
    // setc dh; cmovo ax, cx
    let chosen = goes(&[0x0F, 0x92, 0xC6], &mut r, m)
        && r.general[EDX] == 0x181
        && goes(&[0x66, 0x0F, 0x40, 0xC1], &mut r, m)
        && r.general[EAX] == 0xFFFF_0080;
    below && set && extended && address && chosen
}

#[test]
fn bits_and_extensions(rt: HostRuntime) {
    let mut m = Memory::new(rt.alloc());
    let holds = lay_out(rt.alloc(), &mut m) && bits_and_moves(&mut m);
    assert!(rt; holds);
}

/// jmp to itself, a hundred thousand times.
#[test]
fn a_hundred_thousand_jumps(rt: HostRuntime) {
    let mut m = Memory::new(rt.alloc());
    let mut r = Regs::new();
    let holds = lay_out(rt.alloc(), &mut m)
        && one(&[0xEB, 0xFE], &mut r, &mut m) == Stepped::Went
        && moves(99_999, &mut r, &mut m)
        && r.eip == CODE;
    assert!(rt; holds);
}

/// A step at an address where no code was placed.
fn stepped_at(m: &mut Memory, eip: u32) -> Stepped {
    let mut r = Regs::new();
    r.eip = eip;
    step(&mut r, m)
}

/// FLD ST(0) is none of the instructions; an instruction is cut off by the end of the code; data
/// can't be executed; nothing is mapped behind them.
fn code_faults(m: &mut Memory) -> bool {
    let mut r = Regs::new();
    let _ = m.place(Addr(CODE + 0xFE), &[0xB8, 5]);
    faults(&[0xD9, 0xC0], &mut r, m, FaultKind::Outside, CODE)
        && stepped_at(m, CODE + 0xFE) == Stepped::Fault(FaultKind::Unmapped, Addr(CODE + 0x100))
        && stepped_at(m, DATA) == Stepped::Fault(FaultKind::NotExecutable, Addr(DATA))
        && stepped_at(m, DATA + 0x100) == Stepped::Fault(FaultKind::Unmapped, Addr(DATA + 0x100))
}

#[test]
fn what_is_no_code(rt: HostRuntime) {
    let mut m = Memory::new(rt.alloc());
    let holds = lay_out(rt.alloc(), &mut m) && code_faults(&mut m);
    assert!(rt; holds);
}

#[test]
fn slots_trap(rt: HostRuntime) {
    let mut m = Memory::new(rt.alloc());
    let holds = stepped_at(&mut m, 0xF000_1000) == Stepped::Trap(Slot::Leave)
        && stepped_at(&mut m, 0xF000_0000) == Stepped::Trap(Slot::Import(1))
        && stepped_at(&mut m, 0xF000_03F0) == Stepped::Trap(Slot::Import(64))
        && stepped_at(&mut m, 0xF000_0400)
            == Stepped::Fault(FaultKind::Unmapped, Addr(0xF000_0400));
    assert!(rt; holds);
}

/// So many steps over what is kept of the steps before.
fn decoded_steps(n: u32, r: &mut Regs, m: &mut Memory) -> Stepped {
    let mut decodings = Decodings::new();
    let mut count = 0;
    while count < n {
        match step_decoded(&mut decodings, r, m) {
            Stepped::Went => count += 1,
            last => return last,
        }
    }
    Stepped::Went
}

/// The same steps, each decoded anew.
fn steps(n: u32, r: &mut Regs, m: &mut Memory) -> Stepped {
    for _ in 0..n {
        match step(r, m) {
            Stepped::Went => {}
            last => return last,
        }
    }
    Stepped::Went
}

/// A program that may be written over, with these bytes at its front and zeros behind.
fn program(alloc: Global, code: &[u8]) -> Memory {
    let mut m = Memory::new(alloc);
    let all = Rights {
        read: true,
        write: true,
        execute: true,
    };
    let _ = m.add_region(alloc, Addr(CODE), 0x100, all);
    let _ = m.place(Addr(CODE), code);
    m
}

/// The programs are the same in the two memories.
fn are_same(a: &Memory, b: &Memory) -> bool {
    let mut left = [0; 0x100];
    let mut right = [1; 0x100];
    a.read(Addr(CODE), &mut left).is_ok() && b.read(Addr(CODE), &mut right).is_ok() && left == right
}

/// The registers after 64 steps of the program, and whether they, memory and the last answer are
/// the same as where each step is decoded anew.
fn ran(alloc: Global, code: &[u8], first: Regs) -> (bool, Regs) {
    let mut a = program(alloc, code);
    let mut b = program(alloc, code);
    let mut kept = first;
    let mut anew = first;
    let ends = decoded_steps(64, &mut kept, &mut a) == steps(64, &mut anew, &mut b);
    (ends && kept == anew && are_same(&a, &b), kept)
}

/// Registers at the front of a program, with these in ECX, ESI and EDI.
fn at_front(ecx: u32, esi: u32, edi: u32) -> Regs {
    let mut r = Regs::new();
    r.eip = CODE;
    r.general[ECX] = ecx;
    r.general[ESI] = esi;
    r.general[EDI] = edi;
    r
}

/// A loop that writes nothing.
#[test]
fn kept_loops_are_steps(rt: HostRuntime) {
    let first = at_front(0, 0, 0);
    // inc eax; add ecx, eax; jmp to the front
    let plain = ran(rt.alloc(), &[0x40, 0x01, 0xC1, 0xEB, 0xFB], first);
    assert!(rt; plain.0 && plain.1.general[EAX] == 22);
}

/// Loops that write over an instruction of theirs: the one before, the next one, a byte inside one.
#[test]
fn what_is_written_is_run(rt: HostRuntime) {
    let first = at_front(0, 0, 0);
    // inc eax; xor byte [CODE], 8; jmp to the front: inc and dec in turn
    let code = [0x40, 0x80, 0x35, 0, 0x10, 0, 0, 8, 0xEB, 0xF6];
    let turned = ran(rt.alloc(), &code, first);
    assert!(rt; turned.0 && turned.1.general[EAX] == 0);
    // mov byte [CODE + 7], 0x48; inc eax; jmp to the front: dec each time
    let code = [0xC6, 0x05, 7, 0x10, 0, 0, 0x48, 0x40, 0xEB, 0xF6];
    let next = ran(rt.alloc(), &code, first);
    assert!(rt; next.0 && next.1.general[EAX] == 0xFFFF_FFEB);
    // add eax, 1; inc byte [CODE + 1]; jmp to the front
    let code = [0x05, 1, 0, 0, 0, 0xFE, 0x05, 1, 0x10, 0, 0, 0xEB, 0xF3];
    let sum = ran(rt.alloc(), &code, first);
    assert!(rt; sum.0 && sum.1.general[EAX] == 253);
}

/// Loops that write just below their own bytes, just behind them, and into one of them by the last
/// byte of a word.
#[test]
fn writes_beside_code(rt: HostRuntime) {
    let mut first = at_front(0, 0, 0);
    first.eip = CODE + 4;
    // nops; inc dword [CODE]; inc eax; jmp: the word before the loop
    let code = [
        0x90, 0x90, 0x90, 0x90, 0xFF, 0x05, 0, 0x10, 0, 0, 0x40, 0xEB, 0xF7,
    ];
    let below = ran(rt.alloc(), &code, first);
    assert!(rt; below.0 && below.1.general[EAX] == 21);
    // inc dword [CODE + 13]: the word behind the loop
    let code = [
        0x90, 0x90, 0x90, 0x90, 0xFF, 0x05, 13, 0x10, 0, 0, 0x40, 0xEB, 0xF7,
    ];
    let behind = ran(rt.alloc(), &code, first);
    assert!(rt; behind.0 && behind.1.general[EAX] == 21);
    // xor dword [CODE + 7], 0x08000000: the last byte of the word is the loop's inc, or dec
    let code = [0x81, 0x35, 7, 0x10, 0, 0, 0, 0, 0, 8, 0x40, 0xEB, 0xF3];
    let last = ran(rt.alloc(), &code, at_front(0, 0, 0));
    assert!(rt; last.0 && last.1.general[EAX] == 0xFFFF_FFFF);
}

/// Two instructions 32 bytes apart, which have one place, in turn.
#[test]
fn one_place_of_two(rt: HostRuntime) {
    let mut code = [0x90; 0x40];
    // jmp to CODE + 0x20; there add eax, 2; jmp to CODE + 2; there inc ecx; jmp to the front
    let front = [0xEB, 0x1E, 0x41, 0xEB, 0xFB];
    let back = [0x83, 0xC0, 2, 0xEB, 0xDD];
    code[..5].copy_from_slice(&front);
    code[0x20..0x25].copy_from_slice(&back);
    let both = ran(rt.alloc(), &code, at_front(0, 0, 0));
    assert!(rt; both.0 && both.1.general[EAX] == 26 && both.1.general[ECX] == 13);
}

/// rep movsb over itself: when its first byte is written, inc eax and movsb stand there.
#[test]
fn strings_over_code(rt: HostRuntime) {
    // rep movsb; jmp to itself; what is copied
    let code = [0xF3, 0xA4, 0xEB, 0xFE, 0x40, 0x40, 0x40, 0xEB, 0xFE];
    let over = ran(rt.alloc(), &code, at_front(5, CODE + 4, CODE));
    assert!(rt; over.0 && over.1.eip == CODE + 2 && over.1.general[EAX] == 1);
    assert!(rt; over.1.general[ECX] == 4);
}
