//! Tests of the commands.

use crate::drivers::{
    INF, MOST_BYTES, OPTIONAL, RETURNS, add_import, make_large_driver, make_small_driver, put,
    put_word,
};
use crate::runs::{
    RETURN_LOG, RUN, ends, ends_on, has_no_log, holds, status_of, store_driver, words_of,
};
use crate::test_devices::{TestFiles, TestSink};
use nd_base::OpenGate;
use ndis_run::ndis_main;
use std::alloc::Global;
use std::sync::Wait;
use std::thread::Threads;

const RETURN_LINE: &[u8] = b"driverentry 00000000 charged 3\n";

fn runs_by_the_top_call<R: Threads + Wait + Sync>(alloc: Global, rt: &R) -> bool {
    let mut files = TestFiles::new(alloc);
    let mut out = TestSink::new(alloc);
    let Ok(words) = words_of(alloc, &RUN) else {
        return false;
    };
    store_driver(&mut files, &RETURNS)
        && ndis_main(alloc, rt, &words, &mut files, &mut out, &OpenGate) == 0
        && out.sink.written() == RETURN_LINE
        && holds(&files.files, "run.log", RETURN_LOG)
}

#[test]
fn runs_to_the_return(rt: HostRuntime) {
    assert!(rt; runs_by_the_top_call(rt.alloc(), &rt));
}

fn moves_bytes_one_by_one(alloc: Global) -> bool {
    let mut files = TestFiles::new(alloc);
    files.calls.bytewise = true;
    let mut out = TestSink::new(alloc);
    out.calls.bytewise = true;
    store_driver(&mut files, &RETURNS)
        && ends_on(alloc, &RUN, &mut files, &mut out, 0, RETURN_LINE)
        && holds(&files.files, "run.log", RETURN_LOG)
}

#[test]
fn runs_byte_by_byte(rt: HostRuntime) {
    assert!(rt; moves_bytes_one_by_one(rt.alloc()));
}

/// Whether a driver of this code ends with 1, this log behind the line of the enter, and this line.
fn faults(alloc: Global, code: &[u8], log: &[u8], line: &[u8]) -> bool {
    let mut files = TestFiles::new(alloc);
    store_driver(&mut files, code)
        && ends(alloc, &RUN, &mut files, 1, line)
        && files
            .files
            .get("run.log")
            .is_some_and(|text| text.ends_with(log) && text.len() == 42 + log.len())
}

#[test]
fn runs_to_a_fault(rt: HostRuntime) {
    let alloc = rt.alloc();
    let outside = b"fault 0 outside 80101000\n";
    let line = b"driverentry fault charged 0\n";
    assert!(rt; faults(alloc, &[0xD9, 0xC0], outside, line));
    // A jump over six bytes; the section ends in the middle of the instruction there.
    let cut = b"turn 0 1\nfault 0 unmapped 8010100b\n";
    let line = b"driverentry fault charged 1\n";
    let code = [0xEB, 6, 0, 0, 0, 0, 0, 0, 0xB8, 1, 2];
    assert!(rt; faults(alloc, &code, cut, line));
    // ESP is moved to 0, where nothing is mapped, and the return reads there.
    let unread = b"turn 0 1\nfault 0 unmapped 00000000\n";
    assert!(rt; faults(alloc, &[0xBC, 0, 0, 0, 0, 0xC2, 8, 0], unread, line));
}

fn prints(alloc: Global, row: &[&str], status: u8, text: &[u8]) -> bool {
    ends(alloc, row, &mut TestFiles::new(alloc), status, text)
}

#[test]
fn wants_a_form_of_words(rt: HostRuntime) {
    let rows: [&[&str]; 12] = [
        &[],
        &["run0"],
        &["run0", "a"],
        &["run0", "a", "b", "c"],
        &["run0", "--a", "b"],
        &["run", "a", "b"],
        &["show-image"],
        &["show-image", "--a"],
        &["show-image", "a", "b"],
        &["show-inf", "a"],
        &["show-inf", "a", "--b"],
        &["--help", "a"],
    ];
    for row in rows {
        assert!(rt; prints(rt.alloc(), row, 2, b"words\n"));
    }
}

#[test]
fn prints_its_help(rt: HostRuntime) {
    let text = b"\
run0 SYS LOG        run the DriverEntry of the driver image SYS alone, and write its log to LOG
show-image SYS      show the headers, sections, imports and relocations of the driver image SYS
show-inf INF ID     show the parameters that the INF file INF gives the hardware id ID
forge KIND SYS INF  write the image SYS and the INF file INF of a test miniport: idle, double, scarce, mute or deserial
--help              list the commands
--version           print the version
";
    assert!(rt; prints(rt.alloc(), &["--help"], 0, text));
    assert!(rt; prints(rt.alloc(), &["--version"], 0, b"hedzvaki 0.1.0\n"));
}

/// Whether a run whose call of this number fails, and the next one too, ends with this status and
/// text, without another call and without a log.
fn stops_at(alloc: Global, call: u64, status: u8, text: &[u8]) -> bool {
    let mut files = TestFiles::new(alloc);
    store_driver(&mut files, &RETURNS)
        && files.files.fail(call).is_ok()
        && files.files.fail(call.saturating_add(1)).is_ok()
        && ends(alloc, &RUN, &mut files, status, text)
        && files.calls.count == call
        && has_no_log(&files.files)
}

#[test]
fn names_what_is_not_read(rt: HostRuntime) {
    for call in 1..=3 {
        assert!(rt; stops_at(rt.alloc(), call, 3, b"read driver.sys\n"));
    }
}

fn leaves_an_empty_log(alloc: Global) -> bool {
    let mut files = TestFiles::new(alloc);
    store_driver(&mut files, &RETURNS)
        && files.files.fail(5).is_ok()
        && ends(alloc, &RUN, &mut files, 4, b"write run.log\n")
        && files.calls.count == 5
        && holds(&files.files, "run.log", b"")
}

#[test]
fn names_what_is_not_written(rt: HostRuntime) {
    assert!(rt; stops_at(rt.alloc(), 4, 4, b"write run.log\n"));
    assert!(rt; leaves_an_empty_log(rt.alloc()));
}

fn reads_a_file_once(alloc: Global) -> bool {
    let mut files = TestFiles::new(alloc);
    // One size, two reads, the create, and one append.
    store_driver(&mut files, &RETURNS)
        && ends(alloc, &RUN, &mut files, 0, RETURN_LINE)
        && files.calls.count == 5
}

#[test]
fn asks_no_size_twice(rt: HostRuntime) {
    assert!(rt; reads_a_file_once(rt.alloc()));
}

fn tries_a_last_line(alloc: Global) -> bool {
    let mut files = TestFiles::new(alloc);
    let mut out = TestSink::new(alloc);
    store_driver(&mut files, &RETURNS)
        && out.sink.fail(1).is_ok()
        && ends_on(alloc, &RUN, &mut files, &mut out, 4, b"write -\n")
        && holds(&files.files, "run.log", RETURN_LOG)
}

#[test]
fn ends_where_nothing_is_printed(rt: HostRuntime) {
    assert!(rt; tries_a_last_line(rt.alloc()));
}

/// Whether these words end with 10 and the line of that, where the files want memory at their call of
/// this number.
fn wants_memory(alloc: Global, row: &[&str], call: u64) -> bool {
    let mut files = TestFiles::new(alloc);
    files.calls.wanting = call;
    store_driver(&mut files, &RETURNS)
        && files.files.put("driver.inf", INF).is_ok()
        && ends(alloc, row, &mut files, 10, b"memory\n")
}

/// Whether words end with 10 and the line of that, where the sink wants memory at its first call.
fn wants_memory_to_print(alloc: Global, row: &[&str]) -> bool {
    let mut files = TestFiles::new(alloc);
    let mut out = TestSink::new(alloc);
    out.calls.wanting = 1;
    store_driver(&mut files, &RETURNS) && ends_on(alloc, row, &mut files, &mut out, 10, b"memory\n")
}

#[test]
fn says_that_memory_is_wanted(rt: HostRuntime) {
    let alloc = rt.alloc();
    for call in 1..=5 {
        assert!(rt; wants_memory(alloc, &RUN, call));
    }
    assert!(rt; wants_memory(alloc, &["show-image", "driver.sys"], 2));
    assert!(rt; wants_memory(alloc, &["show-inf", "driver.inf", "*PNP80D6"], 3));
    assert!(rt; wants_memory_to_print(alloc, &RUN));
    assert!(rt; wants_memory_to_print(alloc, &["--help"]));
}

/// Whether a file of this length is refused by its size, though no read succeeds.
fn looks_at_the_size(alloc: Global, row: &[&str], length: usize, status: u8, text: &[u8]) -> bool {
    let mut files = TestFiles::new(alloc);
    let Ok(bytes) = vec![in alloc; 0u8; length] else {
        return false;
    };
    files.files.put("input", &bytes).is_ok()
        && files.files.fail(2).is_ok()
        && ends(alloc, row, &mut files, status, text)
        && files.calls.count == 1
}

#[test]
fn refuses_a_file_by_its_size(rt: HostRuntime) {
    let alloc = rt.alloc();
    let text = b"image too-large\n";
    assert!(rt; looks_at_the_size(alloc, &["run0", "input", "run.log"], 0x40_0001, 5, text));
    assert!(rt; looks_at_the_size(alloc, &["show-image", "input"], 0x40_0001, 5, text));
    let text = b"inf too-long\n";
    assert!(rt; looks_at_the_size(alloc, &["show-inf", "input", "*A"], 0x10_0001, 6, text));
}

fn shows_the_small_image(alloc: Global) -> bool {
    let mut files = TestFiles::new(alloc);
    let text = b"image base 80100000 entry 00001000 size 00002000\n\
section .text 00001000 0000000b 0000000b r-x\n";
    store_driver(&mut files, &RETURNS)
        && ends(alloc, &["show-image", "driver.sys"], &mut files, 0, text)
        && ends(
            alloc,
            &["show-image", "other.sys"],
            &mut files,
            3,
            b"read other.sys\n",
        )
}

#[test]
fn shows_an_image(rt: HostRuntime) {
    assert!(rt; shows_the_small_image(rt.alloc()));
}

/// Whether text is what `show-image` prints of the largest driver.
fn is_large_text(text: &[u8]) -> bool {
    let head = b"image base 80100000 entry 00001000 size 00400000\n\
section .text 00001000 003fee00 003fee00 r-x\nimport ndis.sys Ndis 00007000\n";
    text.starts_with(head)
        && text.ends_with(b"import ndis.sys Ndis 0000affc\n")
        && text.len() == head.len() + 30 * 4095
}

fn shows_the_largest_image(alloc: Global) -> bool {
    let mut files = TestFiles::new(alloc);
    let mut out = TestSink::new(alloc);
    let Ok(mut bytes) = vec![in alloc; 0u8; MOST_BYTES] else {
        return false;
    };
    make_large_driver(&mut bytes);
    files.files.put("driver.sys", &bytes).is_ok()
        && status_of(alloc, &["show-image", "driver.sys"], &mut files, &mut out) == Some(0)
        && is_large_text(out.sink.written())
}

#[test]
fn shows_a_large_image(rt: HostRuntime) {
    assert!(rt; shows_the_largest_image(rt.alloc()));
}

/// Whether the small driver is refused that is not at the usual ImageBase and is stripped of its
/// relocations.
fn refuses_a_stripped_image(alloc: Global) -> bool {
    let mut files = TestFiles::new(alloc);
    let mut file = [0u8; 1024];
    make_small_driver(&mut file, &RETURNS);
    put_word(&mut file, OPTIONAL + 28, 0x1_0000);
    put(&mut file, 64 + 22, &[1, 0]);
    let text = b"image relocs-stripped\n";
    files.files.put("driver.sys", &file).is_ok()
        && ends(alloc, &["show-image", "driver.sys"], &mut files, 5, text)
        && ends(alloc, &RUN, &mut files, 5, text)
        && has_no_log(&files.files)
}

/// Whether an import is shown, and refused where the driver is to run.
fn refuses_an_import(alloc: Global) -> bool {
    let mut files = TestFiles::new(alloc);
    let mut file = [0u8; 1024];
    make_small_driver(&mut file, &RETURNS);
    add_import(&mut file);
    let text = b"image base 80100000 entry 00001000 size 00002000\n\
section .text 00001000 00000080 00000080 r-x\n\
import ndis.sys NdisMFooBar 00001058\n";
    let refusal = b"image unknown-import NdisMFooBar\n";
    files.files.put("driver.sys", &file).is_ok()
        && ends(alloc, &["show-image", "driver.sys"], &mut files, 0, text)
        && ends(alloc, &RUN, &mut files, 5, refusal)
        && has_no_log(&files.files)
}

/// Whether an empty file is refused.
fn refuses_nothing(alloc: Global) -> bool {
    let mut files = TestFiles::new(alloc);
    files.files.put("driver.sys", b"").is_ok()
        && ends(alloc, &RUN, &mut files, 5, b"image short 0\n")
        && has_no_log(&files.files)
}

#[test]
fn refuses_an_image(rt: HostRuntime) {
    assert!(rt; refuses_a_stripped_image(rt.alloc()));
    assert!(rt; refuses_an_import(rt.alloc()));
    assert!(rt; refuses_nothing(rt.alloc()));
}

/// Whether the INF file gives the id this text, with this status.
fn shows(alloc: Global, inf: &[u8], id: &str, status: u8, text: &[u8]) -> bool {
    let mut files = TestFiles::new(alloc);
    files.files.put("driver.inf", inf).is_ok()
        && ends(
            alloc,
            &["show-inf", "driver.inf", id],
            &mut files,
            status,
            text,
        )
}

const PARAMETERS: &[u8] =
    b"param BusType string 1\nparam Speed dword 0000000a\nparam IoBaseAddress string 300\n";

#[test]
fn shows_parameters(rt: HostRuntime) {
    let alloc = rt.alloc();
    assert!(rt; shows(alloc, INF, "*PNP80D6", 0, PARAMETERS));
    assert!(rt; shows(alloc, INF, "*NONE", 6, b"inf no-model\n"));
    assert!(rt; shows(alloc, b"", "*PNP80D6", 6, b"inf no-version\n"));
    assert!(rt;
        prints(
            alloc,
            &["show-inf", "other.inf", "*A"],
            3,
            b"read other.inf\n"
        )
    );
}

/// Whether an INF file of exactly 1 MiB is shown: the small one, and lines that say nothing.
fn shows_the_largest_inf(alloc: Global) -> bool {
    let Ok(mut bytes) = vec![in alloc; b'\n'; 0x10_0000] else {
        return false;
    };
    put(&mut bytes, 0x10_0000 - INF.len(), INF);
    shows(alloc, &bytes, "*PNP80D6", 0, PARAMETERS)
}

#[test]
fn shows_a_large_inf(rt: HostRuntime) {
    assert!(rt; shows_the_largest_inf(rt.alloc()));
}
