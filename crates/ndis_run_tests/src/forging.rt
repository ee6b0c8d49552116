//! Tests of `forge KIND SYS INF`.

use crate::runs::{ends, ends_on, holds};
use crate::test_devices::{TestFiles, TestSink};
use forged_miniports::{Kind, Miniport, forge};
use std::alloc::Global;

const FORGE: [&str; 4] = ["forge", "idle", "idle.sys", "idle.inf"];

/// Whether the files hold the image and the INF of kind idle, and nothing was printed.
fn forges_whole(alloc: Global, files: &mut TestFiles, miniport: &Miniport) -> bool {
    ends(alloc, &FORGE, files, 0, b"")
        && holds(&files.files, "idle.sys", miniport.image.as_slice())
        && holds(&files.files, "idle.inf", miniport.inf.as_slice())
}

fn forges_idle(alloc: Global, bytewise: bool) -> bool {
    let mut files = TestFiles::new(alloc);
    files.calls.bytewise = bytewise;
    match forge(alloc, Kind::Idle) {
        Ok(miniport) => {
            files.files.put("idle.sys", b"something else").is_ok()
                && forges_whole(alloc, &mut files, &miniport)
        }
        Err(_) => false,
    }
}

#[test]
fn forges_a_miniport(rt: HostRuntime) {
    assert!(rt; forges_idle(rt.alloc(), false));
    assert!(rt; forges_idle(rt.alloc(), true));
}

/// Whether files that these words made are shown so: the image of the kind, and the parameters.
fn shows_kind(alloc: Global, kind: &str, image: &[u8]) -> bool {
    let mut files = TestFiles::new(alloc);
    let parameters = b"param BusType string 1\nparam IoBaseAddress string 300\n\
param InterruptNumber string 5\n";
    ends(alloc, &["forge", kind, "a", "b"], &mut files, 0, b"")
        && ends(alloc, &["show-image", "a"], &mut files, 0, image)
        && ends(
            alloc,
            &["show-inf", "b", "*PNP80D6"],
            &mut files,
            0,
            parameters,
        )
}

/// Sizes and places are counted from the encodings of Intel's manual and the layout of
/// docs/ASSEMBLER.md.
#[test]
fn shows_what_was_forged(rt: HostRuntime) {
    let image = b"image base 80100000 entry 00001064 size 00002000\n\
section .text 00001000 000001e8 000001e8 rwx\n\
import NDIS.SYS NdisInitializeWrapper 0000112d\n\
import NDIS.SYS NdisMRegisterMiniport 00001131\n\
import NDIS.SYS NdisMSetAttributesEx 00001135\n\
reloc 00001014\nreloc 0000101c\nreloc 00001024\nreloc 0000102c\nreloc 00001030\nreloc 00001034\n\
reloc 00001074\nreloc 0000107a\nreloc 00001084\nreloc 0000108a\nreloc 00001090\nreloc 000010b8\n";
    assert!(rt; shows_kind(rt.alloc(), "idle", image));
}

/// Whether the words end so where the call of this number, and the next one, fails.
fn stops_at(alloc: Global, call: u64, text: &[u8]) -> Option<TestFiles> {
    let mut files = TestFiles::new(alloc);
    if files.files.fail(call).is_ok()
        && files.files.fail(call.saturating_add(1)).is_ok()
        && ends(alloc, &FORGE, &mut files, 4, text)
        && files.calls.count == call
    {
        Some(files)
    } else {
        None
    }
}

/// Whether nothing is made where the image's file is not, and it stays empty where nothing is
/// appended.
fn names_the_image(alloc: Global) -> bool {
    let Some(first) = stops_at(alloc, 1, b"write idle.sys\n") else {
        return false;
    };
    let Some(second) = stops_at(alloc, 2, b"write idle.sys\n") else {
        return false;
    };
    first.files.get("idle.sys").is_none()
        && holds(&second.files, "idle.sys", b"")
        && second.files.get("idle.inf").is_none()
}

/// The same of the INF file, with the image there.
fn names_the_inf(alloc: Global) -> bool {
    let Some(third) = stops_at(alloc, 3, b"write idle.inf\n") else {
        return false;
    };
    let Some(fourth) = stops_at(alloc, 4, b"write idle.inf\n") else {
        return false;
    };
    let Ok(miniport) = forge(alloc, Kind::Idle) else {
        return false;
    };
    holds(&third.files, "idle.sys", miniport.image.as_slice())
        && third.files.get("idle.inf").is_none()
        && holds(&fourth.files, "idle.sys", miniport.image.as_slice())
        && holds(&fourth.files, "idle.inf", b"")
}

#[test]
fn names_what_is_not_made(rt: HostRuntime) {
    assert!(rt; names_the_image(rt.alloc()));
    assert!(rt; names_the_inf(rt.alloc()));
}

/// Whether the words end with 10 where the files want memory at this call.
fn wants_memory(alloc: Global, call: u64) -> bool {
    let mut files = TestFiles::new(alloc);
    files.calls.wanting = call;
    ends(alloc, &FORGE, &mut files, 10, b"memory\n")
}

#[test]
fn says_that_memory_is_wanted(rt: HostRuntime) {
    for call in 1..=4 {
        assert!(rt; wants_memory(rt.alloc(), call));
    }
}

/// Whether these words are none of the forms.
fn is_no_form(alloc: Global, row: &[&str]) -> bool {
    let mut files = TestFiles::new(alloc);
    let mut out = TestSink::new(alloc);
    ends_on(alloc, row, &mut files, &mut out, 2, b"words\n") && files.calls.count == 0
}

#[test]
fn wants_a_kind_and_names(rt: HostRuntime) {
    let rows: [&[&str]; 6] = [
        &["forge"],
        &["forge", "idle", "a"],
        &["forge", "idle", "a", "b", "c"],
        &["forge", "other", "a", "b"],
        &["forge", "idle", "--a", "b"],
        &["forge", "idle", "a", "--b"],
    ];
    for row in rows {
        assert!(rt; is_no_form(rt.alloc(), row));
    }
}
