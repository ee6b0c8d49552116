use crate::files::{PNP80D6, count_of, fault_of, gives, rows_give, with_rows};
use inf_text::InfRefusal;
use std::alloc::Global;

/// The longest file that is read, in bytes.
const LONGEST: usize = 1_048_576;

/// UTF-16 text of a file's bytes, with its mark.
fn utf16(alloc: Global, bytes: &[u8]) -> Option<Vec<u8>> {
    let mut wide = Vec::from_slice(alloc, &[0xff, 0xfe]).ok()?;
    for byte in bytes {
        wide.push(*byte).ok()?;
        wide.push(0).ok()?;
    }
    Some(wide)
}

/// Whether UTF-16 text of rows gives these parameters.
fn wide_gives(alloc: Global, bytes: &[u8], want: &str) -> bool {
    match utf16(alloc, bytes) {
        Some(wide) => gives(alloc, wide.as_slice(), &PNP80D6, want),
        None => false,
    }
}

/// Whether rows give these parameters in text of either kind.
fn both_give(alloc: Global, rows: &str, want: &str) -> bool {
    match with_rows(alloc, rows) {
        Some(text) => {
            gives(alloc, text.as_slice(), &PNP80D6, want)
                && wide_gives(alloc, text.as_slice(), want)
        }
        None => false,
    }
}

#[test]
fn text_of_either_kind(rt: HostRuntime) {
    let rows =
        "HKR,,BusType,0,\"1\"\nHKR,Ndi\\params\\IoBaseAddress,default,0,\"300\"\nHKR,,Speed,0x00010001,10\n";
    let want = "BusType=1;Speed#IoBaseAddress=300;";
    assert!(rt; both_give(rt.alloc(), rows, want));
}

#[test]
fn bad_lines(rt: HostRuntime) {
    for (text, want) in [
        (b"[a]\nb=\"c\nd=e\n".as_slice(), 2),
        (b"[a]\n\n[b\n".as_slice(), 3),
        (b"[a\"]\n".as_slice(), 1),
        (b"[a] \"\nb\n".as_slice(), 1),
        (b"[a]\nb\n[c] ; \"\n[d\"\"]e\"\n".as_slice(), 4),
        (b"\n ; c\n x\n[a]\n".as_slice(), 3),
        (b"x\n[a".as_slice(), 1),
        (b"[a]\nx=\"\\\ny\n".as_slice(), 2),
    ] {
        assert!(rt; fault_of(rt.alloc(), text) == Some(InfRefusal::Line(want)));
    }
}

#[test]
fn bad_text(rt: HostRuntime) {
    for (bytes, want) in [
        (b"x\n\0".as_slice(), 2),
        (b"\xff\xfea\0\0\0".as_slice(), 4),
        (b"\xff\xfea\0\x00\xd8b\0".as_slice(), 4),
        (b"\xff\xfea\0\x00\xdcb\0".as_slice(), 4),
        (b"\xff\xfea\0\x00\xd8".as_slice(), 4),
        (b"\xff\xfea\0b".as_slice(), 4),
        (b"\xff\xfea\0\0\0b".as_slice(), 4),
        (b"\"\n\0".as_slice(), 2),
    ] {
        assert!(rt; fault_of(rt.alloc(), bytes) == Some(InfRefusal::BadText(want)));
    }
}

#[test]
fn good_text(rt: HostRuntime) {
    for bytes in [
        b"\xff\xfe[\0]\0\x3d\xd8\x00\xde".as_slice(),
        b"\xff\xfe".as_slice(),
        b"[\xff]".as_slice(),
        b"[a]\n\xfe\xff\x80".as_slice(),
        b"".as_slice(),
    ] {
        assert!(rt; fault_of(rt.alloc(), bytes) == None);
    }
}

#[test]
fn quotes_and_blanks(rt: HostRuntime) {
    for (row, want) in [
        ("HKR,,N,,\"c;d\" ; e \"\n", "N=c;d;"),
        ("HKR,,N,, \"x\"\"y\" \n", "N=x\"y;"),
        ("HKR,,N,,\t\" z \"\n", "N= z ;"),
        ("HKR,,N,,ab\"c d\"\n", "N=abc d;"),
        ("HKR,,N,,z \"\"\n", "N=z ;"),
        ("HKR,,N,,\"\" z\n", "N= z;"),
        ("HKR,,N,,\"\"\n", "N=;"),
        ("HKR,,N,,\"\"\"\"\n", "N=\";"),
        ("HKR,,N\n", "N=;"),
    ] {
        assert!(rt; rows_give(rt.alloc(), row, want));
    }
}

/// An `=` parts a key from the values in front of the first comma outside quotes alone.
#[test]
fn keys(rt: HostRuntime) {
    for (row, want) in [
        ("HKR,,Opt,0,mode=full\n", "Opt=mode=full;"),
        ("x=HKR,,N,,a=b=c\n", "N=a=b=c;"),
        ("\"x,=\"=HKR,,N,,a\n", "N=a;"),
        ("x=y=HKR,,N,,a\n", ""),
        (" = HKR,,N,,a\n", "N=a;"),
    ] {
        assert!(rt; rows_give(rt.alloc(), row, want));
    }
}

#[test]
fn joined_lines(rt: HostRuntime) {
    for (rows, want) in [
        ("HKR,,N,,c \\\n d\nHKR,,M\n", "N=c  d;M=;"),
        ("HKR,,N,,\"c \\ \t\n d\"\nHKR,,M\n", "N=c  d;M=;"),
        ("HKR,,N,,b\\ ; \\\r\nc ; \\\r\nHKR,,M,,d\r", "N=bc;M=d\r;"),
        ("HKR,,N,,b\\c\\", "N=b\\c;"),
        ("HKR,,N,,b\\\"\"\nHKR,,M,,2\n", "N=b\\;M=2;"),
        ("HKR,,N,,b \\ \"\"\nHKR,,M,,2\n", "N=b \\ ;M=2;"),
        ("\\\n\\\nHKR,,N,,1", "N=1;"),
    ] {
        assert!(rt; rows_give(rt.alloc(), rows, want));
    }
}

#[test]
fn headers(rt: HostRuntime) {
    for (rows, want) in [
        (
            "HKR,,A,,1\n[c]\nHKR,,B,,1\n[ NE.reg\t] x\nHKR,,C,,1\n",
            "A=1;C=1;",
        ),
        ("[\"Ne.Reg\"]c=d\nHKR,,A,,1", "A=1;"),
        (" \t[Ne.Reg] \"\"\nHKR,,A,,1", "A=1;"),
        ("[Ne.Reg\"]\" ]\nHKR,,A,,1", ""),
    ] {
        assert!(rt; rows_give(rt.alloc(), rows, want));
    }
}

/// Puts a row behind a file: a parameter of a number's last five digits.
fn push_row(text: &mut Vec<u8>, number: u32) -> Option<()> {
    text.extend_from_slice(b"HKR,,P").ok()?;
    for place in [10_000, 1_000, 100, 10, 1] {
        text.push(b'0' + (number / place % 10) as u8).ok()?;
    }
    text.extend_from_slice(b",,v\n").ok()
}

/// Puts characters of a comment behind a file, up to a length.
fn fill(text: &mut Vec<u8>, length: usize) -> Option<()> {
    for _i in text.len()..length {
        text.push(b';').ok()?;
    }
    Some(())
}

/// A file of this length that gives 60,000 parameters.
fn longest_file(alloc: Global, length: usize) -> Option<Vec<u8>> {
    let mut text = with_rows(alloc, "")?;
    for number in 0..60_000 {
        push_row(&mut text, number)?;
    }
    fill(&mut text, length)?;
    Some(text)
}

#[test]
fn a_file_of_1_mib(rt: HostRuntime) {
    match longest_file(rt.alloc(), LONGEST) {
        Some(text) => {
            assert!(rt; text.len() == LONGEST);
            assert!(rt; count_of(rt.alloc(), text.as_slice(), &PNP80D6) == Some(60_000));
        }
        None => assert!(rt; false),
    }
}

#[test]
fn a_file_of_one_byte_more(rt: HostRuntime) {
    match longest_file(rt.alloc(), LONGEST + 1) {
        Some(text) => {
            assert!(rt; fault_of(rt.alloc(), text.as_slice()) == Some(InfRefusal::TooLong));
        }
        None => assert!(rt; false),
    }
}

fn says(alloc: Global, refusal: InfRefusal, want: &str) -> bool {
    match format!(in alloc; "{refusal}") {
        Ok(text) => text.as_str() == want,
        Err(_) => false,
    }
}

#[test]
fn refusals_have_texts(rt: HostRuntime) {
    assert!(rt; says(rt.alloc(), InfRefusal::OutOfMemory, "out of memory"));
    assert!(rt; says(rt.alloc(), InfRefusal::TooLong, "the INF file is too long"));
    assert!(rt;
        says(
            rt.alloc(),
            InfRefusal::BadText(12),
            "the byte at 12 is no text"
        )
    );
    assert!(rt;
        says(
            rt.alloc(),
            InfRefusal::Line(7),
            "line 7 is no line of an INF file"
        )
    );
}
