//! Scripts at fault, and the first line at fault of each.

use driver_script::{Script, ScriptRefusal};
use std::alloc::Global;

/// An adapter on its own.
const ADAPTER: &[u8] = b"adapter 0 *PNP80D6 port 0300 irq 5 mac 020000000001\n";

/// Whether the text is refused at this line.
fn stops_at(alloc: Global, text: &[u8], line: u64) -> bool {
    Script::read(alloc, text).err() == Some(ScriptRefusal::Line(line))
}

/// Whether the text is read.
fn is_read(alloc: Global, text: &[u8]) -> bool {
    Script::read(alloc, text).is_ok()
}

/// Whether a script with an adapter and a driver in front is refused at the line behind them.
fn is_no_line(alloc: Global, line: &[u8]) -> bool {
    let mut text = Vec::new(alloc);
    if text.extend_from_slice(ADAPTER).is_err()
        || text.extend_from_slice(b"driver 0 on 0\n").is_err()
        || text.extend_from_slice(line).is_err()
    {
        return false;
    }
    stops_at(alloc, &text, 3)
}

/// Whether it is read.
fn is_line(alloc: Global, line: &[u8]) -> bool {
    let mut text = Vec::new(alloc);
    if text.extend_from_slice(ADAPTER).is_err()
        || text.extend_from_slice(b"driver 0 on 0\n").is_err()
        || text.extend_from_slice(line).is_err()
    {
        return false;
    }
    is_read(alloc, &text)
}

/// Whether a script with a `send` line of so many bytes is read.
fn sends(alloc: Global, count: usize) -> bool {
    let mut line = Vec::new(alloc);
    if line.extend_from_slice(b"send ").is_err() {
        return false;
    }
    for _ in 0..count {
        if line.extend_from_slice(b"5A").is_err() {
            return false;
        }
    }
    is_line(alloc, &line)
}

#[test]
fn adapters(rt: HostRuntime) {
    let alloc = rt.alloc();
    assert!(rt; is_read(alloc, ADAPTER));
    assert!(rt; stops_at(alloc, b"adapter 1 x port 0300 irq 5 mac 020000000001\n", 1));
    assert!(rt;
        stops_at(
            alloc,
            b"\nadapter 0 x port 0210 irq 5 mac 020000000001\n",
            2
        )
    );
    assert!(rt; stops_at(alloc, b"adapter 0 x port 01e0 irq 5 mac 020000000001\n", 1));
    assert!(rt; stops_at(alloc, b"adapter 0 x port 0400 irq 5 mac 020000000001\n", 1));
    assert!(rt; stops_at(alloc, b"adapter 0 x port 300 irq 5 mac 020000000001\n", 1));
    assert!(rt; is_read(alloc, b"adapter 0 x port 03E0 irq 15 mac feFFffFFffFF"));
    assert!(rt; stops_at(alloc, b"adapter 0 x port 0300 irq 2 mac 020000000001\n", 1));
    assert!(rt; stops_at(alloc, b"adapter 0 x port 0300 irq 16 mac 020000000001\n", 1));
    assert!(rt; stops_at(alloc, b"adapter 0 x port 0300 irq 05 mac 020000000001\n", 1));
    assert!(rt; stops_at(alloc, b"adapter 0 x port 0300 irq 5 mac 030000000001\n", 1));
    assert!(rt; stops_at(alloc, b"adapter 0 x port 0300 irq 5 mac 02000000001\n", 1));
    assert!(rt; stops_at(alloc, b"adapter 0 x port 0300 irq 5\n", 1));
    assert!(rt;
        stops_at(
            alloc,
            b"adapter 0 x port 0300 irq 5 mac 020000000001 y\n",
            1
        )
    );
}

#[test]
fn several_adapters(rt: HostRuntime) {
    let alloc = rt.alloc();
    assert!(rt;
        is_read(
            alloc,
            b"adapter 0 x port 0300 irq 5 mac 020000000001\nadapter 1 x port 0320 irq 6 mac 020000000001\n"
        )
    );
    assert!(rt;
        stops_at(
            alloc,
            b"adapter 0 x port 0300 irq 5 mac 020000000001\nadapter 1 y port 0300 irq 6 mac 020000000002\n",
            2
        )
    );
    assert!(rt;
        stops_at(
            alloc,
            b"adapter 0 x port 0300 irq 5 mac 020000000001\nadapter 1 y port 0320 irq 5 mac 020000000002\n",
            2
        )
    );
    assert!(rt;
        stops_at(
            alloc,
            b"adapter 0 x port 0300 irq 5 mac 020000000001\nadapter 2 y port 0320 irq 6 mac 020000000002\n",
            2
        )
    );
    assert!(rt;
        stops_at(
            alloc,
            b"adapter 0 x port 0200 irq 5 mac 020000000001\nadapter 1 x port 0220 irq 6 mac 020000000001\nadapter 2 x port 0240 irq 7 mac 020000000001\nadapter 3 x port 0260 irq 8 mac 020000000001\nadapter 4 x port 0280 irq 9 mac 020000000001\n",
            5
        )
    );
}

#[test]
fn order(rt: HostRuntime) {
    let alloc = rt.alloc();
    assert!(rt; stops_at(alloc, b"", 1));
    assert!(rt; stops_at(alloc, b"# none\n\n", 3));
    assert!(rt; stops_at(alloc, b"param 0 a b\n", 1));
    assert!(rt; stops_at(alloc, b"driver 0 on 0\n", 1));
    assert!(rt; stops_at(alloc, b"hold\n", 1));
    assert!(rt;
        stops_at(
            alloc,
            b"adapter 0 x port 0300 irq 5 mac 020000000001\nhold\n",
            2
        )
    );
    assert!(rt;
        stops_at(
            alloc,
            b"adapter 0 x port 0300 irq 5 mac 020000000001\nparam 1 a b\n",
            2
        )
    );
    assert!(rt;
        stops_at(
            alloc,
            b"adapter 0 x port 0300 irq 5 mac 020000000001\nparam 0 a b\nadapter 1 x port 0320 irq 6 mac 020000000001\n",
            3
        )
    );
    assert!(rt;
        stops_at(
            alloc,
            b"adapter 0 x port 0300 irq 5 mac 020000000001\ndriver 0 on 0\nparam 0 a b\n",
            3
        )
    );
    assert!(rt;
        stops_at(
            alloc,
            b"adapter 0 x port 0300 irq 5 mac 020000000001\ndriver 1 on 0\n",
            2
        )
    );
    assert!(rt;
        stops_at(
            alloc,
            b"adapter 0 x port 0300 irq 5 mac 020000000001\ndriver 0 on 1\n",
            2
        )
    );
    assert!(rt;
        stops_at(
            alloc,
            b"adapter 0 x port 0300 irq 5 mac 020000000001\ndriver 0 at 0\n",
            2
        )
    );
    assert!(rt;
        stops_at(
            alloc,
            b"adapter 0 x port 0300 irq 5 mac 020000000001\nparam 0 a b c\n",
            2
        )
    );
}

#[test]
fn section_lines(rt: HostRuntime) {
    let alloc = rt.alloc();
    assert!(rt; is_no_line(alloc, b"await"));
    assert!(rt; is_no_line(alloc, b"await frames"));
    assert!(rt; is_no_line(alloc, b"await frames 4294967296"));
    assert!(rt; is_line(alloc, b"await frames 4294967295"));
    assert!(rt; is_no_line(alloc, b"await room"));
    assert!(rt; is_no_line(alloc, b"await up now"));
    assert!(rt; is_no_line(alloc, b"burst 0 60"));
    assert!(rt; is_no_line(alloc, b"burst 10001 60"));
    assert!(rt; is_no_line(alloc, b"burst 1 13"));
    assert!(rt; is_no_line(alloc, b"burst 1 1515"));
    assert!(rt; is_line(alloc, b"burst 10000 1514"));
    assert!(rt; is_no_line(alloc, b"query 0001010 4"));
    assert!(rt; is_line(alloc, b"query 0001010E 4"));
    assert!(rt; is_no_line(alloc, b"query 0001010e -1"));
    assert!(rt; is_no_line(alloc, b"set 0001010e"));
    assert!(rt; is_no_line(alloc, b"set 0001010e 0"));
    assert!(rt; is_line(alloc, b"set 0001010e -"));
    assert!(rt; is_line(alloc, b" \tset\t0001010e  0d000000\t"));
    assert!(rt; is_no_line(alloc, b"hold on"));
    assert!(rt; is_no_line(alloc, b"Hold"));
    assert!(rt; is_no_line(alloc, b" # no comment"));
    assert!(rt; is_no_line(alloc, b"hold\r"));
    assert!(rt; is_line(alloc, b"hold\r\nrelease\n"));
    assert!(rt; is_no_line(alloc, b"send 0g"));
}

#[test]
fn lengths(rt: HostRuntime) {
    let alloc = rt.alloc();
    assert!(rt; !sends(alloc, 13));
    assert!(rt; sends(alloc, 14));
    assert!(rt; sends(alloc, 1514));
    assert!(rt; !sends(alloc, 1515));
}
