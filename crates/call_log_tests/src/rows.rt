//! Logs that are read and written back, and logs that are refused.

use call_log::{Log, LogRefusal, put_line, read_log};
use nd_base::Bytes;
use std::alloc::Global;
use std::test::Fail;

/// Each kind, with its names, the least and the greatest numbers, empty and long lists.
const LINES: &[u8] = b"\
bind 0 3\n\
unbind 7\n\
quiet 0\n\
done 255\n\
send 0 0 ffffffffffff525400123456\n\
hand 0\n\
requeue 1\n\
late 18446744073709551615\n\
complete 0 c001000c\n\
indicate 0 5 00ff 0,3,7 0\n\
indicate 1 6 - - 1\n\
return 0 5\n\
back 5 0\n\
back 6 1\n\
ask 0 0 query 0001010e 4\n\
ask 0 1 set 0001010e 0b000000\n\
ask 0 2 set 01010103 -\n\
handask 0\n\
answer 0 00000000 -\n\
answer 1 c0000001 0a\n\
enter - 0 driverentry e0000000,e0000008 -\n\
enter 0 1 initialize - e0001000:00000000,e0001004:-\n\
enter 0 15 pnpevent e0000000,00000005,00000000,00000000 -\n\
leave 0 00000000\n\
turn 0 64\n\
turn 0 18446744073709551615\n\
call 1 NdisMRegisterMiniport e0000000,00401000,00000050\n\
call 1 DbgPrint -\n\
reply 1 00000000 -\n\
reply 1 00000001 e0000000:00,e0000004:0102,e0000008:-\n\
spin 2 00500000\n\
port 0 in 1 07 80\n\
port 3 out 2 10 0000\n\
wirein 0\n\
wireout 0 ffffffffffff\n\
time 20000000\n\
resetbegin 0\n\
resetend 0 00000000\n\
fault 1 divide 00401234\n\
fault 1 outside ffffffff\n\
fault 1 unmapped 00000000\n\
fault 1 notreadable 00000000\n\
fault 1 notwritable 00401000\n\
fault 1 notexecutable 00500000\n\
stop 0 breach 1\n\
stop 0 breach 14\n\
stop 1 budget\n\
stop 2 memory\n\
await 0 up\n\
await 0 sent\n\
await 0 replies\n\
await 0 frames 0\n\
await 0 room\n\
await 0 all\n\
tag 0 7\n\
cancel 0 4294967295\n\
event 0 5 - 0\n\
event 0 4294967295 0102 1\n";

/// Writes the lines of a log.
fn write(log: &Log, out: &mut Bytes) -> bool {
    for i in 0..log.len() {
        let Some(entry) = log.entry(i) else {
            return false;
        };
        if put_line(out, entry).is_err() {
            return false;
        }
    }
    true
}

/// Whether a text is read, and written again to the byte.
fn stands(alloc: Global, text: &[u8]) -> bool {
    let Ok(log) = read_log(alloc, text) else {
        return false;
    };
    let mut out = Bytes::new(alloc);
    write(&log, &mut out) && out.as_slice() == text
}

/// Whether this line is the first that is no entry's.
fn is_refused(alloc: Global, text: &[u8], line: u64) -> bool {
    match read_log(alloc, text) {
        Err(refusal) => refusal == LogRefusal::Line(line),
        Ok(_) => false,
    }
}

#[test]
fn lines_of_each_kind(rt: HostRuntime) -> Result<(), Fail> {
    assert!(rt; stands(rt.alloc(), LINES));
    assert!(rt; stands(rt.alloc(), b""));
    Ok(())
}

#[test]
fn lines_of_no_kind(rt: HostRuntime) -> Result<(), Fail> {
    let rows: [&[u8]; 24] = [
        b"hand x\n",
        b"hand 1",
        b"hand 1\r\n",
        b"hand 1 \n",
        b"hand  1\n",
        b"hand\n",
        b"\n",
        b"hands 1\n",
        b"turn 0 064\n",
        b"turn 0 18446744073709551616\n",
        b"turn 256 1\n",
        b"turn 0\n",
        b"leave 0 0000000A\n",
        b"leave 0 000000a\n",
        b"await 0 frames\n",
        b"call 0 NdisMNothing -\n",
        b"call 0 DbgPrint\n",
        b"reply 0 00000000 e0000000:00 e0000004:00\n",
        b"reply 0 00000000 e0000000:00,,e0000004:00\n",
        b"enter 0 0 - - -\n",
        b"port 0 in 3 00 -\n",
        b"port 0 in 1 0 -\n",
        b"stop 0 breach 15\n",
        b"indicate 0 0 - -,0 0\n",
    ];
    for row in rows {
        assert!(rt; is_refused(rt.alloc(), row, 1));
    }
    assert!(rt; is_refused(rt.alloc(), b"hand 0\nhand x\nhand y\n", 2));
    Ok(())
}
