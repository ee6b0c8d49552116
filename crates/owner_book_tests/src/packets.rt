//! Sends and completions, cancels and resets.

use crate::books::{RUNNING, Refused, behind, first_taken, takes};
use nd_base::{AdapterNo, Phase};
use owner_book::Book;
use std::alloc::Global;

/// A packet that is still in the queue is not the miniport's to complete.
const QUEUED: Refused<'static> = Refused {
    first: RUNNING,
    text: b"\
send 0 0 ffffffffffff0000000000010800\n\
enter 0 0 timer - -\n\
call 0 NdisMSendComplete 00000000,80000000,00000000\n\
complete 0 00000000\n",
    line: 4,
    rule: 1,
};

/// A send to an adapter that starts is refused with CLOSING, behind its tag.
const STARTING: Refused<'static> = Refused {
    first: RUNNING,
    text: b"\
bind 2 1\n\
send 2 0 ffffffffffff0000000000010800\n\
tag 0 7\n\
complete 0 c0010002\n\
send 2 1 ffffffffffff0000000000010800\n\
complete 1 00000000\n",
    line: 6,
    rule: 1,
};

/// PENDING ends nothing.
const PENDING: Refused<'static> = Refused {
    first: RUNNING,
    text: b"\
send 0 0 ffffffffffff0000000000010800\n\
enter 0 0 send 00000000,80000000,00000000 -\n\
hand 0\n\
leave 0 00000103\n\
enter 0 0 timer - -\n\
call 0 NdisMSendComplete 00000000,80000000,00000103\n\
complete 0 00000103\n",
    line: 7,
    rule: 10,
};

/// A packet that its miniport holds is completed once.
const TWICE: Refused<'static> = Refused {
    first: RUNNING,
    text: b"\
send 0 0 ffffffffffff0000000000010800\n\
enter 0 0 send 00000000,80000000,00000000 -\n\
hand 0\n\
leave 0 00000103\n\
enter 0 0 timer - -\n\
call 0 NdisMSendComplete 00000000,80000000,00000000\n\
complete 0 00000000\n\
complete 0 00000000\n",
    line: 8,
    rule: 1,
};

/// A reset aborts what the miniport holds: one late completion is taken, a second one is not.
const LATE: Refused<'static> = Refused {
    first: RUNNING,
    text: b"\
send 0 0 ffffffffffff0000000000010800\n\
enter 0 0 send 00000000,80000000,00000000 -\n\
hand 0\n\
leave 0 00000103\n\
enter 0 0 checkforhang 00000000 -\n\
leave 0 00000001\n\
resetbegin 0\n\
enter 0 0 reset e0000000,00000000 -\n\
leave 0 00000000\n\
resetend 0 00000000\n\
complete 0 c001000c\n\
enter 0 0 timer - -\n\
call 0 NdisMSendComplete 00000000,80000000,00000000\n\
late 0\n\
late 0\n",
    line: 15,
    rule: 1,
};

/// Where the end of a reset has aborts due, nothing else stands.
const ABORTING: Refused<'static> = Refused {
    first: RUNNING,
    text: b"\
send 0 0 ffffffffffff0000000000010800\n\
enter 0 0 send 00000000,80000000,00000000 -\n\
hand 0\n\
leave 0 00000103\n\
enter 0 0 checkforhang 00000000 -\n\
leave 0 00000001\n\
resetbegin 0\n\
enter 0 0 reset e0000000,00000000 -\n\
leave 0 00000000\n\
resetend 0 00000000\n\
enter 0 0 timer - -\n",
    line: 11,
    rule: 9,
};

/// A reset ends that did not begin.
const NO_RESET: Refused<'static> = Refused {
    first: RUNNING,
    text: b"resetend 0 00000000\n",
    line: 1,
    rule: 4,
};

/// Verdicts stand in the order of their packets.
const FALLING: Refused<'static> = Refused {
    first: RUNNING,
    text: b"\
send 0 0 ffffffffffff0000000000010800\n\
send 1 1 ffffffffffff0000000000010800\n\
enter 0 0 sendpackets 00000000,80001000,00000002 -\n\
hand 0\n\
hand 1\n\
leave 0 00000000\n\
requeue 1\n\
requeue 0\n",
    line: 8,
    rule: 1,
};

/// A packet that went back stands in the queue at its place, in front of a later one.
const NOT_FIRST: Refused<'static> = Refused {
    first: RUNNING,
    text: b"\
send 0 0 ffffffffffff0000000000010800\n\
send 1 1 ffffffffffff0000000000010800\n\
enter 0 0 send 00000000,80000000,00000000 -\n\
hand 0\n\
leave 0 c000009a\n\
requeue 0\n\
enter 0 0 timer - -\n\
call 0 NdisMSendResourcesAvailable 00000000\n\
reply 0 00000000 -\n\
leave 0 00000000\n\
enter 0 0 send 00000000,80000000,00000000 -\n\
hand 1\n",
    line: 12,
    rule: 1,
};

/// A cancel ends the queued packets with its id.
const CANCELLED: Refused<'static> = Refused {
    first: RUNNING,
    text: b"\
send 0 0 ffffffffffff0000000000010800\n\
tag 0 9\n\
send 0 1 ffffffffffff0000000000010800\n\
send 0 2 ffffffffffff0000000000010800\n\
tag 2 9\n\
cancel 0 9\n\
complete 0 c001000c\n\
complete 2 c001000c\n\
complete 1 c001000c\n",
    line: 9,
    rule: 1,
};

/// What may not become of packets.
#[test]
fn packets_are_refused(rt: HostRuntime) {
    let rows = [
        QUEUED, STARTING, PENDING, TWICE, LATE, ABORTING, NO_RESET, FALLING, NOT_FIRST, CANCELLED,
    ];
    let taken = first_taken(rt.alloc(), &rows);
    assert!(rt; taken == 0, "row {taken}");
}

/// An array of which the miniport took the first packet: the others go back, in order.
const GIVEN_BACK: &[u8] = b"\
send 0 0 ffffffffffff0000000000010800\n\
send 1 1 ffffffffffff0000000000010800\n\
send 0 2 ffffffffffff0000000000010800\n\
enter 0 0 sendpackets 00000000,80001000,00000003 -\n\
hand 0\n\
hand 1\n\
hand 2\n\
leave 0 00000000\n\
complete 0 00000000\n\
requeue 1\n\
requeue 2\n";

/// Whether adapter 0 runs, and has a packet to send or has none.
fn may_send(book: &Book, send: bool) -> bool {
    if book.adapters() == 0 {
        return false;
    }
    let standing = book.standing(AdapterNo(0));
    standing.phase == Phase::Running && standing.send == send && standing.unfinished
}

fn is_held_back(alloc: Global, book: &mut Book) -> bool {
    may_send(book, false)
        && takes(
            alloc,
            book,
            b"enter 0 0 timer - -\ncall 0 NdisMSendResourcesAvailable 00000000\n",
        )
        && may_send(book, true)
        && takes(
            alloc,
            book,
            b"reply 0 00000000 -\nleave 0 00000000\nenter 0 0 send 00000000,80000000,00000000 -\nhand 1\n",
        )
}

/// RESOURCES in an array holds the adapter back until its miniport has resources again; then the packets
/// are handed in their order.
#[test]
fn resources_hold_back(rt: HostRuntime) {
    let held = behind(rt.alloc(), RUNNING, |alloc, book| {
        takes(alloc, book, GIVEN_BACK) && is_held_back(alloc, book)
    });
    assert!(rt; held);
}
