//! Indications and returns.

use crate::books::{DESERIALIZED, RUNNING, Refused, behind, breaks, first_taken, rule_of, takes};
use call_log::{Entry, Holders};
use nd_base::{AdapterNo, Bytes, LoanNo};
use owner_book::Book;
use std::alloc::Global;

/// Driver 0 takes broadcast frames, and holds loan 0.
const LENT: &[u8] = b"\
enter - 0 driverentry e0000000,e0000008 -\n\
leave 0 00000000\n\
enter 0 0 initialize - -\n\
leave 0 00000000\n\
bind 0 0\n\
bind 1 0\n\
ask 0 0 set 0001010e 08000000\n\
enter 0 0 set 00000000,0001010e,80000000,00000004,e0000000,e0000004 -\n\
handask 0\n\
leave 0 00000000\n\
answer 0 00000000 -\n\
enter 0 0 handleinterrupt 00000000 -\n\
call 0 NdisMIndicateReceivePacket 00000000,80001000,00000001\n\
indicate 0 0 ffffffffffff0000000000010800 0 0\n";

/// A driver that holds no part of a loan can't return it.
const OTHERS: Refused<'static> = Refused {
    first: LENT,
    text: b"return 1 0\n",
    line: 1,
    rule: 2,
};

/// Its holder returns it once.
const RETURNED: Refused<'static> = Refused {
    first: LENT,
    text: b"return 0 0\nreturn 0 0\n",
    line: 2,
    rule: 2,
};

/// The holders are the drivers whose filter takes the frame: this one nobody wants.
const UNWANTED: Refused<'static> = Refused {
    first: LENT,
    text: b"indicate 0 1 0200000000010000000000010800 0 0\n",
    line: 1,
    rule: 2,
};

/// This one driver 0 wants.
const WANTED: Refused<'static> = Refused {
    first: LENT,
    text: b"indicate 0 1 0200000000010000000000010800 - 0\nindicate 0 2 ffffffffffff0000000000010800 - 0\n",
    line: 2,
    rule: 2,
};

/// A loan goes home in its handler alone.
const AT_ONCE: Refused<'static> = Refused {
    first: DESERIALIZED,
    text: b"\
enter 0 0 handleinterrupt 00000000 -\n\
call 0 NdisMIndicateReceivePacket 00000000,80001000,00000001\n\
indicate 0 0 0200000000010000000000010800 - 0\n\
back 0 0\n",
    line: 4,
    rule: 2,
};

#[test]
fn loans_are_refused(rt: HostRuntime) {
    let rows = [OTHERS, RETURNED, UNWANTED, WANTED, AT_ONCE];
    let taken = first_taken(rt.alloc(), &rows);
    assert!(rt; taken == 0, "row {taken}");
}

/// Halt waits for a loan that is due.
#[test]
fn halt_waits_for_a_loan(rt: HostRuntime) {
    let waits = behind(rt.alloc(), LENT, |alloc, book| {
        takes(
            alloc,
            book,
            b"reply 0 00000000 -\nleave 0 00000000\nreturn 0 0\nunbind 0\nunbind 1\n",
        ) && breaks(alloc, book, b"enter 0 0 halt 00000000 -\n", 1, 9)
            && takes(
                alloc,
                book,
                b"enter 0 0 returnpacket 00000000,80001000 -\nback 0 0\nleave 0 00000000\nenter 0 0 halt 00000000 -\n",
            )
    });
    assert!(rt; waits);
}

/// The bytes of a frame for another station.
fn frame(alloc: Global) -> Option<Bytes> {
    Bytes::copy(alloc, b"\x02\0\0\0\0\x01\0\0\0\0\0\x01\x08\0").ok()
}

/// The rule that another loan of nobody breaks, 0 for none.
fn rule_of_loan(alloc: Global, book: &mut Book, loan: u64) -> Option<u8> {
    let entry = Entry::Indicate {
        adapter: AdapterNo(0),
        loan: LoanNo(loan),
        bytes: frame(alloc)?,
        holders: Holders::new(alloc),
        copied: false,
    };
    rule_of(book, &entry)
}

/// Whether so many loans go out.
fn go_out(alloc: Global, book: &mut Book, count: u64) -> bool {
    for loan in 0..count {
        if rule_of_loan(alloc, book, loan) != Some(0) {
            return false;
        }
    }
    true
}

/// An adapter has 256 loans away, and no more. Nobody holds these: a deserialized miniport gets them back.
#[test]
fn no_257th_loan_goes_out(rt: HostRuntime) {
    let full = behind(rt.alloc(), DESERIALIZED, |alloc, book| {
        takes(
            alloc,
            book,
            b"enter 0 0 handleinterrupt 00000000 -\ncall 0 NdisMIndicateReceivePacket 00000000,80001000,00000001\n",
        ) && go_out(alloc, book, 256)
            && book.outstanding(AdapterNo(0)) == 256
            && rule_of_loan(alloc, book, 256) == Some(12)
    });
    assert!(rt; full);
}

/// A frame that nobody wants stays the serialized miniport's: nothing of it is outstanding.
#[test]
fn an_unwanted_frame_is_no_loan(rt: HostRuntime) {
    let halts = behind(rt.alloc(), RUNNING, |alloc, book| {
        takes(
            alloc,
            book,
            b"\
enter 0 0 handleinterrupt 00000000 -\n\
call 0 NdisMIndicateReceivePacket 00000000,80001000,00000001\n\
indicate 0 0 0200000000010000000000010800 - 0\n\
reply 0 00000000 -\n\
leave 0 00000000\n\
unbind 0\n\
unbind 1\n\
enter 0 0 halt 00000000 -\n",
        )
    });
    assert!(rt; halts);
}
