//! Handlers side by side.

use crate::books::{DESERIALIZED, RUNNING, Refused, behind, first_taken, takes};

/// A serial handler waits for the one that is open, where the miniport is serialized.
const OVERLAPPING: Refused<'static> = Refused {
    first: RUNNING,
    text: b"enter 0 0 send 00000000,80000000,00000000 -\nenter 0 1 handleinterrupt - -\n",
    line: 2,
    rule: 9,
};

/// A handler of an interrupt waits for another one, of a deserialized miniport too.
const INTERRUPTED: Refused<'static> = Refused {
    first: DESERIALIZED,
    text: b"enter 0 0 isr - -\nenter 0 1 sync - -\n",
    line: 2,
    rule: 9,
};

/// A context that calls an import does not run.
const CALLING: Refused<'static> = Refused {
    first: RUNNING,
    text: b"enter 0 0 timer - -\ncall 0 NdisMSendResourcesAvailable 00000000\nturn 0 1\n",
    line: 3,
    rule: 9,
};

#[test]
fn handlers_wait(rt: HostRuntime) {
    let rows = [OVERLAPPING, INTERRUPTED, CALLING];
    let taken = first_taken(rt.alloc(), &rows);
    assert!(rt; taken == 0, "row {taken}");
}

/// Two timers of a deserialized adapter run side by side; and an interrupt beside any.
#[test]
fn timers_overlap(rt: HostRuntime) {
    let taken = behind(rt.alloc(), DESERIALIZED, |alloc, book| {
        takes(
            alloc,
            book,
            b"enter 0 0 timer - -\nenter 0 1 timer - -\nenter 0 2 isr - -\n",
        )
    });
    assert!(rt; taken);
}
