//! Questions and answers.

use crate::books::{RUNNING, Refused, behind, first_taken, takes};
use nd_base::BindingNo;
use owner_book::Book;

/// An answer without a request that was handed.
const NOT_HANDED: Refused<'static> = Refused {
    first: RUNNING,
    text: b"ask 0 0 query 0001010e 4\nanswer 0 00000000 -\n",
    line: 2,
    rule: 3,
};

/// A filter with a bit that no filter has is refused at once, with NDIS_STATUS_INVALID_DATA; one of two bytes
/// with NDIS_STATUS_INVALID_LENGTH.
const WRONG: Refused<'static> = Refused {
    first: RUNNING,
    text: b"\
ask 0 0 set 0001010e 10000000\n\
answer 0 c0010015 -\n\
ask 0 1 set 0001010e 0100\n\
answer 1 c0010015 -\n",
    line: 4,
    rule: 3,
};

/// The answer to a set comes by no completion of a query.
const OTHER_KIND: Refused<'static> = Refused {
    first: RUNNING,
    text: b"\
ask 0 0 set 0001010e 20000000\n\
enter 0 0 set 00000000,0001010e,80000000,00000004,e0000000,e0000004 -\n\
handask 0\n\
leave 0 00000103\n\
enter 0 0 timer - -\n\
call 0 NdisMQueryInformationComplete 00000000,00000000\n\
answer 0 00000000 -\n",
    line: 7,
    rule: 3,
};

#[test]
fn answers_are_refused(rt: HostRuntime) {
    let rows = [NOT_HANDED, WRONG, OTHER_KIND];
    let taken = first_taken(rt.alloc(), &rows);
    assert!(rt; taken == 0, "row {taken}");
}

/// Driver 0 sets its list, driver 1 its filter, which fails.
const SET: &[u8] = b"\
ask 0 0 set 01010103 01005e000001\n\
ask 1 1 set 0001010e 20000000\n\
enter 0 0 set 00000000,01010103,80000000,00000006,e0000000,e0000004 -\n\
handask 0\n\
leave 0 00000000\n\
answer 0 00000000 -\n\
enter 0 0 set 00000000,0001010e,80000000,00000004,e0000000,e0000004 -\n\
handask 1\n\
leave 0 c0000001\n\
answer 1 c0000001 -\n";

fn list_is(book: &Book, b: BindingNo, list: &[u8]) -> bool {
    match book.list(b) {
        Some(bytes) => bytes == list,
        None => false,
    }
}

/// A driver's list is what it set with success; a set that fails changes nothing; a driver that is not
/// bound has neither.
#[test]
fn a_driver_learns_what_was_set(rt: HostRuntime) {
    let learnt = behind(rt.alloc(), RUNNING, |alloc, book| {
        takes(alloc, book, SET)
            && list_is(book, BindingNo(0), b"\x01\0\x5e\0\0\x01")
            && book.filter(BindingNo(0)) == Some(0)
            && book.filter(BindingNo(1)) == Some(0)
            && book.filter(BindingNo(2)) == None
            && book.list(BindingNo(2)).is_none()
    });
    assert!(rt; learnt);
}
