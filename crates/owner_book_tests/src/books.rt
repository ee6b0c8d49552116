//! Books that take the entries of a log's text.

use call_log::{Entry, Log, read_log};
use nd_base::{AdapterNo, Breach};
use owner_book::{Book, Refusal};
use std::alloc::Global;

/// The adapter of each driver: two of adapter 0, one of adapter 1.
const DRIVERS: [AdapterNo; 3] = [AdapterNo(0), AdapterNo(0), AdapterNo(1)];

/// Adapter 0 runs, serialized, with its two drivers bound.
pub const RUNNING: &[u8] = b"\
enter - 0 driverentry e0000000,e0000008 -\n\
leave 0 00000000\n\
enter 0 0 initialize - -\n\
leave 0 00000000\n\
bind 0 0\n\
bind 1 0\n";

/// Adapter 0 runs, deserialized, with its two drivers bound.
pub const DESERIALIZED: &[u8] = b"\
enter - 0 driverentry e0000000,e0000008 -\n\
leave 0 00000000\n\
enter 0 0 initialize - -\n\
call 0 NdisMSetAttributesEx 00000000,00000000,00000000,00000020,00000000\n\
reply 0 00000000 -\n\
leave 0 00000000\n\
bind 0 0\n\
bind 1 0\n";

/// What a book makes of a log's text.
#[derive(Clone, Copy, PartialEq, Eq)]
enum Taken {
    /// Every entry is taken.
    All,
    /// The entry of this line, from 1, breaks this rule.
    Not(u64, u8),
    /// The text is no log, or memory is wanted.
    Nothing,
}

/// The rule that an entry breaks, 0 for none; none where memory is wanted.
pub fn rule_of(book: &mut Book, entry: &Entry) -> Option<u8> {
    match book.admit(entry) {
        Ok(()) => Some(0),
        Err(Refusal::Broken(Breach(rule))) => Some(rule),
        Err(Refusal::OutOfMemory) => None,
    }
}

/// The first entry of a log that breaks a rule.
fn first_broken(book: &mut Book, log: &Log) -> Taken {
    for i in 0..log.len() {
        if let Some(e) = log.entry(i) {
            match rule_of(book, e) {
                Some(0) => {}
                Some(rule) => return Taken::Not(i.saturating_add(1), rule),
                None => return Taken::Nothing,
            }
        }
    }
    Taken::All
}

/// What a book makes of a text.
fn take(alloc: Global, book: &mut Book, text: &[u8]) -> Taken {
    match read_log(alloc, text) {
        Ok(log) => first_broken(book, &log),
        Err(_) => Taken::Nothing,
    }
}

/// Whether a book takes a text whole.
pub fn takes(alloc: Global, book: &mut Book, text: &[u8]) -> bool {
    take(alloc, book, text) == Taken::All
}

/// Whether a book takes a text up to this line, which breaks this rule.
pub fn breaks(alloc: Global, book: &mut Book, text: &[u8], line: u64, rule: u8) -> bool {
    take(alloc, book, text) == Taken::Not(line, rule)
}

/// Whether something holds of a book of two adapters that has taken the text.
pub fn behind<F: FnOnce(Global, &mut Book) -> bool>(alloc: Global, first: &[u8], holds: F) -> bool
    requires { F.IsAlwaysCallable holds }
{
    match Book::new(alloc, 2, &DRIVERS) {
        Ok(mut book) => {
            book.handlers(true, true);
            takes(alloc, &mut book, first) && holds(alloc, &mut book)
        }
        Err(_) => false,
    }
}

/// A text that is refused behind another: at which line, by which rule.
#[derive(Clone, Copy)]
pub struct Refused<'t> {
    pub first: &'t [u8],
    pub text: &'t [u8],
    pub line: u64,
    pub rule: u8,
}

/// The first of these texts that is not refused as it is to be, from 1; 0 for none.
pub fn first_taken(alloc: Global, rows: &[Refused]) -> usize {
    for (i, row) in rows.iter().enumerate() {
        let row = *row;
        if !behind(alloc, row.first, |alloc, book| {
            breaks(alloc, book, row.text, row.line, row.rule)
        }) {
            return i.saturating_add(1);
        }
    }
    0
}
