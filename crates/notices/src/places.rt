//! How far a driver has heard a run.

ghost use Rattle.std.specs.Prelude.{◌≡◌, ◌<◌, ◌+◌, ◌^◌, false};
ghost use Rattle.legal_run.specs.State.{Inputs};
ghost use Rattle.legal_run.specs.Run.{Run, now};
ghost use Rattle.notices.specs.Notices.{tells_by};
ghost use Rattle.notices.specs.Reading.{Finds, IsPlace, Takes, bound_behind, passed};

use crate::told::{Told, told_by};
use call_log::{Entry, Log};
use nd_base::BindingNo;
use owner_book::Book;

/// How far a driver has heard a run.
#[derive(Clone, Copy, Debug, PartialEq, Eq)]
pub struct Place {
    pub driver: BindingNo,
    /// So many entries of the log it has heard.
    pub at: u64,
    /// It is bound behind them.
    pub bound: bool,
}

/// Whether a driver is bound behind an entry.
fn bound_behind(driver: BindingNo, bound: bool, entry: &Entry) -> bool
    ensures { result ≡ bound_behind driver.0 bound entry.now }
{
    match entry {
        Entry::Bind { driver: other, .. } => bound || other.0 == driver.0,
        Entry::Unbind { driver: other } => bound && other.0 != driver.0,
        _ => bound,
    }
}

impl Place {
    /// Before the first entry.
    pub fn new(driver: BindingNo) -> Place
        ensures { result ≡ record { driver = driver; at = 0; bound = false } }
    {
        Place {
            driver,
            at: 0,
            bound: false,
        }
    }

    /// Passes an entry.
    fn pass(&mut self, entry: &Entry)
        requires { self.old.at + 1 < 2 ^ 64 }
        ensures { self.new ≡ passed self.old entry.now }
    {
        self.bound = bound_behind(self.driver, self.bound, entry);
        self.at += 1;
    }

    /// What the entry at which it is tells the driver.
    fn told(&self, book: &Book, entry: &Entry) -> Option<Told>
        ensures { result ≡ tells_by book.now self.now.driver self.now.bound entry.now }
    {
        told_by(book, self.driver, self.bound, entry)
    }

    /// The next notice of the driver, which goes on to it; none where it is told nothing more.
    pub fn next(&mut self, book: &Book, log: &Log) -> Option<Told>
        ghost c: { Inputs }
        requires run { Run c log.now.entries }
        requires owner { book.now ≡ (now c log.now.entries).owner }
        requires place { IsPlace c log.now.entries self.old }
        ensures { Finds c log.now.entries self.old self.new result }
    {
        let end = log.len();
        while self.at < end {
            let Some(entry) = log.entry(self.at) else {
                unreachable!()
            };
            let told = self.told(book, entry);
            if told.is_some() {
                return told;
            }
            self.pass(entry);
        }
        None
    }

    /// Takes the next notice of the driver; none where it is told nothing more.
    pub fn take(&mut self, book: &Book, log: &Log) -> Option<Told>
        ghost c: { Inputs }
        requires run { Run c log.now.entries }
        requires owner { book.now ≡ (now c log.now.entries).owner }
        requires place { IsPlace c log.now.entries self.old }
        ensures { Takes c log.now.entries self.old self.new result }
    {
        let end = log.len();
        let told = self.next(book, log)?;
        let Some(entry) = log.entry(self.at) else {
            unreachable!()
        };
        self.pass(entry);
        Some(told)
    }
}
