//! Laws of the calls of DriverEntry: each is the contract of a function that does nothing.

ghost use Rattle.entry_calls.specs.Laws.{CallsOfDriverEntry};

/// Where DriverEntry alone may hold a lock, a call of it does not spin and does not wait for an
/// adapter's interrupt; it sleeps as long as its word says; and its charge is bounded.
pub fn calls_of_driver_entry()
    ensures { CallsOfDriverEntry }
{}
