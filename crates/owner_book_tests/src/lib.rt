//! Tests of owner_book.
#![tactic(auto)]

#[cfg(test)]
mod books;
#[cfg(test)]
mod handlers;
#[cfg(test)]
mod loans;
#[cfg(test)]
mod packets;
#[cfg(test)]
mod requests;
#[cfg(test)]
mod stops;
#[cfg(test)]
mod waiting;
