//! Addresses of multicast lists, each once.

ghost use Rattle.std.specs.Prelude.{◌≡◌, IfOk, OnOk};
ghost use Rattle.std.specs.List.{flat_map, list_any};
ghost use Rattle.std.specs.Str.{bytes_eq};
ghost use Rattle.legal_run.specs.Enters.{addresses};
ghost use Rattle.oid_sets.specs.Joins.{added, all_added};

use nd_base::{Bytes, OutOfMemory};
use std::alloc::Global;

/// Whether an address is one of some.
fn is_one_of(address: [u8; 6], there: &[[u8; 6]]) -> bool
    ensures { result ≡ list_any (bytes_eq address) there.now }
{
    there.iter().any(|x| address == *x)
}

/// Puts an address behind those that are there, if it is none of them.
fn add(there: &mut Vec<[u8; 6]>, address: [u8; 6]) -> Result<(), OutOfMemory>
    ensures { OnOk result (there.new.items ≡ added there.old.items address) }
{
    if !is_one_of(address, there.as_slice()) {
        there.push(address)?;
    }
    Ok(())
}

/// Puts a list's addresses behind those that are there.
pub(crate) fn add_list(there: &mut Vec<[u8; 6]>, list: &[u8]) -> Result<(), OutOfMemory>
    ensures { OnOk result (there.new.items ≡ all_added there.old.items (addresses list.now)) }
{
    match list {
        [a, b, c, d, e, f, rest @ ..] => {
            add(there, [*a, *b, *c, *d, *e, *f])?;
            add_list(there, rest)
        }
        _ => Ok(()),
    }
}

/// The bytes of addresses, one after the other.
pub(crate) fn bytes_of(alloc: Global, there: &[[u8; 6]]) -> Result<Bytes, OutOfMemory>
    ensures { IfOk result (λ bytes. bytes ≡ flat_map (λ x. x) there.now) }
{
    let mut bytes = Bytes::new(alloc);
    for address in there {
        bytes.extend_from_slice(address)?;
    }
    Ok(bytes)
}
