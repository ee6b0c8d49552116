//! The slots of an image's imports.

ghost use Rattle.std.specs.Prelude.{◌≡◌, None, IfOk, IfErr, false};
ghost use Rattle.std.specs.Option.{option_map};
ghost use Rattle.import_slots.specs.Slots.{is_unknown, first_unknown, slot_of, addresses_of, RefusedFor};

use guest_map::slot_address;
use import_table::{import_named, table_laws};
use nd_base::{Addr, OutOfMemory, Slot};
use pe_image::{Image, Import, ImportAddresses};
use std::alloc::Global;

/// Why an image's imports get no slots.
#[derive(Clone, Copy, Debug, PartialEq, Eq)]
pub enum SlotRefusal<'i> {
    OutOfMemory,
    /// The first name that no import of the table has.
    UnknownImport(&'i [u8]),
}

/// Whether an import is not in the table.
fn is_unknown(import: &Import) -> bool
    ensures { result ≡ is_unknown import.now }
{
    import_named(import.name.as_slice()).is_none()
}

/// The first import that is not in the table.
#[tactic(auto, unfolding(crate::specs::Slots::first_unknown))]
fn first_unknown(imports: &[Import]) -> Option<&Import>
    ensures { option_map (λ i. i.now.name) result ≡ first_unknown imports.now }
{
    imports.iter().find(|import| is_unknown(import))
}

/// The slot's address of an import that is in the table.
fn slot_of(import: &Import) -> Addr
    requires { is_unknown import.now ≡ false }
    ensures { result.0 ≡ slot_of import.now }
{
    table_laws();
    match import_named(import.name.as_slice()) {
        Some(row) => slot_address(Slot::Import(row.import)),
        None => unreachable!(),
    }
}

/// The slots' addresses of imports that are all in the table.
fn addresses_of(alloc: Global, imports: &[Import]) -> Result<ImportAddresses, OutOfMemory>
    requires { first_unknown imports.now ≡ None }
    ensures { IfOk result (λ addresses. addresses ≡ addresses_of imports.now) }
{
    let mut addresses = ImportAddresses::new(alloc);
    for import in imports {
        addresses.push(slot_of(import))?;
    }
    Ok(addresses)
}

/// The slot's address of each import of an image, in its order. Which DLL it is imported from is not
/// judged.
pub fn slots(alloc: Global, image: &Image) -> Result<ImportAddresses, SlotRefusal<'_>>
    ensures ok { IfOk result (λ addresses. (first_unknown image.now.imports ≡ None) × (addresses ≡ addresses_of image.now.imports)) }
    ensures refused { IfErr result (λ e. RefusedFor e (first_unknown image.now.imports)) }
{
    if let Some(import) = first_unknown(image.imports()) {
        return Err(SlotRefusal::UnknownImport(import.name.as_slice()));
    }
    match addresses_of(alloc, image.imports()) {
        Ok(addresses) => Ok(addresses),
        Err(OutOfMemory) => Err(SlotRefusal::OutOfMemory),
    }
}
