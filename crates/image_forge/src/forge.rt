//! Source as the file of an image.

ghost use Rattle.std.specs.Prelude.{◌≡◌, map, IfOk, IfErr, IfSome};
ghost use Rattle.image_forge.specs.Forged.{rva_of, IsFileOf, IsForged, IsUnforged};

use crate::headers::{IMAGE_BASE, file_of};
use crate::judged::is_forged;
use crate::section::{SECTION_RVA, section_of};
use nd_base::{Bytes, OutOfMemory};
use std::alloc::Global;
use sys_forge::{Assembled, ForgeRefusal, assemble_with_places, line_count};

/// What an image is made of: a source text, and the label of its entry point.
#[derive(Drop)]
pub struct Parts {
    pub source: Bytes,
    pub entry: Bytes,
}

/// The RVAs of these places of the text: none where one would pass 4 GiB.
fn rvas_of(alloc: Global, places: &[u32]) -> Result<Option<Vec<u32>>, OutOfMemory>
    ensures { IfOk result (λ found. IfSome found (λ rvas. rvas.items ≡ map rva_of places.now)) }
{
    let mut rvas = Vec::new(alloc);
    for place in places {
        let Some(rva) = place.checked_add(SECTION_RVA) else {
            return Ok(None);
        };
        rvas.push(rva)?;
    }
    Ok(Some(rvas))
}

/// The file of an image with relocations of these RVAs.
fn built(
    alloc: Global,
    assembled: &Assembled,
    address: u32,
    relocated: &[u32],
) -> Result<Bytes, OutOfMemory> {
    let words = assembled.tables.words.saturating_sub(IMAGE_BASE);
    let section = section_of(alloc, assembled, words, relocated)?;
    file_of(alloc, &section, address.saturating_sub(IMAGE_BASE))
}

/// The file of an image of assembled source, with its entry point at an address: none where the
/// image is not one that is read.
fn forged(alloc: Global, assembled: &Assembled, address: u32) -> Result<Option<Bytes>, OutOfMemory>
    ensures { IfOk result (λ found. IfSome found (λ file. IsFileOf assembled.now.tables assembled.now.bytes assembled.now.places.items address file)) }
{
    let Some(relocated) = rvas_of(alloc, assembled.places.as_slice())? else {
        return Ok(None);
    };
    let file = built(alloc, assembled, address, relocated.as_slice())?;
    let holds = is_forged(
        alloc,
        file.as_slice(),
        assembled,
        address,
        relocated.as_slice(),
    )?;
    if holds { Ok(Some(file)) } else { Ok(None) }
}

/// The file of a driver's image: its source assembled in one section of all rights at RVA 0x1000,
/// its imports in the order of first use, and a relocation for each word that holds an address.
pub fn forge_image(alloc: Global, parts: &Parts) -> Result<Bytes, ForgeRefusal>
    ensures ok { IfOk result (λ file. IsForged parts.now.source parts.now.entry file) }
    ensures err { IfErr result (λ why. IsUnforged parts.now.source parts.now.entry why) }
{
    let source = parts.source.as_slice();
    let assembled = match assemble_with_places(alloc, source) {
        Ok(assembled) => assembled,
        Err(why) => return Err(why),
    };
    let behind = line_count(source) + 1;
    let Some((_, address)) = assembled.tables.labels.find(parts.entry.as_slice()) else {
        return Err(ForgeRefusal::Line(behind));
    };
    match forged(alloc, &assembled, address) {
        Ok(Some(file)) => Ok(file),
        Ok(None) => Err(ForgeRefusal::Range(behind)),
        Err(_) => Err(ForgeRefusal::OutOfMemory),
    }
}
