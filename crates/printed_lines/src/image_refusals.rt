//! The line of each refusal of an image.

ghost use Rattle.std.specs.Prelude.{◌≡◌, IfOk};
ghost use Rattle.printed_lines.specs.ImageLines.{image_line, unknown_import_line};
ghost use Rattle.printed_lines.specs.RefusalLine.{refusal_line};

use crate::refusal_line::refusal_line;
use nd_base::{Bytes, OutOfMemory};
use pe_image::PeRefusal;
use std::alloc::Global;

/// The words of a refusal's line, and its offset, RVA or number.
fn words(refusal: PeRefusal) -> (&'static str, Option<u32>)
    ensures { refusal_line result.0.now result.1 ≡ image_line refusal }
{
    match refusal {
        PeRefusal::OutOfMemory => ("memory", None),
        PeRefusal::TooLarge => ("image too-large", None),
        PeRefusal::Short(at) => ("image short", Some(at)),
        PeRefusal::NotPe => ("image not-pe", None),
        PeRefusal::NotI386 => ("image not-i386", None),
        PeRefusal::NotPe32 => ("image not-pe32", None),
        PeRefusal::BadSection(n) => ("image bad-section", Some(u32::from(n))),
        PeRefusal::Overlap(n) => ("image overlap", Some(u32::from(n))),
        PeRefusal::BadEntry => ("image bad-entry", None),
        PeRefusal::BadDirectory(n) => ("image bad-directory", Some(u32::from(n))),
        PeRefusal::BadReloc(at) => ("image bad-reloc", Some(at)),
        PeRefusal::RelocsStripped => ("image relocs-stripped", None),
        PeRefusal::BadImport(at) => ("image bad-import", Some(at)),
        PeRefusal::Ordinal(at) => ("image ordinal", Some(at)),
    }
}

/// The line of a refusal: `image`, its name, and its offset, RVA or number.
pub fn image_line(alloc: Global, refusal: PeRefusal) -> Result<Bytes, OutOfMemory>
    ensures { IfOk result (λ line. line ≡ image_line refusal) }
{
    let (words, number) = words(refusal);
    refusal_line(alloc, words, number)
}

/// The line of an import that is not served.
pub fn unknown_import_line(alloc: Global, name: &[u8]) -> Result<Bytes, OutOfMemory>
    ensures { IfOk result (λ line. line ≡ unknown_import_line name.now) }
{
    let mut line = Bytes::copy(alloc, b"image unknown-import ")?;
    line.extend_from_slice(name)?;
    line.push(b'\n')?;
    Ok(line)
}
