//! A miniport's image and INF.

ghost use Rattle.std.specs.Prelude.{IfOk, OnOk, codes};
ghost use Rattle.image_forge.specs.Forged.{IsForged};
ghost use Rattle.forged_miniports.specs.Kinds.{source_of};
ghost use Rattle.forged_miniports.specs.Miniports.{IsMiniport, IsInfOf};

use crate::inf::INF;
use crate::kind::{Kind, source_of};
use image_forge::{Parts, forge_image};
use inf_file::parameters;
use inf_text::Inf;
use nd_base::{Bytes, OutOfMemory};
use std::alloc::Global;

/// The label of DriverEntry.
const ENTRY: &[u8] = b"start";

/// The hardware id that the INF gives parameters: `*PNP80D6`, that of an NE2000.
const HARDWARE_ID: [u16; 8] = [42, 80, 78, 80, 56, 48, 68, 54];

/// The files of a test miniport.
#[derive(Drop)]
pub struct Miniport {
    pub image: Bytes,
    pub inf: Bytes,
}

/// The file of a kind's image.
fn image_of(alloc: Global, kind: Kind) -> Result<Bytes, OutOfMemory>
    ensures { IfOk result (λ image. IsForged (source_of kind) (codes "start") image) }
{
    let source = Bytes::copy(alloc, source_of(kind))?;
    let entry = Bytes::copy(alloc, ENTRY)?;
    match forge_image(alloc, &Parts { source, entry }) {
        Ok(image) => Ok(image),
        Err(_) => Err(OutOfMemory),
    }
}

/// Reads a text as an INF file that gives the hardware id parameters.
fn judge_inf(alloc: Global, text: &[u8]) -> Result<(), OutOfMemory>
    ensures { OnOk result (IsInfOf text.now (codes "*PNP80D6")) }
{
    let Ok(inf) = Inf::read(alloc, text) else {
        return Err(OutOfMemory);
    };
    match parameters(&inf, alloc, &HARDWARE_ID) {
        Ok(_) => Ok(()),
        Err(_) => Err(OutOfMemory),
    }
}

/// The image and the INF of a test miniport of a kind: an image that is read, with the source's
/// bytes, and an INF that is read and gives the hardware id `*PNP80D6` its parameters.
pub fn forge(alloc: Global, kind: Kind) -> Result<Miniport, OutOfMemory>
    ensures { IfOk result (λ miniport. IsMiniport kind miniport.image miniport.inf) }
{
    judge_inf(alloc, INF)?;
    let image = image_of(alloc, kind)?;
    let inf = Bytes::copy(alloc, INF)?;
    Ok(Miniport { image, inf })
}
