//! `show-image SYS` and `show-inf INF ID`: what an input holds.

ghost use Rattle.std.specs.Prelude.{◌≡◌, ◌⊎◌, IfOk, IsTrue};
ghost use Rattle.ndis_run.specs.Devices.{storage};
ghost use Rattle.ndis_run.specs.Showing.{ReadsAndAnswers};
ghost use Rattle.std.specs.List.{flat_map};
ghost use Rattle.printed_lines.specs.ImageLines.{image_line};
ghost use Rattle.printed_lines.specs.ParameterLines.{inf_line, parameters_line};
ghost use Rattle.ndis_run.specs.Shown.{answer, shown_image, shown_inf, shown_parameters, utf16};
ghost use Rattle.inf_file.specs.Parameters.{parameters_of};

use crate::printing::IMAGE_REFUSED;
use crate::run_zero::IMAGE_LIMIT;
use crate::transfer::{ReadFailure, read_file};
use inf_file::{ParamRefusal, parameters};
use inf_text::{Inf, InfRefusal};
use nd_base::{Bytes, Files, OutOfMemory, Wide};
use pe_image::{Image, PeRefusal};
use printed_lines::{image_line, image_lines, inf_line, parameter_lines, parameters_line};
use std::alloc::Global;

/// A status, and the text that is printed with it.
#[derive(Drop)]
pub struct Answer {
    pub status: u8,
    pub text: Bytes,
}

/// Why an input is not answered.
#[derive(Clone, Copy, Debug, PartialEq, Eq)]
pub enum ShowFailure {
    Memory,
    /// A size or read of its file failed.
    Unread,
}

impl From<OutOfMemory> for ShowFailure {
    ghost use Rattle.std.specs.Prelude.{◌≡◌};
    ghost use Rattle.ndis_run.specs.declared.show.ShowFailure.TheVariants.{Memory};

    ghost from_gives = { λ _ e. e ≡ Memory };

    fn from(_error: OutOfMemory) -> Self {
        ShowFailure::Memory
    }
}

/// The answer to an image that is refused.
fn refused_image(alloc: Global, refusal: PeRefusal) -> Result<Answer, OutOfMemory>
    ensures { IfOk result (λ a. answer a.status a.text ≡ answer 5 (image_line refusal)) }
{
    Ok(Answer {
        status: IMAGE_REFUSED,
        text: image_line(alloc, refusal)?,
    })
}

/// The answer to an image's bytes.
fn judge_image(alloc: Global, bytes: &[u8]) -> Result<Answer, OutOfMemory>
    ensures value { IfOk result (λ a. answer a.status a.text ≡ shown_image bytes.now) }
    ensures status { IfOk result (λ a. (a.status ≡ 0) ⊎ (a.status ≡ 5)) }
{
    match Image::read(alloc, bytes) {
        Ok(image) => Ok(Answer {
            status: 0,
            text: image_lines(alloc, &image)?,
        }),
        Err(PeRefusal::OutOfMemory) => Err(OutOfMemory),
        Err(refusal) => refused_image(alloc, refusal),
    }
}

/// The answer of `show-image` to a file.
#[tactic(auto, using(crate::proofs::Judging::shown_too_large))]
pub fn show_image<F: Files>(alloc: Global, files: &mut F, sys: &str) -> Result<Answer, ShowFailure>
    requires { IsTrue (F.may_read files.old sys.now) }
    ensures { ReadsAndAnswers shown_image 5 sys.now result (storage F.Files files.old) (storage F.Files files.new) }
{
    match read_file(alloc, files, sys, IMAGE_LIMIT) {
        Ok(bytes) => Ok(judge_image(alloc, &bytes)?),
        Err(ReadFailure::Memory) => Err(ShowFailure::Memory),
        Err(ReadFailure::Failed) => Err(ShowFailure::Unread),
        Err(ReadFailure::TooLong) => Ok(refused_image(alloc, PeRefusal::TooLarge)?),
    }
}

/// The most bytes that an INF file may have.
const INF_LIMIT: usize = 0x10_0000;

/// The status where the INF file or the parameters are refused.
const INF_REFUSED: u8 = 6;

/// The UTF-16 units of a text.
fn utf16(alloc: Global, text: &str) -> Result<Wide, OutOfMemory>
    ensures { IfOk result (λ units. units ≡ utf16 text.now) }
{
    let mut units = Wide::new(alloc);
    let mut rest = text.chars();
    while let Some(character) = rest.next() {
        let mut pair = [0; 2];
        units.extend_from_slice(character.encode_utf16(&mut pair))?;
    }
    Ok(units)
}

fn refused_inf(alloc: Global, refusal: InfRefusal) -> Result<Answer, OutOfMemory>
    ensures { IfOk result (λ a. answer a.status a.text ≡ answer 6 (inf_line refusal)) }
{
    Ok(Answer {
        status: INF_REFUSED,
        text: inf_line(alloc, refusal)?,
    })
}

fn refused_parameters(alloc: Global, refusal: ParamRefusal) -> Result<Answer, OutOfMemory>
    ensures { IfOk result (λ a. answer a.status a.text ≡ answer 6 (parameters_line refusal)) }
{
    Ok(Answer {
        status: INF_REFUSED,
        text: parameters_line(alloc, refusal)?,
    })
}

/// The answer to the parameters of a hardware id.
fn judge_parameters(alloc: Global, inf: &Inf, id: &[u16]) -> Result<Answer, OutOfMemory>
    ensures value { IfOk result (λ a. answer a.status a.text ≡ shown_parameters (parameters_of inf.now id.now)) }
    ensures status { IfOk result (λ a. (a.status ≡ 0) ⊎ (a.status ≡ 6)) }
{
    match parameters(inf, alloc, id) {
        Ok(parameters) => Ok(Answer {
            status: 0,
            text: parameter_lines(alloc, &parameters)?,
        }),
        Err(ParamRefusal::OutOfMemory) => Err(OutOfMemory),
        Err(refusal) => refused_parameters(alloc, refusal),
    }
}

/// The answer to a hardware id and an INF file's bytes.
fn judge_inf(alloc: Global, bytes: &[u8], id: &str) -> Result<Answer, OutOfMemory>
    ensures value { IfOk result (λ a. answer a.status a.text ≡ shown_inf id.now bytes.now) }
    ensures status { IfOk result (λ a. (a.status ≡ 0) ⊎ (a.status ≡ 6)) }
{
    match Inf::read(alloc, bytes) {
        Ok(inf) => judge_parameters(alloc, &inf, utf16(alloc, id)?.as_slice()),
        Err(InfRefusal::OutOfMemory) => Err(OutOfMemory),
        Err(refusal) => refused_inf(alloc, refusal),
    }
}

/// The answer of `show-inf` to a file and a hardware id.
#[tactic(auto, using(crate::proofs::Judging::shown_too_long))]
pub fn show_inf<F: Files>(
    alloc: Global,
    files: &mut F,
    inf: &str,
    id: &str,
) -> Result<Answer, ShowFailure>
    requires { IsTrue (F.may_read files.old inf.now) }
    ensures { ReadsAndAnswers (shown_inf id.now) 6 inf.now result (storage F.Files files.old) (storage F.Files files.new) }
{
    match read_file(alloc, files, inf, INF_LIMIT) {
        Ok(bytes) => Ok(judge_inf(alloc, &bytes, id)?),
        Err(ReadFailure::Memory) => Err(ShowFailure::Memory),
        Err(ReadFailure::Failed) => Err(ShowFailure::Unread),
        Err(ReadFailure::TooLong) => Ok(refused_inf(alloc, InfRefusal::TooLong)?),
    }
}
