//! The rows of add-registry sections.

ghost use Rattle.std.specs.Prelude.{◌≡◌, take, drop, IfOk};
ghost use Rattle.inf_file.specs.Keyed.{string_in};
ghost use Rattle.inf_text.specs.Names.{is_same};
ghost use Rattle.inf_file.specs.Numbers.{number_of};
ghost use Rattle.inf_file.specs.Rows.{is_zero, params_key, driver_key_row, default_row, row, saying};

use crate::numbers::number_of;
use crate::param::{Param, ParamValue};
use crate::source::Source;
use inf_text::{Line, is_word};
use nd_base::{OutOfMemory, Wide};
use std::alloc::Global;

/// What a row says of the parameters.
#[derive(Debug, Drop)]
pub enum Saying {
    Nothing,
    /// A parameter has a value.
    Sets(Param),
    /// A parameter has a value where no row sets it.
    Defaults(Param),
    /// The value is to be a number and is none.
    Bad,
}

/// The flags of a number, FLG_ADDREG_TYPE_DWORD.
const NUMBER: u32 = 0x0001_0001;

/// The length of `Ndi\params\`.
const PARAMS_KEY_LEN: usize = 11;

/// A row of the driver's own key.
#[tactic(auto, unfolding(crate::specs::Rows::driver_key_row))]
fn driver_key_row(name: Wide, flags: &[u16], value: Wide) -> Saying
    ensures { result ≡ driver_key_row name flags.now value }
{
    if flags.is_empty() {
        return Saying::Sets(Param {
            name,
            value: ParamValue::Text(value),
        });
    }
    match number_of(flags) {
        Some(0) => Saying::Sets(Param {
            name,
            value: ParamValue::Text(value),
        }),
        Some(NUMBER) => match number_of(value.as_slice()) {
            Some(number) => Saying::Sets(Param {
                name,
                value: ParamValue::Number(number),
            }),
            None => Saying::Bad,
        },
        _ => Saying::Nothing,
    }
}

/// Whether flags are the number 0.
fn is_zero(flags: &[u16]) -> bool
    ensures { result ≡ is_zero (number_of flags.now) }
{
    match number_of(flags) {
        Some(number) => number == 0,
        None => false,
    }
}

/// Whether a subkey begins with `Ndi\params\`.
fn is_params_key(subkey: &[u16]) -> bool
    ensures { result ≡ is_same params_key (take 11 subkey.now) }
{
    is_word(
        &subkey[..subkey.len().min(PARAMS_KEY_LEN)],
        b"Ndi\\params\\",
    )
}

/// The name of a parameter, behind `Ndi\params\`.
fn behind_key(subkey: &[u16]) -> &[u16]
    ensures { result.now ≡ drop 11 subkey.now }
{
    &subkey[subkey.len().min(PARAMS_KEY_LEN)..]
}

/// A row of a parameter's key.
#[tactic(auto, unfolding(crate::specs::Rows::default_row))]
fn default_row(
    alloc: Global,
    subkey: &[u16],
    name: &[u16],
    flags: &[u16],
    value: Wide,
) -> Result<Saying, OutOfMemory>
    ensures { IfOk result (λ s. s ≡ default_row subkey.now name.now flags.now value) }
{
    if is_params_key(subkey) && is_word(name, b"default") && is_zero(flags) {
        let name = Wide::copy(alloc, behind_key(subkey))?;
        return Ok(Saying::Defaults(Param {
            name,
            value: ParamValue::Text(value),
        }));
    }
    Ok(Saying::Nothing)
}

/// What a row says.
fn row(
    alloc: Global,
    root: &[u16],
    subkey: &[u16],
    name: Wide,
    flags: &[u16],
    value: Wide,
) -> Result<Saying, OutOfMemory>
    ensures { IfOk result (λ s. s ≡ row root.now subkey.now name flags.now value) }
{
    if !is_word(root, b"HKR") {
        return Ok(Saying::Nothing);
    }
    if subkey.is_empty() {
        Ok(driver_key_row(name, flags, value))
    } else {
        default_row(alloc, subkey, name.as_slice(), flags, value)
    }
}

/// What a line says of the parameters.
#[tactic(auto, unfolding(crate::specs::Rows::saying))]
pub fn read_row(source: &Source, line: &Line) -> Result<Saying, OutOfMemory>
    ensures { IfOk result (λ s. s ≡ saying (string_in source.now.strings.now) line.now) }
{
    let root = source.strings.value(source.alloc, line, 0)?;
    let subkey = source.strings.value(source.alloc, line, 1)?;
    let name = source.strings.value(source.alloc, line, 2)?;
    let flags = source.strings.value(source.alloc, line, 3)?;
    let value = source.strings.value(source.alloc, line, 4)?;
    row(
        source.alloc,
        root.as_slice(),
        subkey.as_slice(),
        name,
        flags.as_slice(),
        value,
    )
}
