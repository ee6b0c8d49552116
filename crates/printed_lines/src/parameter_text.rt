//! The lines that show the parameters of a hardware id.

ghost use Rattle.std.specs.Prelude.{◌≡◌, ◌++◌, OnOk, IfOk, string_bytes, codes};
ghost use Rattle.nd_base.specs.Text.{hex_word, hex_unit};
ghost use Rattle.std.specs.List.{flat_map};
ghost use Rattle.printed_lines.specs.ParameterLines.{unit_text, units_text, value_text, parameter_line, parameter_lines};

use inf_file::{Param, ParamValue};
use nd_base::laws::hex_digits_are_padded;
use nd_base::{Bytes, OutOfMemory};
use std::alloc::{AllocError, Global};

/// `\u` and the four digits of a unit.
fn escaped(alloc: Global, unit: u16) -> Result<String, AllocError>
    ensures { IfOk result (λ text. string_bytes text ≡ codes "\\u" ++ hex_unit unit) }
{
    hex_digits_are_padded();
    format!(in alloc; "\\u{unit:04x}")
}

fn push_unit(alloc: Global, text: &mut Bytes, unit: u16) -> Result<(), OutOfMemory>
    ensures { OnOk result (text.new ≡ text.old ++ unit_text unit) }
{
    if unit >= 0x20 && unit <= 0x7E {
        return text.push(unit as u8);
    }
    let escaped = escaped(alloc, unit)?;
    text.extend_from_slice(escaped.as_bytes())
}

fn push_units(alloc: Global, text: &mut Bytes, units: &[u16]) -> Result<(), OutOfMemory>
    ensures { OnOk result (text.new ≡ text.old ++ units_text units.now) }
{
    for unit in units {
        push_unit(alloc, text, *unit)?;
    }
    Ok(())
}

fn number_text(alloc: Global, number: u32) -> Result<String, AllocError>
    ensures { IfOk result (λ text. string_bytes text ≡ codes "dword " ++ hex_word number) }
{
    hex_digits_are_padded();
    format!(in alloc; "dword {number:08x}")
}

fn push_value(alloc: Global, text: &mut Bytes, value: &ParamValue) -> Result<(), OutOfMemory>
    ensures { OnOk result (text.new ≡ text.old ++ value_text value.now) }
{
    match value {
        ParamValue::Text(units) => {
            text.extend_from_slice(b"string ")?;
            push_units(alloc, text, units.as_slice())
        }
        ParamValue::Number(number) => {
            let number = number_text(alloc, *number)?;
            text.extend_from_slice(number.as_bytes())
        }
    }
}

fn push_parameter(alloc: Global, text: &mut Bytes, parameter: &Param) -> Result<(), OutOfMemory>
    ensures { OnOk result (text.new ≡ text.old ++ parameter_line parameter.now) }
{
    text.extend_from_slice(b"param ")?;
    push_units(alloc, text, parameter.name.as_slice())?;
    text.push(b' ')?;
    push_value(alloc, text, &parameter.value)?;
    text.push(b'\n')
}

/// The lines that show parameters, in their order.
#[tactic(auto, unfolding(crate::specs::ParameterLines::parameter_lines))]
pub fn parameter_lines(alloc: Global, parameters: &[Param]) -> Result<Bytes, OutOfMemory>
    ensures { IfOk result (λ text. text ≡ parameter_lines parameters.now) }
{
    let mut text = Bytes::new(alloc);
    for parameter in parameters {
        push_parameter(alloc, &mut text, parameter)?;
    }
    Ok(text)
}
