//! What mnemonics stand for.

ghost use Rattle.std.specs.Prelude.{◌≡◌};
ghost use Rattle.asm_lines.specs.Mnemonics.{mnemonic_in, mnemonic_of};

use crate::mnemonic_table::{MNEMONICS, MnemonicName};
use crate::table_name::is_named;
use ia32_decode::Op;

/// What a mnemonic stands for.
#[derive(Clone, Copy)]
pub enum Mnemonic {
    /// An operation without operands, on so many bytes.
    Alone(Op, u8),
    /// An operation on operands of one width, or on values.
    On(Op),
    /// A shift or rotation: of an operand, by a value or CL.
    Shift(Op),
    /// A shift of two operands: by CL, or by a value.
    DoubleShift(Op, Op),
    /// IMUL of one, two or three operands.
    Multiply,
    /// A move that widens: from a byte, or from two bytes.
    Extend(Op, Op),
    /// A jump or call: to an address, or to what an operand holds.
    To(Op),
}

#[tactic(auto, unfolding(crate::specs::Mnemonics::mnemonic_in))]
fn mnemonic_in(rows: &[MnemonicName], name: &[u8]) -> Option<Mnemonic>
    ensures { result ≡ mnemonic_in rows.now name.now }
{
    let mut rest = rows;
    while let Some((row, behind)) = rest.split_first() {
        if is_named(&row.name, name) {
            return Some(row.mnemonic);
        }
        rest = behind;
    }
    None
}

/// The mnemonic of a name.
#[tactic(auto, unfolding(crate::specs::Mnemonics::mnemonic_of))]
pub fn mnemonic_of(name: &[u8]) -> Option<Mnemonic>
    ensures { result ≡ mnemonic_of name.now }
{
    mnemonic_in(&MNEMONICS, name)
}
