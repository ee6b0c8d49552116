//! General registers by their names (Intel SDM volume 2, table 2-2).

ghost use Rattle.std.specs.Prelude.{◌≡◌};
ghost use Rattle.asm_lines.specs.Registers.{register_in, register_of};

use crate::table_name::is_named;

/// A register: how many bytes it has, and its number in a ModRM byte.
#[derive(Clone, Copy)]
pub struct Register {
    pub width: u8,
    pub number: u8,
}

/// A register and its name.
#[derive(Clone, Copy)]
pub struct RegisterName {
    pub name: [u8; 8],
    pub register: Register,
}

macro_rules! register {
    ($name:literal $width:literal $number:literal) => {
        RegisterName {
            name: *$name,
            register: Register {
                width: $width,
                number: $number,
            },
        }
    };
}

/// The general registers.
pub static REGISTERS: [RegisterName; 24] = [
    register!(b"al      " 1 0),
    register!(b"cl      " 1 1),
    register!(b"dl      " 1 2),
    register!(b"bl      " 1 3),
    register!(b"ah      " 1 4),
    register!(b"ch      " 1 5),
    register!(b"dh      " 1 6),
    register!(b"bh      " 1 7),
    register!(b"ax      " 2 0),
    register!(b"cx      " 2 1),
    register!(b"dx      " 2 2),
    register!(b"bx      " 2 3),
    register!(b"sp      " 2 4),
    register!(b"bp      " 2 5),
    register!(b"si      " 2 6),
    register!(b"di      " 2 7),
    register!(b"eax     " 4 0),
    register!(b"ecx     " 4 1),
    register!(b"edx     " 4 2),
    register!(b"ebx     " 4 3),
    register!(b"esp     " 4 4),
    register!(b"ebp     " 4 5),
    register!(b"esi     " 4 6),
    register!(b"edi     " 4 7),
];

#[tactic(auto, unfolding(crate::specs::Registers::register_in))]
fn register_in(rows: &[RegisterName], name: &[u8]) -> Option<Register>
    ensures { result ≡ register_in rows.now name.now }
{
    let mut rest = rows;
    while let Some((row, behind)) = rest.split_first() {
        if is_named(&row.name, name) {
            return Some(row.register);
        }
        rest = behind;
    }
    None
}

/// The register of a name.
#[tactic(auto, unfolding(crate::specs::Registers::register_of))]
pub fn register_of(name: &[u8]) -> Option<Register>
    ensures { result ≡ register_of name.now }
{
    register_in(&REGISTERS, name)
}
