//! Laws of IA-32's instructions, above their equations: each is the contract of a function that does
//! nothing. They say of the definitions what a reader of the manual would expect of them.
#![tactic(auto)]

ghost use Rattle.ia32_laws.specs.Numbers.{ShiftLaws, DivideLaws};
ghost use Rattle.ia32_laws.specs.Programs.{StackLaws};
ghost use Rattle.ia32_laws.specs.Copies.{CopyLaws};

use ia32_step::each_step_is_as_spelled;
use nd_mem::{fault_laws, fetch_laws, read_laws, write_laws};

/// Shifts by a count are shifts by 1, and rotates to both sides give a number back.
pub fn shift_laws()
    ensures { ShiftLaws }
{}

/// The equation of DIV.
pub fn divide_laws()
    ensures { DivideLaws }
{}

/// PUSH, and then POP.
pub fn stack_laws()
    ensures { StackLaws }
{
    fault_laws();
    read_laws();
}

/// REP MOVS copies.
pub fn copy_laws()
    ensures { CopyLaws }
{
    each_step_is_as_spelled();
    fault_laws();
    fetch_laws();
    read_laws();
    write_laws();
}
