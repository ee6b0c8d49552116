//! Laws of the imports: each is the contract of a function that does nothing.

ghost use Rattle.import_table.specs.Laws.{TableLaws, CallLaws};

use log_fields::names::names_are_found;

/// The table's numbers, names, words and levels.
pub fn table_laws()
    ensures { TableLaws }
{
    names_are_found();
}

/// The words of a call, and where it is cut off.
pub fn call_laws()
    ensures { CallLaws }
{}
