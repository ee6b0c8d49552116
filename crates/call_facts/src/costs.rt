//! What a call costs.

ghost use Rattle.call_facts.specs.Costs.{CostsAreSmall};

/// No call costs more than 2^32 microseconds.
pub fn costs_are_small()
    ensures { CostsAreSmall }
{}
