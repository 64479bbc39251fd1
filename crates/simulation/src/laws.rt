//! What the definition of the earliest code says, for lists of any length and any two functions.
ghost use Rattle.simulation.specs.Earliest.{EarliestLaw};

/// The earliest code of a list separates the two functions and no code before it does; where there is none, no code of the
/// list separates them.
pub fn earliest_law_stands()
    ensures { EarliestLaw }
{}
