//! The worked lists of codes as a statement on the definitions.
ghost use Rattle.simulation.specs.Worked.{Worked};

/// With two inputs, XOR and AND first differ at code 1 of the codes 0 to 3, at code 3 of the codes 0 and 3, and not at
/// code 0; XOR and input 0 first differ at code 2 of the codes 0 to 3.
pub fn worked_lists_stand()
    ensures { Worked }
{}
