//! The worked run as a statement on the definitions.
ghost use Rattle.aig.specs.Worked.{Worked};

/// With two inputs, in turn: AND(2, 4) is 6, OR(2, 4) is 9, XOR(2, 4) is 10, OR(3, 5) is 7, AND(2, 3) is 0; net 10 has the
/// value 1 under code 1 and 0 under code 3; MUX(2, 5, 4) is 17.
pub fn worked_run_stands()
    ensures { Worked }
{}
