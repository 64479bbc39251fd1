//! Piles on examples, and what follows for every pile.
ghost use Rattle.engine.specs.Worked.{Worked};

/// The limits of ladders on examples; and outside a pile is outside its own reach.
pub fn worked_piles_stand()
    ensures { Worked }
{}
