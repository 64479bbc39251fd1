//! The gates of an accepted sheet in order, one at a time.
ghost use Rattle.std.specs.Prelude.{◌≡◌};
ghost use Rattle.std.specs.Iterator.{YieldsFirst, item_count};
ghost use Rattle.sheet.specs.Ahead.{gates_ahead};

use crate::gate::Gate;
use crate::record::record;

// Beside `OutputRecords`, and not one generic walk: a trait that ties each record to its value and to its bytes would be longer than this `next`.
/// The gates that are still to come: the bytes from the next one on, and how many there are.
#[derive(Clone, Copy, PartialEq, Eq, Debug)]
pub struct GateRecords<'a> {
    rest: &'a [u8],
    left: u16,
}

impl<'a> GateRecords<'a> {
    /// So many gates, from the first of these bytes on.
    pub(crate) fn new(rest: &'a [u8], left: u16) -> GateRecords<'a>
        ensures { (result.rest.now ≡ rest.now) × (result.left ≡ left) }
    {
        GateRecords { rest, left }
    }
}

impl<'a> Iterator for GateRecords<'a> {
    type Item = Gate;

    ghost next_gives = { YieldsFirst gates_ahead };

    ghost remaining = { item_count gates_ahead };

    fn next(&mut self) -> Option<Gate> {
        if self.left == 0 {
            return None;
        }
        let (gate, rest) = record(self.rest)?;
        self.rest = rest;
        self.left -= 1;
        Some(gate)
    }
}
