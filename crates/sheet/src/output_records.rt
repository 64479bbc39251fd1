//! The outputs of an accepted sheet in order, one at a time.
ghost use Rattle.std.specs.Prelude.{◌≡◌};
ghost use Rattle.std.specs.Iterator.{item_count};
ghost use Rattle.sheet.specs.Ahead.{outputs_ahead};
ghost use Rattle.sheet.specs.Sections.{GivesNext};

use crate::output::{OutputRecord, output_record};

/// The outputs that are still to come: the bytes from the next one on, and how many there are.
#[derive(Clone, Copy, PartialEq, Eq, Debug)]
pub struct OutputRecords<'a> {
    rest: &'a [u8],
    left: u16,
}

impl<'a> OutputRecords<'a> {
    /// So many outputs, from the first of these bytes on.
    pub fn new(rest: &'a [u8], left: u16) -> OutputRecords<'a>
        ensures { (result.rest.now ≡ rest.now) × (result.left ≡ left) }
    {
        OutputRecords { rest, left }
    }
}

impl<'a> Iterator for OutputRecords<'a> {
    type Item = OutputRecord<'a>;

    ghost next_gives = { GivesNext };

    ghost remaining = { item_count outputs_ahead };

    fn next(&mut self) -> Option<OutputRecord<'a>> {
        if self.left == 0 {
            return None;
        }
        let (output, rest) = output_record(self.rest)?;
        self.rest = rest;
        self.left -= 1;
        Some(output)
    }
}
