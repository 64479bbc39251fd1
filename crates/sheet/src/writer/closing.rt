//! Closing a sheet, and the closed sheet. A sheet without outputs is not closed.
ghost use Rattle.std.specs.Prelude.{◌≡◌, length, take, Err};
ghost use Rattle.sheet.specs.Closing.{Closing, ReadsBack};
ghost use Rattle.sheet.specs.Refusals.{refused, close_refusal, without_outputs};
ghost use Rattle.sheet.specs.Sections.{Reads};

use crate::fault::{Flaw, SheetFault};
use crate::refusal::{Refusal, Refused, refuse};
use crate::sheet::Sheet;
use crate::writer::{Closed, Gates, Opened, Outputs};

// `close` stands in two states, and not in a trait: every caller would have to import the trait for one line.
impl Opened {
    /// Refuses: the sheet has no outputs.
    pub fn close(self, _place: &[u8]) -> Result<Closed, Refused<Opened>>
        ensures { result ≡ Err (record { writer = self; refusal = without_outputs }) }
    {
        refuse(self, Refusal::Wrong(Flaw::Count))
    }
}

impl Gates {
    /// Refuses: the sheet has no outputs.
    pub fn close(self, _place: &[u8]) -> Result<Closed, Refused<Gates>>
        ensures { result ≡ Err (record { writer = self; refusal = without_outputs }) }
    {
        refuse(self, Refusal::Wrong(Flaw::Count))
    }
}

impl Outputs {
    /// Closes the sheet: no record comes after this.
    pub fn close(self, place: &[u8]) -> Result<Closed, Refused<Outputs>>
        ensures state { Closing place.now self result }
        ensures refusal { refused result ≡ close_refusal (length place.now) self }
    {
        if place.len() < self.end {
            return refuse(self, Refusal::Full);
        }
        let Outputs {
            inputs: _,
            gates: _,
            outputs: _,
            end,
        } = self;
        Ok(Closed { size: end })
    }
}

impl Closed {
    /// How many bytes the sheet has.
    pub fn size(self) -> usize
        ensures { result ≡ self.size }
    {
        self.size
    }

    /// The bytes of the sheet, at the front of its place.
    pub fn bytes(self, place: &[u8]) -> &[u8]
        ensures { result.now ≡ take self.size place.now }
    {
        place.get(..self.size).unwrap_or(place)
    }

    /// Reads the sheet back: it says what the writer was given. Of any other place, reads its front.
    pub fn read_back(self, place: &[u8]) -> Result<Sheet<'_>, SheetFault>
        ensures back { ReadsBack place.now self result }
        ensures reads { Reads (take self.size place.now) result }
    {
        Sheet::read(self.bytes(place))
    }
}
