//! The fields of a sheet: a byte, a number, some bytes, and the tests that they have to pass.
ghost use Rattle.std.specs.Prelude.{◌≡◌};
ghost use Rattle.std.specs.Fn.{FnOnceReturnsAt, FnOnceReturnsAtMut};
ghost use Rattle.sheet.specs.Reading.{byte as a_byte, number as a_number, bytes as some_bytes, judged};
ghost use Rattle.gates.specs.Kinds.{between};
ghost use Rattle.sheet.specs.Format.{operand as an_operand};
ghost use Rattle.sheet.specs.View.{Step, PartStep, Judged};

use crate::fault::{FieldFault, Flaw};
use crate::reader::Reader;
use crate::record::{operand_fits, operand_flaw};

impl<'a> Reader<'a> {
    /// So many bytes.
    // By the place and not by the bytes that are left: faults and contracts count from the sheet's first byte.
    pub fn part(&mut self, count: usize) -> Result<&'a [u8], FieldFault>
        ensures { PartStep (some_bytes count) self.old result self.new }
    {
        if self.sheet.len() - self.place < count {
            return Err(FieldFault {
                flaw: Flaw::Short,
                place: self.sheet.len(),
            });
        }
        let sheet = self.sheet;
        let part = &sheet[self.place..self.place + count];
        self.place += count;
        Ok(part)
    }

    /// One byte.
    pub fn byte(&mut self) -> Result<u8, FieldFault>
        ensures { Step a_byte self.old result self.new }
    {
        let bytes = self.part(1)?;
        Ok(bytes[0])
    }

    /// A number of two bytes.
    pub fn number(&mut self) -> Result<u16, FieldFault>
        ensures { Step a_number self.old result self.new }
    {
        let bytes = self.part(2)?;
        Ok(u16::from_be_bytes([bytes[0], bytes[1]]))
    }

    /// What a field gives, if it passes a test; else the flaw, at the place where the field starts.
    fn judged<T, F, P>(&mut self, field: F, fits: P, flaw: Flaw) -> Result<T, FieldFault>
    where
        T: Drop,
        F: FnOnce(&mut Reader<'a>) -> Result<T, FieldFault>,
        P: FnOnce(&T) -> bool,
        requires field { F.IsAlwaysCallable field }
        requires fits { P.IsAlwaysCallable fits }
        ensures { Judged (λ r after. FnOnceReturnsAtMut F.FnOnce field self.old r after) (λ x b. FnOnceReturnsAt P.FnOnce fits x b) flaw self.old.place result self.new }
    {
        let place = self.place;
        let value = field(self)?;
        if fits(&value) {
            Ok(value)
        } else {
            Err(FieldFault { flaw, place })
        }
    }

    // One function over a trait of fields would be longer than these two lines: its law would have to tie an order to each field's reading.
    /// One byte, which has to be in a range.
    pub fn byte_within(&mut self, low: u8, high: u8, flaw: Flaw) -> Result<u8, FieldFault>
        ensures { Step (judged a_byte (between low high) flaw) self.old result self.new }
    {
        self.judged(Reader::byte, |byte| (low..=high).contains(byte), flaw)
    }

    /// A number, which has to be in a range.
    pub fn number_within(&mut self, low: u16, high: u16, flaw: Flaw) -> Result<u16, FieldFault>
        ensures { Step (judged a_number (between low high) flaw) self.old result self.new }
    {
        self.judged(Reader::number, |number| (low..=high).contains(number), flaw)
    }

    /// An operand of the gate whose signal is `own`, or 0 where the gate does not read it.
    pub fn operand(&mut self, read: bool, own: u16) -> Result<u16, FieldFault>
        ensures { Step (an_operand read own) self.old result self.new }
    {
        self.judged(
            Reader::number,
            |operand| operand_fits(read, own, *operand),
            operand_flaw(read),
        )
    }
}
