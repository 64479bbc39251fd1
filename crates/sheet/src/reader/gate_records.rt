//! Gate records: whole ones by a slice pattern, what is left of a short one field by field.
ghost use Rattle.std.specs.Prelude.{◌≡◌};
ghost use Rattle.sheet.specs.Format.{gate as a_gate};
ghost use Rattle.sheet.specs.View.{Step};

use crate::fault::{FieldFault, Flaw};
use crate::gate::Gate;
use crate::reader::Reader;
use crate::record::{check_gate, record};
use gates::{reads_b, reads_c};

impl<'a> Reader<'a> {
    /// A gate record, field by field.
    pub fn gate_by_fields(&mut self, own: u16) -> Result<Gate, FieldFault>
        ensures { Step (a_gate own) self.old result self.new }
    {
        // The kind stays a number, as in the record that it goes to.
        let kind = self.byte_within(1, 9, Flaw::Kind)?;
        let a = self.operand(true, own)?;
        let b = self.operand(reads_b(kind), own)?;
        let c = self.operand(reads_c(kind), own)?;
        Ok(Gate { kind, a, b, c })
    }

    /// A gate record, whose own signal is `own`.
    pub fn gate(&mut self, own: u16) -> Result<Gate, FieldFault>
        ensures { Step (a_gate own) self.old result self.new }
    {
        let sheet = self.sheet;
        let Some((gate, rest)) = record(&sheet[self.place..]) else {
            return self.gate_by_fields(own);
        };
        check_gate(gate, own, self.place)?;
        self.place = sheet.len() - rest.len();
        Ok(gate)
    }
}
