//! The sections in turn, each of whose faults gains its section.
ghost use Rattle.std.specs.Prelude.{◌≡◌, ◌≤◌};
ghost use Rattle.sheet.specs.Format.{gate_section};
ghost use Rattle.sheet.specs.Sections.{Checked};
ghost use Rattle.sheet.specs.View.{Step, counted};

use crate::fault::{FieldFault, Flaw, Section, SheetFault};
use crate::reader::Reader;
use crate::shape::Shape;

impl<'a> Reader<'a> {
    /// The section of gates, where there are so many inputs: how many gates.
    fn gates(&mut self, inputs: u16) -> Result<u16, FieldFault>
        requires { inputs ≤ 64 }
        ensures { Step (λ xs. counted (gate_section inputs xs)) self.old result self.new }
    {
        let count = self.number_within(0, 600, Flaw::Count)?;
        for k in 0..count {
            let _ = self.gate(inputs + 2 + k)?;
        }
        Ok(count)
    }
}

/// Reads a whole sheet: what it has, or its first fault.
pub fn check(sheet: &[u8]) -> Result<Shape, SheetFault>
    ensures { Checked sheet.now result }
{
    let mut reader = Reader { sheet, place: 0 };
    let _ = reader
        .byte_within(1, 1, Flaw::Edition)
        .map_err(|fault| fault.in_section(Section::Whole))?;
    let inputs = reader
        .number_within(1, 64, Flaw::Count)
        .map_err(|fault| fault.in_section(Section::Inputs))?;
    let gates = reader
        .gates(inputs)
        .map_err(|fault| fault.in_section(Section::Gates))?;
    let outputs = reader
        .outputs(inputs + 2 + gates)
        .map_err(|fault| fault.in_section(Section::Outputs))?;
    if reader.place < sheet.len() {
        let fault = FieldFault {
            flaw: Flaw::Extra,
            place: reader.place,
        };
        return Err(fault.in_section(Section::Whole));
    }
    Ok(Shape {
        inputs,
        gates,
        outputs,
    })
}
