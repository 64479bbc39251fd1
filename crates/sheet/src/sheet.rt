//! An accepted sheet: the caller's bytes, which say what `decode` of them says, and their parts.
ghost use Rattle.std.specs.Prelude.{◌≡◌, length};
ghost use Rattle.sheet.specs.Format.{encode};
ghost use Rattle.sheet.specs.Laws.{Lawful};
ghost use Rattle.sheet.specs.Said.{said_by, Lawful-prop};

use crate::fault::SheetFault;
use crate::gate::Gate;
use crate::gate_records::GateRecords;
use crate::output::{OutputRecord, bytes_from};
use crate::output_records::OutputRecords;
use crate::reader::check;
use crate::record::record;
use crate::shape::Shape;

/// A sheet without fault: its bytes are those of a lawful content, and its shape counts what they say.
#[derive(Clone, Copy, PartialEq, Eq, Debug)]
pub struct Sheet<'a> {
    bytes: &'a [u8],
    shape: Shape,
    ghost lawful: { Lawful (said_by bytes.now) } by { Lawful-prop (said_by bytes.now) },
    ghost again: { encode (said_by bytes.now) ≡ bytes.now },
    ghost inputs: { shape.inputs ≡ (said_by bytes.now).inputs },
    ghost gates: { shape.gates ≡ length (said_by bytes.now).gates },
    ghost outputs: { shape.outputs ≡ length (said_by bytes.now).outputs },
}

impl<'a> Sheet<'a> {
    ghost use Rattle.sheet.specs.Ahead.{gates_ahead, outputs_ahead};
    ghost use Rattle.sheet.specs.Sections.{Reads, Ahead, said, item, output_in};

    /// Reads a whole sheet, or gives its first fault.
    pub fn read(bytes: &'a [u8]) -> Result<Sheet<'a>, SheetFault>
        ensures { Reads bytes.now result }
    {
        let shape = check(bytes)?;
        Ok(Sheet { bytes, shape })
    }

    /// The bytes of the sheet.
    pub fn bytes(&self) -> &'a [u8]
        ensures { result.now ≡ self.now.bytes.now }
    {
        self.bytes
    }

    /// How many inputs there are.
    pub fn inputs(&self) -> u16
        ensures { result ≡ (said self.now).inputs }
    {
        self.shape.inputs
    }

    /// How many gates there are.
    pub fn gates(&self) -> u16
        ensures { result ≡ length (said self.now).gates }
    {
        self.shape.gates
    }

    /// How many outputs there are.
    pub fn outputs(&self) -> u16
        ensures { result ≡ length (said self.now).outputs }
    {
        self.shape.outputs
    }

    /// The gates in order.
    pub fn gate_records(&self) -> GateRecords<'a>
        ensures { gates_ahead result ≡ (said self.now).gates }
    {
        GateRecords::new(bytes_from(self.bytes, 5), self.shape.gates)
    }

    /// The gate `k`, counted from 0, if there is one.
    pub fn gate(&self, k: u16) -> Option<Gate>
        ensures { result ≡ item (said self.now).gates k }
    {
        if k >= self.shape.gates {
            return None;
        }
        record(bytes_from(self.bytes, 5 + 7 * k as usize)).map(|(gate, _)| gate)
    }

    /// The outputs in order, each with its name as a part of the sheet.
    pub fn output_records(&self) -> OutputRecords<'a>
        ensures bytes { Ahead result (said self.now).outputs }
        ensures items { outputs_ahead result ≡ (said self.now).outputs }
    {
        OutputRecords::new(
            bytes_from(self.bytes, 7 + 7 * self.shape.gates as usize),
            self.shape.outputs,
        )
    }

    /// The output `k`, counted from 0, if there is one. For all of them in turn take `output_records`.
    pub fn output(&self, k: u16) -> Option<OutputRecord<'a>>
        ensures { output_in result ≡ item (said self.now).outputs k }
    {
        self.output_records().nth(k as usize)
    }
}
