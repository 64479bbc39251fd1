//! An accepted sheet written anew, record by record: the same bytes.
ghost use Rattle.std.specs.Prelude.{◌≡◌, ℕ, List, [], length};
ghost use Rattle.sheet.specs.Copying.{Copied, CopiedGates, CopiedOutputs};
ghost use Rattle.sheet.specs.Sections.{said};
ghost use Rattle.sheet.specs.Written.{HoldsGates};

use crate::refusal::Refusal;
use crate::sheet::Sheet;
use crate::writer::{Closed, Gates, Opened, Outputs};

fn copy_gates(sheet: &Sheet, mut writer: Gates, place: &mut [u8]) -> Result<Gates, Refusal>
    ensures { (before : List ℕ) → writer.inputs ≡ (said sheet.now).inputs → HoldsGates before place.old writer [] →
        CopiedGates before (said sheet.now) (length place.old) result place.new }
{
    for gate in sheet.gate_records() {
        writer = writer.gate(place, gate)?;
    }
    Ok(writer)
}

fn copy_outputs(sheet: &Sheet, writer: Gates, place: &mut [u8]) -> Result<Outputs, Refusal>
    ensures { (before : List ℕ) → writer.inputs ≡ (said sheet.now).inputs → HoldsGates before place.old writer (said sheet.now).gates →
        CopiedOutputs before (said sheet.now) (length place.old) result place.new }
{
    let mut records = sheet.output_records();
    let Some(first) = records.next() else {
        unreachable!()
    };
    let mut writer = writer.output(place, first)?;
    for next in records {
        writer = writer.output(place, next)?;
    }
    Ok(writer)
}

/// Writes what an accepted sheet says through the writer: it gives the same bytes, unless the place is too short for them.
pub fn copy(sheet: &Sheet, place: &mut [u8]) -> Result<Closed, Refusal>
    ensures { Copied place.old sheet.now.bytes.now result place.new }
{
    let writer = Opened.inputs(place, sheet.inputs())?;
    let writer = copy_gates(sheet, writer, place)?;
    let writer = copy_outputs(sheet, writer, place)?;
    Ok(writer.close(place)?)
}
