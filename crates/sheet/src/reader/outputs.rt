//! The section of outputs, read field by field, each name against the earlier ones.
ghost use Rattle.std.specs.Prelude.{◌≡◌};
ghost use Rattle.sheet.specs.Ahead.{outputs_ahead};
ghost use Rattle.sheet.specs.Reading.{bytes as some_bytes, judged};
ghost use Rattle.sheet.specs.Format.{visible as all_visible, used, names, name_fits as fits, output as an_output, output_section};
ghost use Rattle.sheet.specs.Names.{output_of};
ghost use Rattle.sheet.specs.View.{Step, StepBy, PartStep, counted};
ghost use Rattle.sheet.specs.declared.fault.Flaw.TheVariants.{Name as name_flaw};

use crate::fault::{FieldFault, Flaw};
use crate::output::{OutputRecord, bytes_from};
use crate::output_records::OutputRecords;
use crate::reader::Reader;

/// Whether every byte of a name is visible.
fn visible(name: &[u8]) -> bool
    ensures { result ≡ all_visible name.now }
{
    name.iter().all(|byte| byte.is_ascii_graphic())
}

/// Whether one of some outputs has this name.
fn has_name(mut outputs: OutputRecords, name: &[u8]) -> bool
    ensures { result ≡ used name.now (names (outputs_ahead outputs.entry)) }
{
    outputs.any(|other| other.name == name)
}

/// Whether a name is visible and no earlier output has it.
pub fn name_fits(name: &[u8], earlier: OutputRecords) -> bool
    ensures { result ≡ fits (names (outputs_ahead earlier.entry)) name.now }
{
    visible(name) && !has_name(earlier, name)
}

impl<'a> Reader<'a> {
    /// A name of so many bytes, which no earlier output has.
    fn name(&mut self, size: u8, earlier: OutputRecords<'a>) -> Result<&'a [u8], FieldFault>
        ensures { PartStep (judged (some_bytes size) (fits (names (outputs_ahead earlier.entry))) name_flaw) self.old result self.new }
    {
        // Not by `judged`: its closure would give a part of the sheet, and such a closure got no proof.
        let place = self.place;
        let name = self.part(size as usize)?;
        if name_fits(name, earlier) {
            Ok(name)
        } else {
            Err(FieldFault {
                flaw: Flaw::Name,
                place,
            })
        }
    }

    /// An output record, after the earlier ones.
    fn output(
        &mut self,
        signals: u16,
        earlier: OutputRecords<'a>,
    ) -> Result<OutputRecord<'a>, FieldFault>
        ensures { StepBy output_of (an_output signals (names (outputs_ahead earlier.entry))) self.old result self.new }
    {
        let signal = self.operand(true, signals)?;
        let size = self.byte_within(1, 16, Flaw::Name)?;
        let name = self.name(size, earlier)?;
        Ok(OutputRecord { signal, name })
    }

    /// The section of outputs, where there are so many signals: how many outputs.
    pub fn outputs(&mut self, signals: u16) -> Result<u16, FieldFault>
        ensures { Step (λ xs. counted (output_section signals xs)) self.old result self.new }
    {
        let count = self.number_within(1, 256, Flaw::Count)?;
        let records = bytes_from(self.sheet, self.place);
        for k in 0..count {
            let _ = self.output(signals, OutputRecords::new(records, k))?;
        }
        Ok(count)
    }
}
