//! What is wrong with an output that is to be written.
ghost use Rattle.std.specs.Prelude.{◌≡◌, ◌≤◌, length, OnOk};
ghost use Rattle.sheet.specs.Ahead.{outputs_ahead};
ghost use Rattle.sheet.specs.Faults.{found};
ghost use Rattle.sheet.specs.Flaws.{output_flaw};
ghost use Rattle.sheet.specs.Format.{names};
ghost use Rattle.sheet.specs.Names.{output_of};

use crate::fault::Flaw;
use crate::output::OutputRecord;
use crate::output_records::OutputRecords;
use crate::reader::name_fits;

/// Finds what is wrong with an output, after earlier ones.
pub fn check_output(
    output: OutputRecord<'_>,
    signals: u16,
    earlier: OutputRecords,
) -> Result<(), Flaw>
    ensures flaw { found result ≡ output_flaw signals (names (outputs_ahead earlier.entry)) (output_of output.entry) }
    ensures short { OnOk result (length output.entry.name.now ≤ 16) }
{
    if output.signal >= signals {
        return Err(Flaw::Signal);
    }
    if !(1..=16).contains(&output.name.len()) {
        return Err(Flaw::Name);
    }
    if name_fits(output.name, earlier) {
        Ok(())
    } else {
        Err(Flaw::Name)
    }
}
