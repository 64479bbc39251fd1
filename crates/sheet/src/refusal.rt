//! Why a writer's call is refused, and the writer that a refused call hands back.
ghost use Rattle.std.specs.Prelude.{◌≡◌, Err};
ghost use Rattle.sheet.specs.Numbers.{refusal_number};
ghost use Rattle.sheet.specs.declared.refusal.Refusal.TheVariants.{Wrong};

use crate::fault::{FieldFault, Flaw};
use std::error::Error;
use std::fmt;

/// Why a writer refuses: the count or the record is wrong, or the place is too short for it.
#[derive(Clone, Copy, PartialEq, Eq, Debug)]
pub enum Refusal {
    Wrong(Flaw),
    Full,
}

impl Refusal {
    /// The number by which the refusal is known.
    pub fn number(self) -> u8
        ensures { result ≡ refusal_number self }
    {
        // Not by `as`: a variant that holds a flaw has that flaw's number.
        match self {
            Refusal::Wrong(flaw) => flaw.number(),
            Refusal::Full => 26,
        }
    }
}

impl From<Flaw> for Refusal {
    ghost from_gives = { λ flaw refusal. refusal ≡ Wrong flaw };

    fn from(flaw: Flaw) -> Refusal {
        Refusal::Wrong(flaw)
    }
}

impl From<FieldFault> for Refusal {
    ghost from_gives = { λ fault refusal. refusal ≡ Wrong fault.flaw };

    fn from(fault: FieldFault) -> Refusal {
        Refusal::Wrong(fault.flaw)
    }
}

impl fmt::Display for Refusal {
    fn fmt<W: fmt::Write>(&self, f: &mut fmt::Formatter<W>) -> fmt::Result {
        let number = self.number();
        match self {
            Refusal::Wrong(flaw) => write!(f, "{number}: {flaw}"),
            Refusal::Full => write!(f, "{number}: place too short"),
        }
    }
}

impl Error for Refusal {}

/// A refused call: the writer as it was, and why.
#[derive(Drop, PartialEq, Eq, Debug)]
pub struct Refused<W> {
    pub writer: W,
    pub refusal: Refusal,
}

impl<W> fmt::Display for Refused<W> {
    fn fmt<F: fmt::Write>(&self, f: &mut fmt::Formatter<F>) -> fmt::Result {
        let refusal = self.refusal;
        write!(f, "{refusal}")
    }
}

impl<W: fmt::Debug + Drop> Error for Refused<W> {}

/// Refuses a call of a writer, and hands the writer back.
pub fn refuse<T, W>(writer: W, refusal: Refusal) -> Result<T, Refused<W>>
    ensures { result ≡ Err (record { writer = writer; refusal = refusal }) }
{
    Err(Refused { writer, refusal })
}

impl<W: Drop> From<Refused<W>> for Refusal {
    ghost from_gives = { λ refused refusal. refusal ≡ refused.refusal };

    fn from(back: Refused<W>) -> Refusal {
        back.refusal
    }
}

#[cfg(test)]
mod tests {
    use super::*;
    use crate::fault::{Section, SheetFault};
    use crate::gate::Gate;
    use crate::output::OutputRecord;
    use crate::writer::{Gates, Opened};
    use std::test::Fail;

    #[test]
    fn prints_in_words(rt: HostRuntime) -> Result<(), Fail> {
        let fault = SheetFault {
            flaw: Flaw::Signal,
            section: Section::Gates,
            place: 6,
        };
        let text = format!(in rt.alloc(); "{fault}")?;
        assert_eq!(rt;
            text.as_str(),
            "7 section 2 place 6: no such signal, or not below its gate"
        );
        let wrong = Refusal::Wrong(Flaw::Kind);
        let text = format!(in rt.alloc(); "{wrong}")?;
        assert_eq!(rt; text.as_str(), "3: gate kind not 1 to 9");
        let full = Refusal::Full;
        let text = format!(in rt.alloc(); "{full}")?;
        assert_eq!(rt; text.as_str(), "26: place too short");
        Ok(())
    }

    fn opened(place: &mut [u8]) -> Result<Gates, Refusal> {
        Ok(Opened.inputs(place, 2)?)
    }

    #[test]
    fn hands_the_writer_back(rt: HostRuntime) -> Result<(), Fail> {
        let mut place = [0u8; 64];
        let writer = opened(&mut place).ok().ok_or("no writer")?;
        let wrong = Gate {
            kind: 10,
            a: 2,
            b: 3,
            c: 0,
        };
        let Err(Refused { writer, refusal }) = writer.gate(&mut place, wrong) else {
            return Err(Fail::from("not refused"));
        };
        assert_eq!(rt; refusal, Refusal::Wrong(Flaw::Kind));
        let q = OutputRecord {
            signal: 2,
            name: b"q",
        };
        let closed = writer
            .output(&mut place, q)
            .ok()
            .ok_or("no output")?
            .close(&place)
            .ok()
            .ok_or("not closed")?;
        assert_eq!(rt;
            closed.bytes(&place),
            [1, 0, 2, 0, 0, 0, 1, 0, 2, 1, 113].as_slice()
        );
        Ok(())
    }
}
