//! A script line by line: a place, a writer over it, and the sheet that was closed last.
use crate::filling::{Measures, fill};
use crate::line::Line;
use crate::listing;
use crate::stage::{Stage, Unwritten};
use sheet::writer::{Closed, Opened};
use sheet::{OutputRecord, Sheet, copy};
use std::alloc::AllocError;
use std::mem;

/// The place of the sheet that is written, its writer, and the bytes of the last sheet.
#[derive(Drop)]
pub struct Desk {
    place: Vec<u8>,
    stage: Stage,
    sheet: Vec<u8>,
}

/// The size of a place unless a line says another: more than the largest sheet takes.
const SIZE: usize = 16384;

impl Desk {
    /// A desk with a place of so many bytes and no sheet.
    fn new(rt: &HostRuntime, size: usize) -> anyhow::Result<Desk> {
        let place = vec![in rt.alloc(); 0u8; size]?;
        let sheet = Vec::new(rt.alloc());
        Ok(Desk {
            place,
            stage: Stage::Opened(Opened),
            sheet,
        })
    }

    fn keep(&mut self, rt: &HostRuntime, sheet: Closed) -> anyhow::Result<()> {
        self.sheet = sheet.bytes(self.place.as_slice()).to_vec(rt.alloc())?;
        Ok(())
    }

    // Takes a step of the writer, which stays as it was where the step is a mistake. The bytes of a closed sheet are kept and printed.
    fn step<F>(&mut self, rt: &HostRuntime, step: F) -> anyhow::Result<()>
    where
        F: FnOnce(Stage, &mut [u8]) -> Result<Stage, Unwritten>,
        requires { F.IsAlwaysCallable step }
    {
        // The writer is moved through the step; until it is back, an opened one stands in its place.
        let stage = mem::replace(&mut self.stage, Stage::Opened(Opened));
        match step(stage, self.place.as_mut_slice()) {
            Ok(Stage::Closed(sheet)) => {
                self.stage = Stage::Closed(sheet);
                self.keep(rt, sheet)?;
                println!(rt; "sheet {}", hex::encode(rt.alloc(), self.sheet.as_slice())?)?;
            }
            Ok(next) => self.stage = next,
            Err(unwritten) => {
                self.stage = unwritten.stage;
                println!(rt; "{}", unwritten.mistake)?;
            }
        }
        Ok(())
    }

    // Writes a sheet of these measures by another writer, keeps its bytes and reads it back.
    fn full(&mut self, rt: &HostRuntime, measures: Measures) -> anyhow::Result<()> {
        self.stage = Stage::Opened(Opened);
        let mut name = vec![in rt.alloc(); b'-'; measures.length as usize]?;
        match fill(self.place.as_mut_slice(), name.as_mut_slice(), measures) {
            Ok(sheet) => {
                self.keep(rt, sheet)?;
                let size = sheet.size();
                println!(rt; "written: {size} bytes")?;
                listing::summary(rt, self.sheet.as_slice())
            }
            Err(refusal) => {
                println!(rt; "refused {refusal}")?;
                Ok(())
            }
        }
    }

    // Writes the sheet anew through another writer.
    fn copy(&mut self, rt: &HostRuntime) -> anyhow::Result<()> {
        self.stage = Stage::Opened(Opened);
        copied(rt, self.sheet.as_slice(), self.place.as_mut_slice())
    }

    fn cuts(&self, rt: &HostRuntime) -> anyhow::Result<()> {
        for size in 0..self.sheet.len() {
            print!(rt; "cut to {size}: ")?;
            listing::summary(rt, &self.sheet[0..size])?;
        }
        Ok(())
    }

    // Reads the sheet with another byte at a place, and leaves it as it was.
    fn set(&mut self, rt: &HostRuntime, place: usize, value: u8) -> anyhow::Result<()> {
        let Some(byte) = self.sheet.get_mut(place) else {
            return Ok(());
        };
        let before = mem::replace(byte, value);
        print!(rt; "byte {place} as {value}: ")?;
        listing::summary(rt, self.sheet.as_slice())?;
        self.sheet[place] = before;
        Ok(())
    }

    // Reads the sheet with a byte more, and leaves it as it was.
    fn extra(&mut self, rt: &HostRuntime, value: u8) -> anyhow::Result<()> {
        self.sheet.push(value)?;
        print!(rt; "one byte more: ")?;
        listing::summary(rt, self.sheet.as_slice())?;
        let _ = self.sheet.pop();
        Ok(())
    }

    fn run(&mut self, rt: &HostRuntime, line: Line) -> anyhow::Result<()> {
        match line {
            Line::Place(size) => {
                *self = Desk::new(rt, size as usize)?;
                Ok(())
            }
            Line::Inputs(count) => self.step(rt, |stage, place| stage.inputs(place, count)),
            Line::Gate(gate) => self.step(rt, |stage, place| stage.gate(place, gate)),
            Line::Output(signal, name) => self.step(rt, |stage, place| {
                stage.output(
                    place,
                    OutputRecord {
                        signal,
                        name: name.as_bytes(),
                    },
                )
            }),
            Line::Close => self.step(rt, |stage, place| stage.close(place)),
            Line::Full(measures) => self.full(rt, measures),
            Line::Read(digits) => read(rt, digits),
            Line::Copy => self.copy(rt),
            Line::Cuts => self.cuts(rt),
            Line::Set(place, value) => self.set(rt, place as usize, value),
            Line::Extra(value) => self.extra(rt, value),
        }
    }
}

fn copied(rt: &HostRuntime, bytes: &[u8], place: &mut [u8]) -> anyhow::Result<()> {
    let Ok(accepted) = Sheet::read(bytes) else {
        println!(rt; "no sheet")?;
        return Ok(());
    };
    match copy(&accepted, place) {
        Ok(closed) => {
            let same = closed.bytes(place) == bytes;
            println!(rt; "copied, the same bytes: {same}")?;
            Ok(())
        }
        Err(refusal) => {
            println!(rt; "refused {refusal}")?;
            Ok(())
        }
    }
}

fn read(rt: &HostRuntime, digits: &str) -> anyhow::Result<()> {
    // Judged first: `decode` makes room for the bytes before it looks at a digit, and a refused line is to want no memory.
    if !is_hexadecimal(digits) {
        println!(rt; "not hexadecimal")?;
        return Ok(());
    }
    match hex::decode(rt.alloc(), digits) {
        Ok(bytes) => listing::list(rt, bytes.as_slice()),
        // The digits are judged, so what is left is want of memory.
        Err(_) => Err(AllocError.into()),
    }
}

// Whether a text is digits alone, two to a byte.
fn is_hexadecimal(text: &str) -> bool {
    text.len() % 2 == 0 && text.bytes().all(|byte| byte.is_ascii_hexdigit())
}

/// Follows the script on standard input.
pub fn follow(rt: &HostRuntime) -> anyhow::Result<()> {
    let mut desk = Desk::new(rt, SIZE)?;
    for text in rt.lines(rt.alloc()) {
        let text = text?;
        println!(rt; "> {text}")?;
        match Line::read(text.as_str()) {
            Ok(Some(line)) => desk.run(rt, line)?,
            Ok(None) => {}
            Err(unknown) => println!(rt; "{unknown}")?,
        }
    }
    Ok(())
}
