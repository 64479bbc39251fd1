//! The session that a script runs on, and what is printed of each line.
use crate::command::{Command, MOST_WORDS};
use aig::Net;
use comparer::{Refusal, Session};
use std::alloc::{AllocError, Global};
use std::{fmt, io};

/// What a call that is not refused gives.
#[derive(Clone, Copy, Debug)]
enum Outcome {
    Opened,
    Net(Net),
    Bit(bool),
}

impl fmt::Display for Outcome {
    fn fmt<W: fmt::Write>(&self, f: &mut fmt::Formatter<W>) -> fmt::Result {
        match *self {
            Outcome::Opened => write!(f, "opened"),
            Outcome::Net(net) => write!(f, "net {net}"),
            Outcome::Bit(bit) => write!(f, "{}", u8::from(bit)),
        }
    }
}

/// A session under replay, with its workspace.
#[derive(Drop)]
pub struct Replay {
    session: Session,
    words: Vec<u64>,
}

impl Replay {
    /// A replay on a session that is not opened.
    pub fn new(heap: Global) -> Result<Replay, AllocError> {
        let words = vec![in heap; 0u64; MOST_WORDS]?;
        Ok(Replay {
            session: Session::new(heap),
            words,
        })
    }

    /// Runs one line of the script and prints it with its answer, and then its comment.
    pub fn line(&mut self, rt: HostRuntime, number: u64, text: &str) -> io::Result<()> {
        let text = text.trim_end();
        let Some((call, comment)) = text.split_once('#') else {
            self.call(rt, number, text)?;
            return println!(rt);
        };
        let call = call.trim_end();
        if call.is_empty() {
            return println!(rt; "{text}");
        }
        self.call(rt, number, call)?;
        println!(rt; "  #{comment}")
    }

    /// Runs the call of a line and prints it with its answer; a line without a call is left out.
    fn call(&mut self, rt: HostRuntime, number: u64, call: &str) -> io::Result<()> {
        if call.is_empty() {
            return Ok(());
        }
        match call.parse::<Command>() {
            Ok(command) => {
                print!(rt; "{call} -> ")?;
                self.answer(rt, command)
            }
            Err(why) => print!(rt; "line {number} cannot be read: {call}: {why}"),
        }
    }

    /// Makes a call and prints what it gives.
    fn answer(&mut self, rt: HostRuntime, command: Command) -> io::Result<()> {
        match self.make(rt.alloc(), command) {
            Ok(outcome) => print!(rt; "{outcome}"),
            Err(why) => print!(rt; "refused {why}"),
        }
    }

    /// Makes a call.
    fn make(&mut self, heap: Global, command: Command) -> Result<Outcome, Refusal> {
        match command {
            Command::Open { inputs, places } => {
                self.session.open(heap, inputs, places)?;
                Ok(Outcome::Opened)
            }
            Command::Gate { kind, a, b, c } => Ok(Outcome::Net(self.session.gate(kind, a, b, c)?)),
            Command::Value { net, code, words } => {
                let lent = words.min(self.words.len());
                let bit = self.session.value(net, code, &mut self.words[..lent])?;
                Ok(Outcome::Bit(bit))
            }
        }
    }
}
