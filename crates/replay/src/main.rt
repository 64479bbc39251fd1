//! Replays a script of calls on one session: a call a line, from standard input or from a file. Each call is printed with
//! its answer, or with its refusal by number and in words. A line that cannot be read gets a message with its number, and
//! changes nothing.
#![tactic(auto)]

mod command;
mod transcript;

use std::fs::File;
use std::io::{BufRead, BufReader, Read};
use std::{env, io};
use transcript::Replay;

const HELP: &str = "replay: runs a script of calls on one session and prints each answer

  replay < SCRIPT     reads the calls from standard input
  replay SCRIPT       reads them from a file

A script has a call a line; what follows a # is a comment.
  open INPUTS PLACES            opens the session, anew where it was open
  gate KIND A [B [C]]           a gate: KIND by number, 1 to 9, or by name (and, or, nand, nor, xor, xnor, not, buf, mux);
                                operands are nets, and those left out are 0
  value NET CODE [WORDS]        a net's value under an input code (decimal, or hexadecimal after 0x), with so many words of
                                workspace, 4096 where none is written
Net 2v is vertex v, and net 2v + 1 its inverse; vertex 0 is false, and vertex i + 1 is input i.";

fn replay<R: Read + Drop>(rt: HostRuntime, input: R) -> io::Result<()> {
    let mut reader = BufReader::new(rt.alloc(), input)?;
    let mut line = String::new(rt.alloc());
    let mut replay = Replay::new(rt.alloc())?;
    // One string for all lines, and no iterator of lines: that makes a string for each, and while one grows beside the freed one,
    // two long lines took twice the memory.
    for number in 1..u64::MAX {
        line.clear();
        if reader.read_line(&mut line)? == 0 {
            break;
        }
        replay.line(rt, number, line.as_str())?;
    }
    Ok(())
}

fn main(rt: HostRuntime) -> io::Result<()> {
    let mut words = env::args(&rt)?;
    let _ = words.next();
    let Some(first) = words.next() else {
        return replay(rt, rt.stdin());
    };
    if words.next().is_some() {
        return rt.eprintln("replay: at most one script; see replay --help");
    }
    if first.as_str() == "--help" {
        return rt.println(HELP);
    }
    replay(rt, File::open(&rt, first.as_str())?)
}
