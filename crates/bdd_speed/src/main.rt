//! How fast a large diagram is built: x1 x(n+1) + x2 x(n+2) + .., a sum whose variables come in a bad order.
//!
//! It prints node counts, and with an argument the time that each run took, in microseconds.
#![tactic(auto)]

ghost use Rattle.std.specs.Prelude.{◌+◌, ◌<◌, ◌≤◌, IfSome};
ghost use Rattle.bdd.specs.Diagram.{Within};
ghost use Rattle.bdd.specs.Contents.{nodes_of};

use bdd::{Edge, FALSE, Table, inverse};
use std::time::Instant;
use std::{env, io};

// Joins x(i) x(i+n) to the sum.
fn join(t: &mut Table, sum: Edge, i: u16, n: u16) -> Option<Edge>
    requires within { Within (nodes_of t.old) sum }
    requires small { i + n < 4096 }
    ensures { IfSome result (λ e. Within (nodes_of t.new) e) }
{
    let a = t.variable(i)?;
    let b = t.variable(i + n)?;
    let both = t.and(a, b)?;
    let neither = t.and(inverse(sum), inverse(both))?;
    Some(inverse(neither))
}

// The sum of n products; none where the table is too small.
fn pairs(t: &mut Table, n: u16) -> Option<Edge>
    requires small { n < 2048 }
    ensures { IfSome result (λ e. Within (nodes_of t.new) e) }
{
    let mut sum = FALSE;
    for i in 1..=n {
        sum = join(t, sum, i, n)?;
    }
    Some(sum)
}

fn run(rt: &HostRuntime, n: u16, room: usize, timed: bool) -> io::Result<()>
    requires small { n < 2048 }
    requires some { 0 < room }
    requires room { room ≤ 16384 }
{
    let mut t = Table::new(rt.alloc(), room)?;
    let start = Instant::now(rt)?;
    let built = pairs(&mut t, n);
    let took = start.elapsed(rt)?.as_micros();
    let held = t.len();
    match built {
        Some(e) => {
            let size = t.size(e);
            println!(rt; "{n} products in {room} nodes: size {size}, {held} nodes held")?;
        }
        None => println!(rt; "{n} products in {room} nodes: no room, {held} nodes held")?,
    }
    if timed {
        println!(rt; "{took} microseconds")?;
    }
    Ok(())
}

fn main(rt: HostRuntime) -> io::Result<()> {
    let timed = env::args(&rt)?.count() > 1;
    run(&rt, 3, 16384, timed)?;
    run(&rt, 12, 16384, timed)?;
    run(&rt, 13, 16384, timed)?;
    run(&rt, 11, 4096, timed)
}
