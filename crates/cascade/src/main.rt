//! Merging at work: the worked merge, and a chain of merges over a full table. Run with the word `time`, it also prints how
//! long the full table took to build and to merge.
#![tactic(auto)]

ghost use Rattle.std.specs.Prelude.{◌≡◌, ℕ, ◌≤◌, T, length};
ghost use Rattle.aig.specs.Values.{value};
ghost use Rattle.aig.specs.Table.{survivor_of};
ghost use Rattle.aig.specs.Graphs.{inputs_of, vertices, used, InUse};

use aig::{Graph, Net};
use gates::Kind;
use std::alloc::Global;
use std::time::Instant;
use std::{env, io};

/// The most inputs of a graph whose nets are compared by trying each code.
const MOST_INPUTS: usize = 16;
/// The most vertices that a graph has places for.
const MOST_VERTICES: usize = 4096;
/// The inputs of the full table.
const FULL_INPUTS: usize = 8;

/// Whether two nets agree under every input code, found by trying each.
fn agree(graph: &Graph, x: Net, y: Net, words: &mut [u64]) -> bool
    requires narrow { inputs_of graph.now ≤ MOST_INPUTS }
    requires first { InUse graph.now x }
    requires second { InUse graph.now y }
    requires enough { used graph.now ≤ length words.old }
    ensures { T result → (code : ℕ) → value (inputs_of graph.now) (vertices graph.now) x.0 code ≡ value (inputs_of graph.now) (vertices graph.now) y.0 code }
{
    (0..1u64 << graph.inputs()).all(|code| {
        graph.value(x, code, words) == graph.value(y, code, words)
    })
}

/// Merges two nets of a graph with at most `MOST_INPUTS` inputs if they agree under every input code.
fn merge_if_equal(graph: &mut Graph, x: Net, y: Net, words: &mut [u64]) -> bool
    ensures { T result → survivor_of (vertices graph.new) x.0 ≡ survivor_of (vertices graph.new) y.0 }
{
    let used = graph.used();
    if graph.inputs() > MOST_INPUTS
        || x.vertex() >= used
        || y.vertex() >= used
        || words.len() < used
    {
        return false;
    }
    let equal = agree(graph, x, y, words);
    if equal {
        graph.join(x, y);
    }
    equal
}

/// A gate, or none where an operand is not in use or fewer than three vertices are left.
fn gate(graph: &mut Graph, kind: Kind, a: Net, b: Net, c: Net) -> Option<Net> {
    let used = graph.used();
    if a.vertex() >= used || b.vertex() >= used || c.vertex() >= used || used + 3 > graph.places() {
        return None;
    }
    Some(graph.gate(kind, a, b, c))
}

/// Two forms of the XOR of the first two inputs.
fn two_forms(graph: &mut Graph) -> Option<(Net, Net)> {
    let (a, b) = (Net::of(1), Net::of(2));
    let xor = gate(graph, Kind::Xor, a, b, Net::FALSE)?;
    let mux = gate(graph, Kind::Mux, a, b.inverse(), b)?;
    Some((xor, mux))
}

/// Two forms of XOR, and above each the same chain of NANDs, as long as the table allows. Answers the two forms.
fn two_chains(graph: &mut Graph) -> Option<(Net, Net)> {
    let (first, second) = two_forms(graph)?;
    let mut tops = [first, second];
    for step in 0..MOST_VERTICES {
        let input = Net::of(1 + step % FULL_INPUTS);
        for top in tops.iter_mut() {
            let Some(next) = gate(graph, Kind::Nand, *top, input, Net::FALSE) else {
                return Some((first, second));
            };
            *top = next;
        }
    }
    Some((first, second))
}

/// How many vertices stand.
fn standing(graph: &Graph) -> usize {
    (0..graph.used().min(MOST_VERTICES))
        .filter(|&v| graph.vertex(v).stands(v))
        .count()
}

/// The worked merge: the two forms of XOR, whether they were merged, and the survivor of net 16.
#[derive(Clone, Copy)]
struct WorkedMerge {
    xor: Net,
    mux: Net,
    merged: bool,
    survivor: Net,
}

fn worked_merge(graph: &mut Graph, words: &mut [u64]) -> Option<WorkedMerge> {
    let (a, b) = (Net::of(1), Net::of(2));
    gate(graph, Kind::And, a, b, Net::FALSE)?;
    gate(graph, Kind::Or, a, b, Net::FALSE)?;
    let (xor, mux) = two_forms(graph)?;
    let merged = merge_if_equal(graph, xor, mux, words);
    let net = Net::of(8);
    if net.vertex() >= graph.used() {
        return None;
    }
    let survivor = graph.survivor(net);
    Some(WorkedMerge {
        xor,
        mux,
        merged,
        survivor,
    })
}

/// With two inputs, the two forms of XOR are nets 10 and 17; once merged, net 16 has survivor 11.
fn worked(rt: HostRuntime, words: &mut [u64]) -> io::Result<()> {
    let mut graph = Graph::new(rt.alloc(), 2, MOST_VERTICES)?;
    let Some(worked) = worked_merge(&mut graph, words) else {
        return println!(rt; "the worked run made too few vertices");
    };
    println!(rt;
        "nets {} and {}: merged {}, net 16 has survivor {}",
        worked.xor, worked.mux, worked.merged, worked.survivor
    )
}

/// A full table, and the cascade that one merge sets off in it.
fn full(rt: HostRuntime, words: &mut [u64], timed: bool) -> io::Result<()> {
    let mut graph = Graph::new(rt.alloc(), FULL_INPUTS, MOST_VERTICES)?;
    let start = Instant::now(&rt)?;
    let Some((first, second)) = two_chains(&mut graph) else {
        return println!(rt; "the full table made too few vertices");
    };
    let built = start.elapsed(&rt)?.as_micros();
    let before = standing(&graph);
    println!(rt; "vertices {} standing {before}", graph.used())?;
    let agreed = Instant::now(&rt)?;
    let merged = merge_if_equal(&mut graph, first, second, words);
    let took = agreed.elapsed(&rt)?.as_micros();
    println!(rt; "merged {merged} standing {}", standing(&graph))?;
    if timed {
        println!(rt; "built in {built} us; checked under 256 codes and merged in {took} us")?;
    }
    Ok(())
}

fn main(rt: HostRuntime) -> io::Result<()> {
    let timed = env::args(&rt)?.nth(1).is_some();
    let mut words = vec![in rt.alloc(); 0u64; MOST_VERTICES]?;
    worked(rt, &mut words)?;
    full(rt, &mut words, timed)
}
