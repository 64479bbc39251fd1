//! XOR and AND of two inputs under the codes 0 to 3.
use crate::{Codes, earliest, simulate};
use aig::{Graph, Net};
use std::test::Fail;

fn and(graph: &mut Graph, a: Net, b: Net) -> Result<Net, Fail> {
    if a.vertex() >= graph.used() || b.vertex() >= graph.used() {
        return Err(Fail::new("an operand is not in use"));
    }
    if graph.used() >= graph.places() {
        return Err(Fail::new("the table is full"));
    }
    Ok(graph.and(a, b))
}

#[test]
fn xor_and_and(rt: HostRuntime) -> Result<(), Fail> {
    let mut graph = Graph::new(rt.alloc(), 2, 8)?;
    let both = and(&mut graph, Net(2), Net(4))?;
    let neither = and(&mut graph, Net(3), Net(5))?;
    let one = and(&mut graph, both.inverse(), neither.inverse())?;
    assert!(rt; graph.used() == 6);
    assert!(rt; both.vertex() < 6 && neither.vertex() < 6 && one.vertex() < 6);
    let mut words = [7u64; 8];
    simulate(&graph, Codes::new(&[0, 1, 2, 3]), &mut words);
    assert_eq!(rt; words[1], 0b1010);
    assert_eq!(rt; words[2], 0b1100);
    assert_eq!(rt; words[3], 0b1000);
    assert_eq!(rt; words[5], 0b0110);
    assert_eq!(rt; words[6], 7);
    assert_eq!(rt;
        earliest(&graph, Codes::new(&[0, 3, 1]), one, both, &mut words),
        Some(1)
    );
    assert_eq!(rt;
        earliest(&graph, Codes::new(&[1, 2]), both, neither, &mut words),
        None
    );
    Ok(())
}
