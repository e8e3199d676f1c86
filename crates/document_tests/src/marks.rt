// Chains with a cycle, nodes that lead nowhere, and no marks.
use marked_nodes::{Edge, leading_to};
use std::test::Fail;

#[test]
fn a_chain_leads_through_a_cycle(rt: HostRuntime) -> Result<(), Fail> {
    let edges = [
        Edge { from: 0, to: 1 },
        Edge { from: 1, to: 0 },
        Edge { from: 1, to: 2 },
        Edge { from: 2, to: 3 },
    ];
    let leading = leading_to(rt.alloc(), 4, &edges, &[2])?;
    assert_eq!(rt; leading.as_slice(), [true, true, true, false].as_slice());
    Ok(())
}

#[test]
fn without_marks_nothing_leads_to_one(rt: HostRuntime) -> Result<(), Fail> {
    let leading = leading_to(rt.alloc(), 2, &[Edge { from: 0, to: 1 }], &[])?;
    assert_eq!(rt; leading.as_slice(), [false, false].as_slice());
    Ok(())
}
