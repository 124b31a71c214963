//! Closing of a graph.
use control_closure::{Graph, close, first_met};
use plain_list::Sequence;
use std::alloc::{AllocError, Global};

fn graph(alloc: Global, edges: &[(u32, u32)], nodes: u32) -> Result<Graph, AllocError> {
    let mut succ = Sequence::new(alloc);
    for n in 0..nodes {
        let mut row = Sequence::new(alloc);
        for (from, to) in edges {
            if *from == n {
                row.push(*to)?;
            }
        }
        succ.push(row)?;
    }
    Ok(Graph { succ })
}

fn marked(alloc: Global, nodes: &[u32], of: u32) -> Result<Vec<bool>, AllocError> {
    let mut marks = Vec::new(alloc);
    for n in 0..of {
        marks.push(nodes.contains(&n))?;
    }
    Ok(marks)
}

/// What the first node meets first, and what closing gives, or nothing where the edges or the marks are no graph's.
fn closed(
    alloc: Global,
    graph: &Graph,
    retained: &[bool],
) -> Result<Option<(Vec<u32>, Vec<bool>)>, AllocError> {
    if retained.len() != graph.len() {
        return Ok(None);
    }
    if graph.len() > 16 {
        return Ok(None);
    }
    if graph.len() == 0 {
        return Ok(None);
    }
    if !graph.is_graph() {
        return Ok(None);
    }
    let met = first_met(alloc, graph, retained, 0)?;
    Ok(Some((met, close(alloc, graph, retained)?)))
}

// A test that no needed value depends on is left out, the one before the phi is added. The first node meets its phi alone.
#[test]
fn a_phi_keeps_its_branch(rt: HostRuntime) -> Result<(), AllocError> {
    let alloc = rt.alloc();
    let edges = [
        (0, 1),
        (0, 2),
        (1, 2),
        (2, 3),
        (3, 4),
        (3, 6),
        (4, 7),
        (5, 8),
        (6, 5),
        (7, 5),
    ];
    let graph = graph(alloc, &edges, 9)?;
    let retained = marked(alloc, &[2, 5, 6, 7, 8], 9)?;
    let wanted = marked(alloc, &[2, 3, 5, 6, 7, 8], 9)?;
    match closed(alloc, &graph, retained.as_slice())? {
        Some((met, found)) => {
            assert_eq!(rt; met.as_slice(), [2].as_slice());
            assert_eq!(rt; found.as_slice(), wanted.as_slice());
        }
        None => assert!(rt; false),
    }
    Ok(())
}
