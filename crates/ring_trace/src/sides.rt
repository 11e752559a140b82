//! The sides of a cut.
//!
//! Formats: The command line

use ring_base::{Fault, Fixed, Proc, ProcSet};
use ring_console::Groups;
use std::alloc::Allocator;

/// Returns the sides into which a cut splits these nodes, ordered by their least members.
///
/// Each node is in exactly one of them.
///
/// Errors: `Memory` if an allocation fails.
///
/// Formats: The command line
pub(crate) fn sides_of<A: Allocator + Copy>(
    alloc: A,
    nodes: Fixed,
    groups: Groups,
) -> Result<Vec<ProcSet, A>, Fault> {
    let mut sides = Vec::new(alloc);
    let mut placed = ProcSet::new();
    for before in 0..nodes.count() {
        let node = nodes.proc(before.saturating_add(1))?;
        if !placed.contains(node) {
            let side = side_of(nodes, groups, node)?;
            placed = placed.union(side);
            sides.push(side)?;
        }
    }
    Ok(sides)
}

/// Returns the nodes that are connected to `node`.
fn side_of(nodes: Fixed, groups: Groups, node: Proc) -> Result<ProcSet, Fault> {
    let mut side = ProcSet::new();
    for before in 0..nodes.count() {
        let other = nodes.proc(before.saturating_add(1))?;
        if groups.are_connected(node, other) {
            let _ = side.insert(other);
        }
    }
    Ok(side)
}
