//! The effect of a join on a node in Gather.
//!
//! Rules: Gather 4

/// The effect of a join on a node that hears it in Gather.
///
/// The conditions are tested in the order of the rule.
///
/// Rules: Gather 4
#[derive(Clone, Copy, Debug, PartialEq, Eq)]
pub enum JoinEffect {
    /// Nothing changes. The sender is the node itself or is given up, or both sets of the join are subsets of the
    /// node's own without equalling them.
    Ignored,
    /// The join has exactly the node's sets, so its sender agrees, and its number is counted.
    Agrees,
    /// The join widens the node's sets, and agreement falls back to the node itself.
    Merges,
}
