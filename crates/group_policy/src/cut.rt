// What a rule is told of a group and a candidate.

/// A group of contexts, a candidate outside it, and the kept edges inside and between.
///
/// In range are 1 to 7 nodes, at most as many loops, a weight up to `36 * 2^44`, a loop of the candidate up to `2^44`,
/// edges between up to `7 * 2^44` and a tolerance up to 150. One node without a loop has the weight 0.
#[derive(Clone, Copy, Debug, PartialEq, Eq, Hash)]
pub struct Cut {
    /// How many members the group has.
    pub nodes: u8,
    /// How many of them have an edge to themselves.
    pub loops: u8,
    /// The sum of the weights of the edges inside the group, loops included.
    pub weight: u64,
    /// The weight of the candidate's edge to itself, 0 where it has none.
    pub node_loop: u64,
    /// The sum of the weights of the edges between the candidate and the group.
    pub cross: u64,
    /// How many thousandths of the density a group may lose by the candidate.
    pub tolerance: u16,
}
