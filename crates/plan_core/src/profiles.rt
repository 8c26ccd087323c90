// The types of a profile: what a run does to blocks, and the contexts and the graph that are made of it.
use vec_list::VecList;

/// What a run does to a block. Blocks are numbered from 0 in the order of their grants, and contexts in
/// the order of their first grant.
#[derive(Clone, Copy, Debug, PartialEq, Eq, Hash)]
pub enum Event {
    /// A block was granted in a context.
    Grant {
        /// The number of the block.
        block: u32,
        /// The number of its context.
        context: u32,
    },
    /// A block was read or written, at `width` bytes.
    Access {
        /// The number of the block.
        block: u32,
        /// How many bytes were accessed.
        width: u32,
    },
    /// A block was released.
    Release {
        /// The number of the block.
        block: u32,
    },
}

/// What was counted of one context.
#[derive(Clone, Copy, Debug, PartialEq, Eq, Hash)]
pub struct Node {
    /// How many blocks were granted in the context.
    pub grants: u64,
    /// How many entries of the access list are of the context's blocks.
    pub accesses: u64,
}

/// How often blocks of two contexts were accessed near each other. Edges are ordered by their ends.
#[derive(Clone, Copy, Debug, PartialEq, Eq, PartialOrd, Ord, Hash)]
pub struct Edge {
    /// The number of the one context, which is at most that of the other.
    pub low: u32,
    /// The number of the other context.
    pub high: u32,
    /// How often.
    pub weight: u64,
}

/// What was counted of each context, by its number.
pub type NodeList = VecList<Node>;

/// The edges of a graph, whose pairs of ends ascend.
pub type EdgeList = VecList<Edge>;

/// The contexts of a run and how near each other their blocks were accessed.
#[derive(Debug, Drop)]
pub struct Graph {
    /// The contexts.
    pub nodes: NodeList,
    /// The pairs of contexts whose weight is above 0.
    pub edges: EdgeList,
}

/// The addresses of the call sites that are active at a grant, from the outermost to the innermost.
pub type Context = VecList<u32>;

/// Contexts by their numbers.
pub type ContextList = VecList<Context>;

/// A profile of a run.
#[derive(Debug, Drop)]
pub struct Profile {
    /// How many bytes apart two accesses may be that count as near each other.
    pub distance: u32,
    /// The contexts, one for each node of the graph.
    pub contexts: ContextList,
    /// The graph.
    pub graph: Graph,
}

/// The numbers of the contexts in one group.
pub type Members = VecList<u32>;

/// Groups by their numbers.
pub type Groups = VecList<Members>;
