// Groups of contexts whose blocks are accessed near each other, made greedily of a graph as a policy says.
#![tactic(auto)]

mod choice;
mod growth;
mod kept;
mod making;

pub use making::{Options, group};
