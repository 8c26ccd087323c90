// Plans: call sites with the bits that they set, rows that give bits a group, and the heap's area; and their text.
// Beside them the types of the profiles that plans are made of.
#![tactic(auto)]

mod laws;
mod lines;
mod profiles;
mod reader;
mod refusals;
mod rows;
mod steps;
#[cfg(test)]
mod tests;
mod types;
mod writer;

pub use laws::a_text_has_one_answer;
pub use profiles::{
    Context, ContextList, Edge, EdgeList, Event, Graph, Groups, Members, Node, NodeList, Profile,
};
pub use reader::read_plan;
pub use refusals::PlanRefusal;
pub use rows::group_of;
pub use types::{Area, Plan, PlanLine, PlanLines, Row, RowList};
pub use writer::write_plan;
