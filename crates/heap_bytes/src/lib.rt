// Blocks of a heap's area, granule by granule: in specs/ the fragment that copies them; here its builder
// and, as the contract of an empty function, what it does.
#![tactic(auto)]

mod copying;
mod laws;

pub use copying::copy_block;
pub use laws::granules_are_copied;
