// The simulation: a new file whose memory is laid out as its source's plan says keeps the behaviour of
// its source.
#![tactic(auto)]

mod laws;

pub use laws::a_new_file_on_its_ground_keeps_behaviour;
