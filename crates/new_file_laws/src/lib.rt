// The new file of an accepted executable keeps the behaviour of its source, without heap functions and with
// them: laws over the definitions.
#![tactic(auto)]

mod laws;

pub use laws::{
    files_without_entries_have_no_heap_function, fitting_plans_have_few_sites,
    fitting_plans_suit_the_heap, new_files_keep_behaviour, new_files_of_patched_code_are_readable,
    parts_fit_the_file,
};
