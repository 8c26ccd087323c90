// Executables that are accepted for rewriting: the checks of their code and heap functions, the sites
// of their calls, and which plans fit them.
#![tactic(auto)]

mod accepting;
mod calls;
mod code;
mod descriptions;
mod execs;
mod file_bytes;
mod heap;
mod image;
mod laws;
mod layout;
mod parts;
mod plan_check;
mod plan_fault;
mod refusals;
mod segments;
mod sites;
mod tp;

pub use accepting::accept;
pub use elf_spec::HeapName;
pub use execs::{Exec, Execs};
pub use heap::HEAP_NAMES;
pub use image::Image;
pub use laws::{accepted_files_keep_their_facts, no_two_sites_share_a_return_address};
pub use plan_check::check_plan;
pub use plan_fault::PlanFault;
pub use refusals::{FileRefusal, ImagePart};
pub use site_spec::Site;
pub use sites::Sites;
