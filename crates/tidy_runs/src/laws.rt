// The laws, each a function that does nothing, whose contract is proved.
ghost use Rattle.std.specs.Prelude.{ℕ};
ghost use Rattle.site_spec.specs.Plans.{Fits};
ghost use Rattle.run_laws.specs.Grants.{Run, machine_at};
ghost use Rattle.tidy_runs.specs.Tidy.{AreBitsOf, AreNear, IsTidy, context_at, is_in, is_on, stack_at};

use run_laws::{a_site_stands_at_its_address, a_turn_does_what_its_note_says};

/// In a tidy run of a fitting plan the bits are, at every step, the chosen sites in the shadow stack.
pub fn bits_of_a_tidy_run_are_the_chosen_sites_in_the_stack()
    ensures { (run : Run) (n : ℕ) → Fits run.file run.plan → IsTidy run n
        → AreBitsOf run.plan.sites (is_on (stack_at run n)) (machine_at run n).bits }
{
    a_turn_does_what_its_note_says();
    a_site_stands_at_its_address();
}

/// Where all chosen sites are near, the bits at a grant are the chosen sites on its context.
pub fn bits_of_near_sites_are_those_on_the_context()
    ensures { (run : Run) (n : ℕ) → Fits run.file run.plan → IsTidy run n → AreNear run.file run.plan.sites
        → AreBitsOf run.plan.sites (is_in (context_at run n)) (machine_at run n).bits }
{
    a_turn_does_what_its_note_says();
    a_site_stands_at_its_address();
}
