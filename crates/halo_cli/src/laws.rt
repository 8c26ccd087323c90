// Laws of what commands come to, each an empty function whose contract is proved.
ghost use Rattle.std.specs.Prelude.{◌≡◌, ℕ, List};
ghost use Rattle.endings.specs.declared.endings.Ending.{Ending};
ghost use Rattle.halo_cli.specs.Plan.{ProfileComes};

use profile_text::a_profile_text_has_one_answer;

/// A profile's text brings `plan` to one ending.
pub(crate) fn profiles_come_to_one_ending()
    ensures { (text : List ℕ) (a b : Ending) → ProfileComes text a → ProfileComes text b → a ≡ b }
{
    a_profile_text_has_one_answer();
}
