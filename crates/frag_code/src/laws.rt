// Laws of the runs of fragments, each an empty function whose contract is proved.
ghost use Rattle.std.specs.Prelude.{◌≡◌, ℕ, ◌≤◌, Some, None, false, option_map};
ghost use Rattle.flat_spec.specs.Runs.{steps};
ghost use Rattle.flat_spec.specs.Machine.{register};
ghost use Rattle.frag_code.specs.Code.{code_of};
ghost use Rattle.frag_code.specs.Fragments.{Fragment};
ghost use Rattle.frag_code.specs.Frames.{assigns, has_stores, HasWords, HasMore};
ghost use Rattle.frag_code.specs.Meaning.{View, Rights, is_allowed, frag_run};
ghost use Rattle.frag_code.specs.Countdown.{countdown, countdown_words, countdown_start};

use rv_isa::results_are_words;

/// A fragment that counts down from 5 costs 39 and has five turns of its loop; its eight words take 21
/// steps.
pub fn a_countdown_costs_39_and_takes_21_steps()
    ensures words { code_of countdown ≡ countdown_words }
    ensures cost { (g : Rights) (registers memory : ℕ → ℕ) → option_map (λ s. s.spent)
        (frag_run g countdown 5 (record { registers = registers; memory = memory; spent = 0 })) ≡ Some 39 }
    ensures turns { (g : Rights) (registers memory : ℕ → ℕ) → frag_run g countdown 4
        (record { registers = registers; memory = memory; spent = 0 }) ≡ None }
    ensures last { (steps 20 countdown_start).machine.pc ≡ 0x10014 }
    ensures behind { (steps 21 countdown_start).machine.pc ≡ 0x10020 }
    ensures counted { register (steps 21 countdown_start).machine 10 ≡ 0 }
{}

/// A run leaves the registers that its fragment doesn't write and the words that may not be written;
/// words stay words, and no cost is given back.
pub fn a_run_changes_what_it_may()
    ensures registers { (g : Rights) (f : Fragment) (w r : ℕ) (s t : View) → assigns f r ≡ false
        → frag_run g f w s ≡ Some t → t.registers r ≡ s.registers r }
    ensures without_stores { (g : Rights) (f : Fragment) (w : ℕ) (s t : View) → has_stores f ≡ false
        → frag_run g f w s ≡ Some t → t.memory ≡ s.memory }
    ensures words { (g : Rights) (f : Fragment) (w a : ℕ) (s t : View) → is_allowed g.writes a ≡ false
        → frag_run g f w s ≡ Some t → t.memory a ≡ s.memory a }
    ensures sizes { (g : Rights) (f : Fragment) (w : ℕ) (s t : View) → HasWords g s → frag_run g f w s ≡ Some t
        → HasWords g t }
    ensures cost { (g : Rights) (f : Fragment) (w : ℕ) (s t : View) → frag_run g f w s ≡ Some t → s.spent ≤ t.spent }
{
    results_are_words();
}

/// With more rights and more turns a run is the same.
pub fn more_rights_and_turns_change_nothing()
    ensures { (g more : Rights) (f : Fragment) (w most : ℕ) (s t : View) → HasMore g more → w ≤ most
        → frag_run g f w s ≡ Some t → frag_run more f most s ≡ Some t }
{}
