// The headline, over definitions alone: the new file does what its source does, and `run` takes it.
ghost use Rattle.std.specs.Prelude.{◌≡◌, ℕ, ◌<◌, List, All, Option, Some};
ghost use Rattle.halo_outside.specs.Seen.{Contents, contents_of};
ghost use Rattle.elf_write.specs.Kept.{AreFieldsAlone};
ghost use Rattle.endings.specs.declared.endings.BadFile.{BadFile};
ghost use Rattle.endings.specs.declared.endings.Ending.TheVariants.{File};
ghost use Rattle.plan_core.specs.declared.types.Plan.{Plan};
ghost use Rattle.rewriter.specs.Rewrites.{IsRewritten};
ghost use Rattle.sym_spec.specs.SymRuns.{sym_run};
ghost use Rattle.match_spec.specs.Keeps.{IsNoFault};
ghost use Rattle.match_spec.specs.Same.{HasDoneTheSame};
ghost use Rattle.halo_cli.specs.Run.{RunComes};

/// For every input and every n for which a file that was rewritten by a plan meets no address fault
/// within n turns under this plan, its new file, run as it is, writes the same bytes, has the same
/// input left, and is running or has ended alike: with the same exit status, or at the same illegal
/// word.
pub fn new_files_do_the_same()
    ensures { (file : List ℕ) (plan : Plan) (new input : List ℕ) (n : ℕ) → IsRewritten file plan new
        → All (λ b. b < 256) input → IsNoFault (sym_run file plan input n).machine.ending
        → HasDoneTheSame file plan new input n }
{}

/// `run` refuses no new file, whatever its name and input, where none of the old file's section headers,
/// symbols and strings lies over the two fields of the file header that change.
pub fn new_files_are_taken_by_run()
    ensures { (file : List ℕ) (plan : Plan) (new : List ℕ) → IsRewritten file plan new → AreFieldsAlone file
        → (steps : ℕ) (name : List ℕ) (contents : Contents) (input : Option (List ℕ)) (why : BadFile)
        → contents_of contents name ≡ Some new → RunComes steps name contents input (File why) → ⊥ }
{}
