// General facts of the events of runs.
ghost use Rattle.std.specs.Prelude.{◌≡◌, ℕ, ◌≤◌, List};
ghost use Rattle.plan_core.specs.declared.types.Area.{Area as AreaValue};
ghost use Rattle.plan_core.specs.declared.types.Plan.{Plan as PlanValue};
ghost use Rattle.plan_core.specs.declared.profiles.Event.{Event as EventValue};
ghost use Rattle.plan_core.specs.declared.profiles.Profile.{Profile as ProfileValue};
ghost use Rattle.sym_spec.specs.SymMachine.{SymMachine};
ghost use Rattle.sym_spec.specs.SymRuns.{sym_run};
ghost use Rattle.run_laws.specs.Grants.{Run};
ghost use Rattle.tidy_runs.specs.Tidy.{stack_at};
ghost use Rattle.affinity.specs.Histories.{Legal};
ghost use Rattle.heap_trace.specs.Events.{Traced};
ghost use Rattle.heap_trace.specs.GrantContexts.{AreContextsOf, NameContexts};
ghost use Rattle.heap_trace.specs.Profiles.{IsProfileOf, plan_of_area};
ghost use Rattle.heap_trace.specs.Traces.{Traces, Leads, IsLegalTrace};

use affinity::{a_new_number_is_one_more, lists_stay_legal_event_by_event};

/// The events of every run of at most 4294967295 turns are a legal list. So they are where each turn has an
/// input of its own, and then there are as many contexts as the trace has, which are no more than turns.
pub fn runs_have_legal_events()
    ensures legal { (file : List ℕ) (plan : PlanValue) (input : List ℕ) (n : ℕ) (t : Traced) (events : List EventValue)
        → n ≤ 4294967295 → Traces file plan input n t events → Legal events }
    ensures runs { (file : List ℕ) (plan : PlanValue) (input : List ℕ) (n : ℕ) (t : Traced) (events : List EventValue)
        → Traces file plan input n t events → Leads file plan n (sym_run file plan input n).machine t events }
    ensures turns { (file : List ℕ) (plan : PlanValue) (n : ℕ) (m : SymMachine) (t : Traced) (events : List EventValue)
        → n ≤ 4294967295 → Leads file plan n m t events → IsLegalTrace n t events }
{
    lists_stay_legal_event_by_event();
    a_new_number_is_one_more();
}

/// The contexts of a run's trace are those of its grants, each taken before the jump of its turn: of these the laws of
/// tidy runs speak. The event of a grant names its context by its number, and the stack is that of the run's turns.
/// So are the contexts of a profile.
pub fn contexts_are_those_of_the_grants_of_a_run()
    ensures stack { (run : Run) (n : ℕ) (t : Traced) (events : List EventValue)
        → Traces run.file run.plan run.input n t events → t.stack ≡ stack_at run n }
    ensures contexts { (run : Run) (n : ℕ) (t : Traced) (events : List EventValue)
        → Traces run.file run.plan run.input n t events → AreContextsOf run n t.contexts }
    ensures named { (run : Run) (n : ℕ) (t : Traced) (events : List EventValue)
        → Traces run.file run.plan run.input n t events → NameContexts run n t.contexts events }
    ensures profiled { (file : List ℕ) (area : AreaValue) (input : List ℕ) (n distance : ℕ) (p : ProfileValue)
        → IsProfileOf file area input n distance p
        → AreContextsOf (record { file = file; plan = plan_of_area area; input = input }) n p.contexts }
{}
