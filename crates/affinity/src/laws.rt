// General facts of lists of events and of numbers of contexts.
ghost use Rattle.std.specs.Prelude.{◌≡◌, ℕ, ◌+◌, List, [], ◌∷◌, ◌++◌, if◌then◌else◌};
ghost use Rattle.plan_core.specs.declared.profiles.Event.{Event as EventValue};
ghost use Rattle.affinity.specs.Histories.{is_in, different, MayFollow, Legal};

/// An empty list of events is legal, and a legal one stays so with an event that may follow it.
pub fn lists_stay_legal_event_by_event()
    ensures empty { Legal [] }
    ensures more { (h : List EventValue) (e : EventValue) → Legal h → MayFollow h e → Legal (h ++ e ∷ []) }
{}

/// A number behind others is one more different number exactly where it isn't among them.
pub fn a_new_number_is_one_more()
    ensures { (ns : List ℕ) (n : ℕ) → different (ns ++ n ∷ []) ≡ different ns + (if is_in ns n then 0 else 1) }
{}
