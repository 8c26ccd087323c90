// The law of one turn, and that of sites, functions that do nothing, whose contracts are proved.
ghost use Rattle.std.specs.Prelude.{◌≡◌, List, Some, ℕ};
ghost use Rattle.plan_core.specs.declared.types.Plan.{Plan};
ghost use Rattle.site_spec.specs.declared.Site.{Site};
ghost use Rattle.site_spec.specs.Plans.{Fits};
ghost use Rattle.site_spec.specs.Sites.{site_at};
ghost use Rattle.sym_spec.specs.SymMachine.{SymMachine};
ghost use Rattle.sym_spec.specs.SymNotes.{note};
ghost use Rattle.sym_spec.specs.SymTurns.{turn};
ghost use Rattle.run_laws.specs.Turns.{ServesHeap, SetsBits};

use sym_cells::a_store_into_a_list_is_the_store;

/// A turn grants and releases what its note says, and does nothing else to the heap. It sets the bit of the chosen
/// site that it calls, clears that of the chosen site to which it goes back, and changes no other bit.
pub fn a_turn_does_what_its_note_says()
    ensures heap { (file : List ℕ) (plan : Plan) (input : List ℕ) (m : SymMachine)
        → ServesHeap file plan m (note file plan m) (turn file plan input m).next }
    ensures bits { (file : List ℕ) (plan : Plan) (input : List ℕ) (m : SymMachine) → Fits file plan
        → SetsBits file plan m (note file plan m) (turn file plan input m).next }
{
    a_store_into_a_list_is_the_store();
}

/// The site at an address has that address.
pub fn a_site_stands_at_its_address()
    ensures { (file : List ℕ) (a : ℕ) (s : Site) → site_at file a ≡ Some s → s.addr ≡ a }
{}
