// Laws on new files, as functions that do nothing but call the laws that they rest on.

ghost use Rattle.std.specs.Prelude.{◌≡◌, ℕ, ◌+◌, ◌<◌, ◌≤◌, List, [], ◌++◌, All, Some, length};
ghost use Rattle.elf_spec.specs.declared.HeapName.{HeapName};
ghost use Rattle.elf_spec.specs.declared.NewSegment.{NewSegment};
ghost use Rattle.elf_spec.specs.declared.Patch.{Patch};
ghost use Rattle.elf_spec.specs.Heap.{heap_entries, heap_entry};
ghost use Rattle.elf_spec.specs.NewFile.{new_file};
ghost use Rattle.elf_spec.specs.Records.{e_entry, e_phnum};
ghost use Rattle.elf_read.specs.Elf.{IsReadable};
ghost use Rattle.plan_core.specs.declared.types.Plan.{Plan};
ghost use Rattle.site_spec.specs.Places.{data_at, text_at};
ghost use Rattle.site_spec.specs.Plans.{Fits};
ghost use Rattle.heap_spec.specs.Functions.{IsWord, entry_of};
ghost use Rattle.heap_spec.specs.Service.{Entries, ServesHeap, Suits};
ghost use Rattle.elf_write.specs.Kept.{AreFieldsAlone, DoHeadersPass};
ghost use Rattle.elf_write.specs.NewMemory.{NewMemory};
ghost use Rattle.exec_image.specs.Accepted.{AcceptedFacts};
ghost use Rattle.simulation.specs.Laws.{Laws};
ghost use Rattle.new_file_spec.specs.Rewritten.{heap_patches, heap_segments, patches_for, segments_for};
ghost use Rattle.new_file_laws.specs.Behaviour.{KeepsBehaviour};
ghost use Rattle.new_file_laws.specs.Parts.{AreParts, IsInCode};

use block_laws::{
    a_block_is_found_by_its_first_granule, a_new_block_stands_apart_from_the_old_ones,
    a_release_takes_one_block_alone, copied_bytes_stand_for_the_cells_of_a_moved_block,
    one_more_address_keeps_what_words_and_bytes_stand_for, tables_depend_on_their_own_words_alone,
    zero_bytes_stand_for_the_cells_of_a_new_block,
};
use elf_write::new_files_are_read_again;
use heap_spec::first_words_spell_the_first_layout;
use place_spec::layouts_stay_sound;
use simulation::a_new_file_on_its_ground_keeps_behaviour;
use site_stubs::{parts_of_a_distance_lead_there, stubs_call_and_come_back};
use sym_cells::{a_store_keeps_every_region, buffers_are_alike, loads_and_stores_are_alike};
use sym_value::values_stand_for_their_words;

/// A plan that fits has at most 32 sites, as each has a bit of its own.
pub fn fitting_plans_have_few_sites()
    ensures { (file : List ℕ) (plan : Plan) → Fits file plan → length plan.sites ≤ 32 }
{}

/// A file without entries of heap functions has none of these functions.
pub fn files_without_entries_have_no_heap_function()
    ensures { (file : List ℕ) (name : HeapName) (e : ℕ) → heap_entries file ≡ [] → heap_entry file name ≡ Some e → ⊥ }
{}

/// The new file of an accepted file with patches in its executable sections and added segments is
/// readable, where its program headers pass their checks and are at most 100, and where neither the
/// section headers, nor the symbols or their strings lie over the fields e_phoff and e_phnum of the file
/// header (gABI, "ELF Header", "Section Header", "Symbol Table", "String Table").
pub fn new_files_of_patched_code_are_readable()
    ensures { (file : List ℕ) (patches : List Patch) (segments : List NewSegment) → AcceptedFacts file
        → All (IsInCode file) patches → AreFieldsAlone file → e_phnum file + length segments ≤ 100
        → DoHeadersPass file segments → IsReadable (new_file file patches segments) }
{
    new_files_are_read_again();
}

/// A plan that fits an accepted file suits its heap: the area ends below the stack.
pub fn fitting_plans_suit_the_heap()
    ensures { (file : List ℕ) (plan : Plan) → AcceptedFacts file → Fits file plan
        → Suits plan.rows plan.area (text_at file) (data_at file) }
{}

/// The jumps at the chosen sites of an accepted file are patches inside the file, no two of which share a
/// byte, and its new text has room behind the image. With at most 4096 words of the heap, so are these with
/// the jumps at the entries of heap functions, and the tables and the area have room behind the text.
pub fn parts_fit_the_file()
    ensures sites { (file : List ℕ) (plan : Plan) → AcceptedFacts file → Fits file plan
        → AreParts file (patches_for file plan) (segments_for file plan) }
    ensures heap { (file : List ℕ) (plan : Plan) (words : List ℕ) (at : Entries) → AcceptedFacts file
        → Fits file plan → length words ≤ 4096
        → AreParts file (patches_for file plan ++ heap_patches file at) (heap_segments file plan words) }
{
    first_words_spell_the_first_layout();
}

/// What the simulation supposes of values, of memory and of the heap holds.
fn the_laws_of_the_simulation_hold()
    ensures { Laws }
{
    values_stand_for_their_words();
    loads_and_stores_are_alike();
    buffers_are_alike();
    a_store_keeps_every_region();
    layouts_stay_sound();
    a_new_block_stands_apart_from_the_old_ones();
    a_release_takes_one_block_alone();
    a_block_is_found_by_its_first_granule();
    tables_depend_on_their_own_words_alone();
    one_more_address_keeps_what_words_and_bytes_stand_for();
    zero_bytes_stand_for_the_cells_of_a_new_block();
    copied_bytes_stand_for_the_cells_of_a_moved_block();
    stubs_call_and_come_back();
    parts_of_a_distance_lead_there();
}

/// A file that starts with the memory of the new file of an accepted file and a fitting plan, at the same
/// entry, keeps the behaviour of that file, from the start on and turn by turn: without heap functions, and with
/// them where the heap's words serve every request of the plan's rows and area.
pub fn new_files_keep_behaviour()
    ensures sites { (file : List ℕ) (plan : Plan) (new : List ℕ) → AcceptedFacts file
        → All (λ b. b < 256) file → All (λ b. b < 256) new → heap_entries file ≡ []
        → Fits file plan
        → NewMemory file (patches_for file plan) (segments_for file plan) new
        → e_entry new ≡ e_entry file → KeepsBehaviour file plan new }
    ensures heap { (file : List ℕ) (plan : Plan) (new words : List ℕ) (at : Entries) → AcceptedFacts file
        → All (λ b. b < 256) file → All (λ b. b < 256) new → Fits file plan → length words ≤ 4096
        → ((name : HeapName) (e : ℕ) → heap_entry file name ≡ Some e → IsWord (text_at file) words (entry_of at name))
        → ServesHeap plan.rows plan.area (text_at file) (data_at file) words at
        → NewMemory file (patches_for file plan ++ heap_patches file at) (heap_segments file plan words) new
        → e_entry new ≡ e_entry file → KeepsBehaviour file plan new }
{
    the_laws_of_the_simulation_hold();
    a_new_file_on_its_ground_keeps_behaviour();
    first_words_spell_the_first_layout();
}
