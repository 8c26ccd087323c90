// The heap functions of an executable, and the words that stand at their entries in place of their own.
ghost use Rattle.std.specs.Prelude.{◌≡◌, ◌<◌, ◌^◌, ◌++◌, is_some, flat_map, OnOk};
ghost use Rattle.std.specs.List.{list_any};
ghost use Rattle.elf_spec.specs.Heap.{heap_entry};
ghost use Rattle.heap_spec.specs.Functions.{entry_of};
ghost use Rattle.heap_code.specs.Images.{entries_in};
ghost use Rattle.new_file_spec.specs.Rewritten.{has_heap, heap_jump, heap_patch, heap_patches, patches_at};
ghost use Rattle.exec_image.specs.Accepted.{AcceptedFacts};

use crate::patches::push_word;
use elf_spec::{HeapName, Patch};
use exec_image::{HEAP_NAMES, Image};
use heap_code::HeapImage;
use site_stubs::far_jump;
use std::alloc::AllocError;

/// The register through which a function goes to its heap word.
const T0: u8 = 5;

/// Whether the executable has one of these functions.
fn has_some(image: &Image, names: &[HeapName]) -> bool
    ensures { result ≡ list_any (λ name. is_some (heap_entry image.now name)) names.now }
{
    names.iter().any(|name| image.heap_entry(*name).is_some())
}

/// Whether the executable has a heap function.
pub fn has_heap(image: &Image) -> bool
    ensures { result ≡ has_heap image.now }
{
    has_some(image, &HEAP_NAMES)
}

/// The heap word that a function goes to.
fn word_of(heap: &HeapImage, name: HeapName) -> u32
    ensures { result ≡ entry_of (entries_in heap.now) name }
{
    match name {
        HeapName::Malloc => heap.malloc,
        HeapName::Calloc => heap.calloc,
        HeapName::Realloc => heap.realloc,
        HeapName::Free => heap.free,
        HeapName::MallocR => heap.malloc_r,
        HeapName::CallocR => heap.calloc_r,
        HeapName::ReallocR => heap.realloc_r,
        HeapName::FreeR => heap.free_r,
    }
}

/// Adds the two words with which the function at an entry goes to a heap word.
#[tactic(auto, using(crate::proofs::HeapNames::pair))]
fn push_jump(patches: &mut Vec<Patch>, image: &Image, entry: u32, to: u32) -> Result<(), AllocError>
    requires { entry < 2 ^ 31 }
    ensures { OnOk result (patches.new.items
        ≡ patches.old.items ++ patches_at image.now entry (heap_jump to entry)) }
{
    let [upper, lower] = far_jump(T0, 0, to.wrapping_sub(entry));
    push_word(patches, image, entry, upper)?;
    push_word(patches, image, entry + 4, lower)?;
    Ok(())
}

/// Adds the words at the entry of a function, where the executable has it.
#[tactic(auto, using(crate::proofs::HeapNames::entries))]
fn push_function(
    patches: &mut Vec<Patch>,
    image: &Image,
    heap: &HeapImage,
    name: HeapName,
) -> Result<(), AllocError>
    requires { AcceptedFacts image.now }
    ensures { OnOk result (patches.new.items ≡ patches.old.items
        ++ heap_patch image.now (entry_of (entries_in heap.now) name) (heap_entry image.now name)) }
{
    if let Some(entry) = image.heap_entry(name) {
        push_jump(patches, image, entry, word_of(heap, name))?;
    }
    Ok(())
}

/// Adds the words at the entries of these functions.
fn push_functions(
    patches: &mut Vec<Patch>,
    image: &Image,
    heap: &HeapImage,
    names: &[HeapName],
) -> Result<(), AllocError>
    requires { AcceptedFacts image.now }
    ensures { OnOk result (patches.new.items ≡ patches.old.items ++ flat_map
        (λ name. heap_patch image.now (entry_of (entries_in heap.now) name) (heap_entry image.now name)) names.now) }
{
    for name in names {
        push_function(patches, image, heap, *name)?;
    }
    Ok(())
}

/// Adds the words at the entries of all functions that the executable has.
pub fn push_entries(
    patches: &mut Vec<Patch>,
    image: &Image,
    heap: &HeapImage,
) -> Result<(), AllocError>
    requires { AcceptedFacts image.now }
    ensures { OnOk result (patches.new.items
        ≡ patches.old.items ++ heap_patches image.now (entries_in heap.now)) }
{
    push_functions(patches, image, heap, &HEAP_NAMES)?;
    Ok(())
}
