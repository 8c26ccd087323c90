// The new file of an executable and a plan.

ghost use Rattle.std.specs.Prelude.{◌≡◌, ◌≢◌, ◌<◌, ◌≤◌, ◌⊎◌, None, Some, true, false, length, All, IfErr, IfOk};
ghost use Rattle.elf_spec.specs.NewFile.{new_file};
ghost use Rattle.elf_spec.specs.Records.{e_entry};
ghost use Rattle.site_spec.specs.Plans.{Fits};
ghost use Rattle.new_file_spec.specs.Rewritten.{NewFile, has_heap};
ghost use Rattle.elf_read.specs.Elf.{IsReadable};
ghost use Rattle.elf_write.specs.Kept.{AreFieldsAlone};
ghost use Rattle.elf_write.specs.NewMemory.{NewMemory};
ghost use Rattle.exec_image.specs.Refusals.{file_refusal};
ghost use Rattle.new_file_laws.specs.Behaviour.{KeepsBehaviour};
ghost use Rattle.new_file_laws.specs.Parts.{AreParts};
ghost use Rattle.rewriter.specs.Rewrites.{IsRewritten, rewrite_refusal};

use crate::data::data_segment;
use crate::entries::{has_heap, push_entries};
use crate::patches::site_patches;
use crate::refusal::RewriteRefusal;
use crate::text::{heap_segment, site_segment};
use elf_spec::{NewSegment, Patch};
use elf_write::with_segments;
use exec_image::{FileRefusal, Image, accept, check_plan};
use heap_code::build;
use new_file_laws::{
    files_without_entries_have_no_heap_function, fitting_plans_suit_the_heap,
    new_files_keep_behaviour, parts_fit_the_file,
};
use plan_core::Plan;
use std::alloc::{AllocError, Global};

/// The room of the new text, up to where the heap's tables stand.
const TEXT_ROOM: u32 = 0x5000;

/// Each number of some bytes is below 256.
fn are_bytes(bytes: &[u8])
    ensures { All (λ b. b < 256) bytes.now }
{
    for byte in bytes {
        let _value = *byte;
    }
}

/// The new file of an accepted executable with patches of its code and added segments.
fn written(
    alloc: Global,
    image: &Image,
    patches: &[Patch],
    segments: &[NewSegment],
) -> Result<Vec<u8>, AllocError>
    requires limit { length image.now ≤ 33554432 }
    requires few { length segments.now ≤ 2 }
    requires parts { AreParts image.now patches.now segments.now }
    ensures is { IfOk result (λ new. new.items ≡ new_file image.now patches.now segments.now) }
    ensures memory { IfOk result (λ new. NewMemory image.now patches.now segments.now new.items) }
    ensures entry { IfOk result (λ new. e_entry new.items ≡ e_entry image.now) }
    ensures bytes { IfOk result (λ new. All (λ b. b < 256) new.items) }
    ensures readable { IfOk result (λ new. AreFieldsAlone image.now → IsReadable new.items) }
    ensures short { IfOk result (λ new. length new.items ≤ 34603008) }
{
    let new = with_segments(alloc, image.elf(), image.file(), patches, segments)?;
    are_bytes(&new);
    Ok(new)
}

/// The new file of an accepted executable without heap functions, and a plan that fits it.
fn without_heap(alloc: Global, image: &Image, plan: &Plan) -> Result<Vec<u8>, AllocError>
    requires limit { length image.now ≤ 33554432 }
    requires fits { Fits image.now plan.now }
    requires none { has_heap image.now ≡ false }
    ensures is { IfOk result (λ new. NewFile image.now plan.now new.items) }
    ensures keeps { IfOk result (λ new. KeepsBehaviour image.now plan.now new.items) }
    ensures readable { IfOk result (λ new. AreFieldsAlone image.now → IsReadable new.items) }
    ensures short { IfOk result (λ new. length new.items ≤ 34603008) }
{
    files_without_entries_have_no_heap_function();
    parts_fit_the_file();
    new_files_keep_behaviour();
    let _elf = image.elf();
    are_bytes(image.file());
    let patches = site_patches(alloc, image, plan)?;
    let text = site_segment(alloc, image, plan)?;
    let new = written(alloc, image, &patches, &[text])?;
    Ok(new)
}

/// The new file of an accepted executable with heap functions, and a plan that fits it: their words come
/// from the plan's rows and area.
fn with_heap(alloc: Global, image: &Image, plan: &Plan) -> Result<Vec<u8>, AllocError>
    requires limit { length image.now ≤ 33554432 }
    requires fits { Fits image.now plan.now }
    requires some { has_heap image.now ≡ true }
    ensures is { IfOk result (λ new. NewFile image.now plan.now new.items) }
    ensures keeps { IfOk result (λ new. KeepsBehaviour image.now plan.now new.items) }
    ensures readable { IfOk result (λ new. AreFieldsAlone image.now → IsReadable new.items) }
    ensures short { IfOk result (λ new. length new.items ≤ 34603008) }
{
    parts_fit_the_file();
    new_files_keep_behaviour();
    fitting_plans_suit_the_heap();
    let _elf = image.elf();
    are_bytes(image.file());
    let text_at = image.text_at();
    let data_at = text_at + TEXT_ROOM;
    let heap = build(alloc, plan, text_at, data_at)?;
    let mut patches = site_patches(alloc, image, plan)?;
    push_entries(&mut patches, image, &heap)?;
    let text = heap_segment(alloc, image, plan, heap.words.as_slice())?;
    let data = data_segment(plan.area, data_at, heap.tables);
    let new = written(alloc, image, &patches, &[text, data])?;
    Ok(new)
}

/// The new file of an accepted executable and a plan that fits it.
fn new_file_of(alloc: Global, image: &Image, plan: &Plan) -> Result<Vec<u8>, AllocError>
    requires limit { length image.now ≤ 33554432 }
    requires fits { Fits image.now plan.now }
    ensures is { IfOk result (λ new. NewFile image.now plan.now new.items) }
    ensures keeps { IfOk result (λ new. KeepsBehaviour image.now plan.now new.items) }
    ensures readable { IfOk result (λ new. AreFieldsAlone image.now → IsReadable new.items) }
    ensures short { IfOk result (λ new. length new.items ≤ 34603008) }
{
    if has_heap(image) {
        with_heap(alloc, image, plan)
    } else {
        without_heap(alloc, image, plan)
    }
}

/// What the refusal of a file comes to.
fn of_file(why: FileRefusal) -> RewriteRefusal
    ensures memory { why ≡ FileRefusal.Memory → result ≡ RewriteRefusal.Memory }
    ensures other { why ≢ FileRefusal.Memory → result ≡ RewriteRefusal.File why }
{
    match why {
        FileRefusal::Memory => RewriteRefusal::Memory,
        _ => RewriteRefusal::File(why),
    }
}

/// The new file of an executable of at most 33554432 bytes and a plan: each chosen site goes to its
/// stub, and the stubs stand in a new text segment behind the mark. With heap functions, each goes to the
/// heap's words in that segment, and a segment of data has the heap's tables and its area.
///
/// The file is judged before the plan. It fails for no other cause but want of memory: so with an accepted file and a
/// plan that fits it.
pub fn rewrite(alloc: Global, file: &[u8], plan: &Plan) -> Result<Vec<u8>, RewriteRefusal>
    requires { length file.now ≤ 33554432 }
    ensures done { IfOk result (λ new. IsRewritten file.now plan.now new.items) }
    ensures refused { IfErr result (λ why. (rewrite_refusal file.now plan.now ≡ Some why)
        ⊎ (why ≡ RewriteRefusal.Memory)) }
    ensures sure { file_refusal file.now ≡ None → Fits file.now plan.now
        → IfErr result (λ why. why ≡ RewriteRefusal.Memory) }
{
    let image = match accept(alloc, file) {
        Ok(image) => image,
        Err(why) => return Err(of_file(why)),
    };
    if let Err(fault) = check_plan(&image, plan) {
        return Err(RewriteRefusal::Plan(fault));
    }
    match new_file_of(alloc, &image, plan) {
        Ok(new) => Ok(new),
        Err(_) => Err(RewriteRefusal::Memory),
    }
}
