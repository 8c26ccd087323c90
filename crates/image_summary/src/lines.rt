// Writes the summary of an image, line by line.

ghost use Rattle.std.specs.Prelude.{◌≡◌, ◌++◌, codes, flat_map, if◌then◌else◌, IfOk, OnOk};
ghost use Rattle.elf_spec.specs.Heap.{heap_entry};
ghost use Rattle.image_summary.specs.Summary.{IsSummary, entry_line, exec_line, heap_line, heap_lines, site_line};

use exec_image::{Exec, HEAP_NAMES, HeapName, Image, Site};
use std::alloc::{AllocError, Global};
use text_fields::{push_decimal, push_hex};

/// The lines of the summary: the entry, the executable sections in order of index, the heap functions
/// that are there, the sites of calls by address, each with its target and whether it reaches all stub
/// places (`near`), and `end`. Addresses and sizes have eight hexadecimal digits. The one failure is
/// want of memory.
pub fn summary(alloc: Global, image: &Image) -> Result<Vec<u8>, AllocError>
    ensures { IfOk result (λ text. IsSummary image.now text.items) }
{
    let mut out = Vec::new(alloc);
    write_entry(&mut out, image.elf().entry)?;
    write_execs(alloc, &mut out, image.execs().as_slice())?;
    write_heap(&mut out, image)?;
    write_sites(&mut out, image.sites().as_slice())?;
    out.extend_from_slice(b"end\n")?;
    Ok(out)
}

#[tactic(auto, unfolding(crate::specs::Summary::entry_line))]
fn write_entry(out: &mut Vec<u8>, entry: u32) -> Result<(), AllocError>
    ensures { OnOk result (out.new.items ≡ out.old.items ++ entry_line entry) }
{
    out.extend_from_slice(b"entry ")?;
    push_hex(out, entry)?;
    out.push(b'\n')?;
    Ok(())
}

#[tactic(auto, unfolding(crate::specs::Summary::exec_line))]
fn write_exec(alloc: Global, out: &mut Vec<u8>, exec: &Exec) -> Result<(), AllocError>
    ensures { OnOk result (out.new.items ≡ out.old.items ++ exec_line exec.now) }
{
    out.extend_from_slice(b"exec ")?;
    push_decimal(alloc, out, u64::from(exec.index))?;
    out.push(b' ')?;
    push_hex(out, exec.addr)?;
    out.push(b' ')?;
    push_hex(out, exec.size)?;
    out.push(b'\n')?;
    Ok(())
}

fn write_execs(alloc: Global, out: &mut Vec<u8>, execs: &[Exec]) -> Result<(), AllocError>
    ensures { OnOk result (out.new.items ≡ out.old.items ++ flat_map exec_line execs.now) }
{
    for exec in execs {
        write_exec(alloc, out, exec)?;
    }
    Ok(())
}

#[tactic(auto, unfolding(crate::specs::Summary::heap_line))]
fn write_heap_name(out: &mut Vec<u8>, name: HeapName, entry: Option<u32>) -> Result<(), AllocError>
    ensures { OnOk result (out.new.items ≡ out.old.items ++ heap_line name entry) }
{
    if let Some(addr) = entry {
        out.extend_from_slice(b"heap ")?;
        out.extend_from_slice(name.name().as_bytes())?;
        out.push(b' ')?;
        push_hex(out, addr)?;
        out.push(b'\n')?;
    }
    Ok(())
}

/// Writes those of these heap functions that the image has.
fn write_names(out: &mut Vec<u8>, image: &Image, names: &[HeapName]) -> Result<(), AllocError>
    ensures { OnOk result (out.new.items
        ≡ out.old.items ++ flat_map (λ name. heap_line name (heap_entry image.now name)) names.now) }
{
    for name in names {
        write_heap_name(out, *name, image.heap_entry(*name))?;
    }
    Ok(())
}

fn write_heap(out: &mut Vec<u8>, image: &Image) -> Result<(), AllocError>
    ensures { OnOk result (out.new.items ≡ out.old.items ++ heap_lines image.now) }
{
    write_names(out, image, &HEAP_NAMES)
}

fn kind_of(pair: bool) -> &'static str
    ensures { result.now ≡ (if pair then codes "pair" else codes "jal") }
{
    if pair { "pair" } else { "jal" }
}

fn reach_of(near: bool) -> &'static str
    ensures { result.now ≡ (if near then codes " near\n" else codes " far\n") }
{
    if near { " near\n" } else { " far\n" }
}

#[tactic(auto, unfolding(crate::specs::Summary::site_line))]
fn write_site(out: &mut Vec<u8>, site: &Site) -> Result<(), AllocError>
    ensures { OnOk result (out.new.items ≡ out.old.items ++ site_line site.now) }
{
    out.extend_from_slice(b"site ")?;
    out.extend_from_slice(kind_of(site.pair).as_bytes())?;
    out.push(b' ')?;
    push_hex(out, site.addr)?;
    out.push(b' ')?;
    push_hex(out, site.target)?;
    out.extend_from_slice(reach_of(site.near).as_bytes())?;
    Ok(())
}

fn write_sites(out: &mut Vec<u8>, sites: &[Site]) -> Result<(), AllocError>
    ensures { OnOk result (out.new.items ≡ out.old.items ++ flat_map site_line sites.now) }
{
    for site in sites {
        write_site(out, site)?;
    }
    Ok(())
}
