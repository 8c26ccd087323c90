// What the image of an accepted file answers, or why a file isn't accepted.
ghost use Rattle.std.specs.Prelude.{◌≡◌, ◌<◌, ◌^◌, true, length, slice_get};
ghost use Rattle.elf_spec.specs.Memory.{is_loaded};
ghost use Rattle.elf_spec.specs.Records.{segments_of};
ghost use Rattle.exec_image.specs.Images.{is_loaded_one};

use elf_read::Segment;
use exec_image::{Image, accept, check_plan};
use image_summary::summary;
use plan_core::read_plan;
use std::{io, str};

/// Prints the bytes that a loaded segment of an image has: how many, and the first and the last.
fn print_segment(rt: &HostRuntime, image: &Image, i: u32) -> io::Result<()>
    requires { is_loaded_one (slice_get (segments_of image.now) i) ≡ true }
{
    let bytes = image.bytes(i);
    print!(rt; "\nsegment {i}: ")?;
    match (bytes.first(), bytes.last()) {
        (Some(first), Some(last)) => {
            print!(rt; "{} bytes from {first:02x} to {last:02x}", bytes.len())
        }
        _ => print!(rt; "no bytes"),
    }
}

/// Whether a segment is loaded (gABI, "Program Header").
fn is_loaded(segment: &Segment) -> bool
    ensures { result ≡ is_loaded segment.now }
{
    segment.kind == 1 && segment.mem_size > 0
}

/// Prints what an image is: its size, where it begins, where a new text would stand, and its segments.
fn print_description(rt: &HostRuntime, image: &Image) -> io::Result<()> {
    let elf = image.elf();
    let (size, text_at) = (image.file().len(), image.text_at());
    print!(rt;
        "{size} bytes, entry {:08x}, text at {text_at:08x}",
        elf.entry
    )?;
    for (i, segment) in elf.segments.as_slice().iter().enumerate() {
        if i < 0x1_0000 && is_loaded(segment) {
            print_segment(rt, image, i as u32)?;
        }
    }
    println!(rt; "")
}

/// Prints the summary of an accepted file.
fn print_summary(rt: &HostRuntime, image: &Image) -> io::Result<()> {
    let bytes = summary(rt.alloc(), image)?;
    match str::from_utf8(&bytes) {
        Ok(text) => print!(rt; "\n{text}"),
        Err(_) => println!(rt; "no text"),
    }
}

/// Prints a number in hexadecimal, or `none`, behind a text.
fn print_number(rt: &HostRuntime, name: &str, number: Option<u32>) -> io::Result<()> {
    match number {
        Some(number) => print!(rt; "{name} {number:08x}"),
        None => print!(rt; "{name} none"),
    }
}

/// Prints what an image answers of an address.
fn print_address(rt: &HostRuntime, image: &Image, addr: u32) -> io::Result<()> {
    print!(rt; "\n{addr:08x}: ")?;
    print_number(rt, "word", image.code_word(addr))?;
    print_number(rt, " at", image.code_place(addr))?;
    print_number(rt, ", next", image.next_code_word(addr))?;
    print!(rt; ", site {:?}", image.site(addr))?;
    print!(rt; ", heap {}", image.is_heap_word(addr))
}

/// Prints what an image answers of the addresses that stand in a case, in hexadecimal.
fn print_addresses(rt: &HostRuntime, image: &Image, case: &str) -> io::Result<()> {
    for word in case.split_whitespace() {
        if let Ok(addr) = u32::from_str_radix(word, 16) {
            print_address(rt, image, addr)?;
        }
    }
    println!(rt; "")
}

/// Prints what a plan comes to for an image: `fits`, or the text of its fault. The plan's lines between the
/// first and the last are separated by ` | `.
fn print_plan(rt: &HostRuntime, image: &Image, lines: &str) -> io::Result<()> {
    let lines = lines.replace(rt.alloc(), " | ", "\n")?;
    let text = format!(in rt.alloc(); "halo-plan 1\n{lines}\nend\n")?;
    let Ok(plan) = read_plan(rt.alloc(), text.as_bytes()) else {
        return println!(rt; "no plan");
    };
    match check_plan(image, &plan) {
        Ok(()) => println!(rt; "fits"),
        Err(why) => println!(rt; "{why}"),
    }
}

/// Prints what a command answers for an image.
fn print_of(
    rt: &HostRuntime,
    command: &str,
    image: &Image,
    case: &str,
    plan: &str,
) -> io::Result<()> {
    match command {
        "accept" => println!(rt; "accepted"),
        "image" => print_description(rt, image),
        "show" => print_summary(rt, image),
        "look" => print_addresses(rt, image, case),
        "plan" => print_plan(rt, image, plan),
        _ => println!(rt; "no such command"),
    }
}

/// Prints what a command answers for the image of a file, or why the file isn't accepted.
pub fn print_image(
    rt: &HostRuntime,
    command: &str,
    file: &[u8],
    case: &str,
    plan: &str,
) -> io::Result<()>
    requires { length file.now < 2 ^ 32 }
{
    match accept(rt.alloc(), file) {
        Ok(image) => print_of(rt, command, &image, case, plan),
        Err(why) => println!(rt; "{why}"),
    }
}
