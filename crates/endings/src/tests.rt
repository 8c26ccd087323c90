// Each ending with its status and its line.
use crate::{BadFile, BadPlan, Ending, line, status};
use elf_read::{ElfRefusal, Table};
use exec_image::{FileRefusal, HeapName, ImagePart, PlanFault};
use machine_spec::FaultKind;
use plan_core::PlanRefusal;
use reloc_table::RelocRefusal;
use std::process::Abort;
use std::test::Fail;

fn check(rt: &impl Abort, ending: Ending, wanted: u8, text: &str) {
    assert_eq!(rt; status(ending), wanted);
    assert_eq!(rt; line(ending).as_str(), text);
}

#[test]
fn each_end_of_a_command_has_its_status_and_line(rt: HostRuntime) -> Result<(), Fail> {
    let (at, steps) = (0x10114, 7);
    let table = [
        (Ending::Done, 0, ""),
        (
            Ending::Exited {
                status: 3,
                steps: 12,
            },
            0,
            "exit 3 after 12 steps\n",
        ),
        (Ending::Usage(0), 64, "halo: usage: word 0\n"),
        (Ending::ReadFault, 67, "halo: read failed\n"),
        (Ending::WriteFault, 68, "halo: write failed\n"),
        (Ending::Memory, 69, "halo: out of memory\n"),
        (
            Ending::StillRunning { steps: 2 },
            70,
            "halo: still running after 2 steps\n",
        ),
        (
            Ending::Fault {
                kind: FaultKind::F2,
                at,
                steps,
            },
            71,
            "halo: fault F2 at 00010114 after 7 steps\n",
        ),
        (
            Ending::Illegal {
                at: 0x10100,
                steps: 0,
            },
            72,
            "halo: illegal at 00010100 after 0 steps\n",
        ),
    ];
    for (ending, status, text) in table {
        check(&rt, ending, status, text);
    }
    Ok(())
}

#[test]
fn each_refusal_of_headers_and_symbols_has_its_line(rt: HostRuntime) -> Result<(), Fail> {
    let table = [
        (ElfRefusal::NotElf, "halo: file: not elf\n"),
        (ElfRefusal::WrongClass(2), "halo: file: class 2\n"),
        (ElfRefusal::WrongOrder(2), "halo: file: byte order 2\n"),
        (ElfRefusal::WrongVersion, "halo: file: version\n"),
        (ElfRefusal::NotExec(3), "halo: file: type 3\n"),
        (ElfRefusal::NotRiscv(62), "halo: file: machine 62\n"),
        (ElfRefusal::Flags(0x1f), "halo: file: flags 0000001f\n"),
        (
            ElfRefusal::TableOut(Table::Program),
            "halo: file: program headers out\n",
        ),
        (
            ElfRefusal::TableOut(Table::Section),
            "halo: file: section headers out\n",
        ),
        (
            ElfRefusal::TooMany(101),
            "halo: file: program headers 101\n",
        ),
        (
            ElfRefusal::SegmentKind { index: 12, kind: 3 },
            "halo: file: segment 12 kind 00000003\n",
        ),
        (ElfRefusal::SegmentOut(0), "halo: file: segment 0 out\n"),
        (
            ElfRefusal::SegmentOverlap(1),
            "halo: file: segment 1 overlaps\n",
        ),
        (
            ElfRefusal::TooLarge(134217729),
            "halo: file: 134217729 bytes\n",
        ),
        (ElfRefusal::SectionOut(2), "halo: file: section 2 out\n"),
        (ElfRefusal::NameOut(3), "halo: file: symbol 3 name out\n"),
    ];
    for (why, text) in table {
        let ending = Ending::File(BadFile::Refused(FileRefusal::Elf(why)));
        check(&rt, ending, 65, text);
    }
    Ok(())
}

#[test]
fn each_refusal_of_relocations_has_its_line(rt: HostRuntime) -> Result<(), Fail> {
    let longest = RelocRefusal::SymbolOut {
        section: 4294967295,
        entry: 4294967294,
    };
    let table = [
        (RelocRefusal::NoRelocs, "halo: file: no relocations\n"),
        (
            RelocRefusal::EntrySize(2),
            "halo: file: section 2 entry size\n",
        ),
        (
            longest,
            "halo: file: section 4294967295 entry 4294967294 symbol out\n",
        ),
        (RelocRefusal::Tls(0x10100), "halo: file: tls at 00010100\n"),
        (
            RelocRefusal::Compressed(0xfffffffe),
            "halo: file: compressed at fffffffe\n",
        ),
    ];
    for (why, text) in table {
        let ending = Ending::File(BadFile::Refused(FileRefusal::Relocs(why)));
        check(&rt, ending, 65, text);
    }
    Ok(())
}

#[test]
fn each_refusal_of_an_image_has_its_line(rt: HostRuntime) -> Result<(), Fail> {
    let table = [
        (
            FileRefusal::ExecNotWords(1),
            "halo: file: section 1 not words\n",
        ),
        (
            FileRefusal::ExecOutside(10),
            "halo: file: section 10 outside\n",
        ),
        (
            FileRefusal::EntryOut(0x10102),
            "halo: file: entry 00010102 out\n",
        ),
        (
            FileRefusal::HeapEntryTwice(HeapName::Malloc),
            "halo: file: malloc twice\n",
        ),
        (
            FileRefusal::HeapEntryTwice(HeapName::Calloc),
            "halo: file: calloc twice\n",
        ),
        (
            FileRefusal::HeapEntrySmall(HeapName::Realloc),
            "halo: file: realloc small\n",
        ),
        (
            FileRefusal::HeapEntrySmall(HeapName::Free),
            "halo: file: free small\n",
        ),
        (
            FileRefusal::HeapEntrySmall(HeapName::MallocR),
            "halo: file: _malloc_r small\n",
        ),
        (
            FileRefusal::AlreadyRewritten,
            "halo: file: already rewritten\n",
        ),
        (
            FileRefusal::ImageTooLarge(ImagePart::Headers),
            "halo: file: image headers\n",
        ),
        (
            FileRefusal::ImageTooLarge(ImagePart::Bytes),
            "halo: file: image bytes\n",
        ),
        (
            FileRefusal::ImageTooLarge(ImagePart::End),
            "halo: file: image end\n",
        ),
        (FileRefusal::TpUsed(0x1012c), "halo: file: x4 at 0001012c\n"),
    ];
    for (why, text) in table {
        check(&rt, Ending::File(BadFile::Refused(why)), 65, text);
    }
    check(
        &rt,
        Ending::File(BadFile::TooLong),
        65,
        "halo: file: too long\n",
    );
    Ok(())
}

#[test]
fn each_refusal_of_a_plan_has_its_line(rt: HostRuntime) -> Result<(), Fail> {
    let table = [
        (BadPlan::TooLong, "halo: plan: too long\n"),
        (BadPlan::Text(PlanRefusal::Line(3)), "halo: plan: line 3\n"),
        (
            BadPlan::Text(PlanRefusal::TooMany(35)),
            "halo: plan: too many at line 35\n",
        ),
        (
            BadPlan::Misfit(PlanFault::PlanSite(0x10104)),
            "halo: plan: site 00010104\n",
        ),
        (
            BadPlan::Misfit(PlanFault::PlanBit(32)),
            "halo: plan: bit 32\n",
        ),
        (
            BadPlan::Misfit(PlanFault::PlanRow(64)),
            "halo: plan: row 64\n",
        ),
        (
            BadPlan::Misfit(PlanFault::AreaTooLarge),
            "halo: plan: area\n",
        ),
        (
            BadPlan::Misfit(PlanFault::SiteOutOfReach(0x11010)),
            "halo: plan: site 00011010 out of reach\n",
        ),
    ];
    for (why, text) in table {
        check(&rt, Ending::Plan(why), 66, text);
    }
    Ok(())
}
