// Worked texts of plans: read, written and refused.
use crate::{Area, Plan, PlanLine, PlanRefusal, Row, group_of, read_plan, write_plan};
use std::alloc::{AllocError, Global};
use std::test::Fail;
use vec_list::VecList;

const EMPTY: &str = "halo-plan 1\narea 0 0 0\nend\n";

const TWO_CONTEXTS: &str =
    "halo-plan 1\narea 64 8 65536\nsite 0 00010110\nsite 1 00010114\nrow 0 00000001\nrow 1 00000002\nend\n";

const WIDEST: &str =
    "halo-plan 1\narea 4294967295 255 4294967295\nsite 255 ffffffff\nrow 255 89abcdef\nend\n";

// The text of a plan with this many sites and rows, and `tail` for its last line.
fn text_of_counts(
    alloc: Global,
    sites: usize,
    rows: usize,
    tail: &str,
) -> Result<Vec<u8>, AllocError> {
    let mut text = Vec::new(alloc);
    text.extend_from_slice(b"halo-plan 1\narea 0 0 0\n")?;
    for _ in 0..sites {
        text.extend_from_slice(b"site 7 00010000\n")?;
    }
    for _ in 0..rows {
        text.extend_from_slice(b"row 7 00000080\n")?;
    }
    text.extend_from_slice(tail.as_bytes())?;
    Ok(text)
}

// Why a text is refused.
fn refusal_of(alloc: Global, text: &[u8]) -> Option<PlanRefusal> {
    match read_plan(alloc, text) {
        Ok(_) => None,
        Err(refusal) => Some(refusal),
    }
}

#[test]
fn reads_worked_plans(rt: HostRuntime) -> Result<(), Fail> {
    let empty = read_plan(rt.alloc(), EMPTY.as_bytes())?;
    assert_eq!(rt; empty.sites.as_slice().len(), 0);
    assert_eq!(rt; empty.rows.as_slice().len(), 0);
    let plan = read_plan(rt.alloc(), TWO_CONTEXTS.as_bytes())?;
    let sites = [
        PlanLine {
            bit: 0,
            addr: 0x10110,
        },
        PlanLine {
            bit: 1,
            addr: 0x10114,
        },
    ];
    let rows = [Row { group: 0, mask: 1 }, Row { group: 1, mask: 2 }];
    let area = Area {
        chunks: 64,
        log_chunk: 8,
        fallback: 65536,
    };
    assert_eq!(rt; plan.sites.as_slice(), sites.as_slice());
    assert_eq!(rt; plan.rows.as_slice(), rows.as_slice());
    assert_eq!(rt; plan.area, area);
    Ok(())
}

#[test]
fn writes_back_what_it_read(rt: HostRuntime) -> Result<(), Fail> {
    for text in [EMPTY, TWO_CONTEXTS, WIDEST] {
        let plan = read_plan(rt.alloc(), text.as_bytes())?;
        assert!(rt; plan.sites.as_slice().len() <= 32);
        assert!(rt; plan.rows.as_slice().len() <= 64);
        let written = write_plan(rt.alloc(), &plan)?;
        assert_eq!(rt; written.as_slice(), text.as_bytes());
    }
    Ok(())
}

#[test]
fn refuses_at_the_first_bad_line(rt: HostRuntime) {
    let cases = [
        ("", 1),
        ("halo-plan 2\narea 0 0 0\nend\n", 1),
        ("halo-plan 1\r\narea 0 0 0\nend\n", 1),
        ("halo-plan 1\n", 2),
        ("halo-plan 1\nend\n", 2),
        ("halo-plan 1\narea 00 0 0\nend\n", 2),
        ("halo-plan 1\narea 0  0 0\nend\n", 2),
        ("halo-plan 1\narea 0 0\nend\n", 2),
        ("halo-plan 1\narea 0 0 0 \nend\n", 2),
        ("halo-plan 1\narea 4294967296 0 0\nend\n", 2),
        ("halo-plan 1\narea 0 256 0\nend\n", 2),
        ("halo-plan 1\narea 0 0 4294967296\nend\n", 2),
        ("halo-plan 1\narea 0 0 0\n", 3),
        ("halo-plan 1\narea 0 0 0\nend", 3),
        ("halo-plan 1\narea 0 0 0\nsite 01 00010110\nend\n", 3),
        ("halo-plan 1\narea 0 0 0\nsite 256 00010110\nend\n", 3),
        ("halo-plan 1\narea 0 0 0\nsite 1 0001011A\nend\n", 3),
        ("halo-plan 1\narea 0 0 0\nsite 1 0010110\nend\n", 3),
        ("halo-plan 1\narea 0 0 0\nsite 1 000010110\nend\n", 3),
        ("halo-plan 1\narea 0 0 0\nrow 256 00000001\nend\n", 3),
        ("halo-plan 1\narea 0 0 0\nrow +1 00000001\nend\n", 3),
        ("halo-plan 1\narea 0 0 0\narea 0 0 0\nend\n", 3),
        ("halo-plan 1\narea 0 0 0\nend\nend\n", 4),
        ("halo-plan 1\narea 0 0 0\nend\n\n", 4),
        (
            "halo-plan 1\narea 0 0 0\nrow 1 00000001\nsite 1 00010110\nend\n",
            4,
        ),
    ];
    for (text, line) in cases {
        assert_eq!(rt;
            refusal_of(rt.alloc(), text.as_bytes()),
            Some(PlanRefusal::Line(line)),
            "{text}"
        );
    }
}

#[test]
fn counts_sites_and_rows(rt: HostRuntime) -> Result<(), Fail> {
    let cases = [
        (32, 64, "end\n", None),
        (33, 0, "end\n", Some(PlanRefusal::TooMany(35))),
        (33, 65, "", Some(PlanRefusal::TooMany(35))),
        (0, 65, "end\n", Some(PlanRefusal::TooMany(67))),
        (32, 65, "end\n", Some(PlanRefusal::TooMany(99))),
        (32, 0, "site 7 0001000\n", Some(PlanRefusal::Line(35))),
        (32, 1, "site 7 00010000\n", Some(PlanRefusal::Line(36))),
        (32, 64, "end", Some(PlanRefusal::Line(99))),
    ];
    for (sites, rows, tail, refusal) in cases {
        let text = text_of_counts(rt.alloc(), sites, rows, tail)?;
        assert_eq!(rt;
            refusal_of(rt.alloc(), text.as_slice()),
            refusal,
            "{sites} {rows} {tail}"
        );
    }
    Ok(())
}

#[test]
fn shows_refusals(rt: HostRuntime) -> Result<(), Fail> {
    let cases = [
        (PlanRefusal::Line(3), "line 3"),
        (PlanRefusal::TooMany(35), "too many at line 35"),
        (PlanRefusal::Memory, "out of memory"),
    ];
    for (refusal, text) in cases {
        assert_eq!(rt; refusal.to_string(rt.alloc())?.as_str(), text);
    }
    Ok(())
}

#[test]
fn gives_the_group_of_the_first_row(rt: HostRuntime) -> Result<(), Fail> {
    let mut plan = Plan {
        sites: VecList::new(rt.alloc()),
        rows: VecList::new(rt.alloc()),
        area: Area {
            chunks: 0,
            log_chunk: 0,
            fallback: 0,
        },
    };
    assert_eq!(rt; group_of(&plan, 7), None);
    plan.rows.push(Row { group: 3, mask: 3 })?;
    plan.rows.push(Row { group: 1, mask: 1 })?;
    for (bits, group) in [
        (0, None),
        (1, Some(1)),
        (2, None),
        (3, Some(3)),
        (5, Some(1)),
        (7, Some(3)),
    ] {
        assert_eq!(rt; group_of(&plan, bits), group, "{bits}");
    }
    plan.rows.push(Row { group: 9, mask: 0 })?;
    assert_eq!(rt; group_of(&plan, 2), Some(9));
    Ok(())
}
