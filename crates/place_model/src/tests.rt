// Worked rows: where blocks are placed, and what a release leaves.
use crate::{Chunk, Hole, Places, need_of};
use plan_core::{Area, Plan, PlanLines, Row, RowList};
use std::alloc::{AllocError, Global};
use std::test::Fail;

const BASE: u32 = 0x20000;

// Places over two chunks of four granules and eight granules of fallback, with group 0 for bit 0.
fn two_chunks(alloc: Global) -> Result<Places, AllocError> {
    let area = Area {
        chunks: 2,
        log_chunk: 2,
        fallback: 8,
    };
    let rows = [Row { group: 0, mask: 1 }];
    let plan = Plan {
        sites: PlanLines::new(alloc),
        rows: RowList::from(Vec::from_slice(alloc, &rows)?),
        area,
    };
    Places::new(alloc, &plan, BASE)
}

#[test]
fn blocks_without_group_stand_in_the_fallback(rt: HostRuntime) -> Result<(), Fail> {
    let mut places = two_chunks(rt.alloc())?;
    assert_eq!(rt; need_of(0), 1);
    assert_eq!(rt; need_of(16), 1);
    assert_eq!(rt; need_of(17), 2);
    assert_eq!(rt; need_of(u32::MAX), 0x1000_0000);
    assert_eq!(rt; places.place(1, 0), Some(0x20000));
    assert_eq!(rt; places.place(1, 0), Some(0x20010));
    Ok(())
}

#[test]
fn a_full_fallback_refuses(rt: HostRuntime) -> Result<(), Fail> {
    let mut places = two_chunks(rt.alloc())?;
    assert!(rt; places.fits(8, 0));
    assert_eq!(rt; places.place(8, 0), Some(0x20000));
    assert!(rt; !places.fits(1, 0));
    assert_eq!(rt; places.place(1, 0), None);
    assert_eq!(rt; places.holes().len(), 0);
    Ok(())
}

#[test]
fn releases_join_holes(rt: HostRuntime) -> Result<(), Fail> {
    let mut places = two_chunks(rt.alloc())?;
    let (Some(first), Some(second), Some(third)) = (
        places.place(2, 0),
        places.place(2, 0),
        places.place(2, 0),
    ) else {
        panic!(&rt; "a block was refused");
    };
    assert_eq!(rt; first, 0x20000);
    assert_eq!(rt; second, 0x20020);
    assert_eq!(rt; third, 0x20040);
    places.release(first);
    places.release(third);
    let apart = [
        Hole {
            start: 0,
            length: 2,
        },
        Hole {
            start: 4,
            length: 4,
        },
    ];
    assert!(rt; places.holes() == &apart[..]);
    places.release(second);
    let whole = [Hole {
        start: 0,
        length: 8,
    }];
    assert!(rt; places.holes() == &whole[..]);
    Ok(())
}

#[test]
fn blocks_of_a_group_stand_in_its_chunks(rt: HostRuntime) -> Result<(), Fail> {
    let mut places = two_chunks(rt.alloc())?;
    let (Some(first), Some(second)) = (places.place(4, 1), places.place(1, 1)) else {
        panic!(&rt; "a block was refused");
    };
    assert_eq!(rt; first, 0x20080);
    assert_eq!(rt; second, 0x200c0);
    places.release(first);
    let free = Chunk {
        owner: None,
        bump: 0,
        live: 0,
    };
    assert_eq!(rt; places.chunks().first().copied(), Some(free));
    assert_eq!(rt; places.place(4, 1), Some(0x20080));
    assert_eq!(rt; places.place(5, 1), Some(0x20000));
    assert_eq!(rt; places.move_to(second, 9, 1), None);
    Ok(())
}
