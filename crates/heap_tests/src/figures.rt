// How many instructions the heap functions take, and a first block in either part of the area.
use crate::counting::{Outcome, serve_all};
use crate::programs::Request;
use plan_core::{Area, Row};
use std::alloc::{AllocError, Global};
use std::process::Abort;
use std::test::Fail;

/// Rows of which only the last holds for the bits 1, and none for the bits 0x8000.
const ONE: [Row; 1] = [Row { group: 0, mask: 1 }];

const FOUR: [Row; 4] = [
    Row { group: 3, mask: 2 },
    Row { group: 4, mask: 3 },
    Row { group: 5, mask: 5 },
    Row { group: 0, mask: 1 },
];

const SIXTEEN: [Row; 16] = [
    Row { group: 1, mask: 2 },
    Row { group: 2, mask: 3 },
    Row { group: 3, mask: 4 },
    Row { group: 4, mask: 5 },
    Row { group: 5, mask: 6 },
    Row { group: 6, mask: 7 },
    Row { group: 7, mask: 8 },
    Row { group: 8, mask: 9 },
    Row { group: 9, mask: 10 },
    Row {
        group: 10,
        mask: 11,
    },
    Row {
        group: 11,
        mask: 12,
    },
    Row {
        group: 12,
        mask: 13,
    },
    Row {
        group: 13,
        mask: 14,
    },
    Row {
        group: 14,
        mask: 15,
    },
    Row {
        group: 15,
        mask: 16,
    },
    Row { group: 0, mask: 1 },
];

/// Four chunks of 128 granules, and 256 in the fallback.
const AREA: Area = Area {
    chunks: 4,
    log_chunk: 7,
    fallback: 256,
};

/// Where the blocks of this area begin: in the fallback, and in chunks.
const FALLBACK_AT: u32 = 0x178c0;

const CHUNKS_AT: u32 = 0x188c0;

/// A first block, and one of 1, 2, 7 and 63 granules.
const BLOCKS: [Request; 5] = [
    Request::Malloc { size: 16 },
    Request::Malloc { size: 16 },
    Request::Malloc { size: 24 },
    Request::Malloc { size: 100 },
    Request::Malloc { size: 1000 },
];

const GRANULES: [u32; 4] = [1, 2, 7, 63];

/// At most so many instructions for each block behind the first, and 7 a granule.
fn takes_few(rt: &impl Abort, outcome: &Outcome, most: u32) {
    for (served, granules) in outcome.served.iter().skip(1).zip(&GRANULES) {
        let bound = granules.wrapping_mul(7).wrapping_add(most);
        assert!(rt; served.count <= bound, "{served:?} {most}");
    }
}

#[test]
fn blocks_in_chunks_take_62_and_4_a_row(rt: HostRuntime) -> Result<(), Fail> {
    let outcome = serve_all(&rt, rt.alloc(), &ONE, AREA, 1, &BLOCKS)?;
    takes_few(&rt, &outcome, 66);
    let outcome = serve_all(&rt, rt.alloc(), &FOUR, AREA, 1, &BLOCKS)?;
    takes_few(&rt, &outcome, 78);
    let outcome = serve_all(&rt, rt.alloc(), &SIXTEEN, AREA, 1, &BLOCKS)?;
    takes_few(&rt, &outcome, 126);
    Ok(())
}

#[test]
fn blocks_in_the_first_hole_take_60_and_4_a_row(rt: HostRuntime) -> Result<(), Fail> {
    let outcome = serve_all(&rt, rt.alloc(), &ONE, AREA, 0x8000, &BLOCKS)?;
    takes_few(&rt, &outcome, 64);
    let outcome = serve_all(&rt, rt.alloc(), &FOUR, AREA, 0x8000, &BLOCKS)?;
    takes_few(&rt, &outcome, 76);
    let outcome = serve_all(&rt, rt.alloc(), &SIXTEEN, AREA, 0x8000, &BLOCKS)?;
    takes_few(&rt, &outcome, 124);
    Ok(())
}

/// Requests that leave so many holes of one granule, with a block of one granule behind each, and then
/// release a block between two others.
fn with_holes(alloc: Global, holes: u32) -> Result<Vec<Request>, AllocError> {
    let mut requests = Vec::new(alloc);
    for _ in 0..holes {
        requests.push(Request::Malloc { size: 16 })?;
        requests.push(Request::Malloc { size: 16 })?;
    }
    requests.push(Request::Malloc { size: 16 })?;
    requests.push(Request::Malloc { size: 16 })?;
    for hole in 0..holes {
        let at = hole.wrapping_mul(32).wrapping_add(FALLBACK_AT);
        requests.push(Request::Free { at })?;
    }
    let at = holes.wrapping_mul(32).wrapping_add(FALLBACK_AT);
    requests.push(Request::Free { at })?;
    Ok(requests)
}

#[test]
fn a_release_takes_30_and_5_a_hole(rt: HostRuntime) -> Result<(), Fail> {
    for (holes, most) in [(0, 30), (10, 80), (100, 530)] {
        let requests = with_holes(rt.alloc(), holes)?;
        let outcome = serve_all(&rt, rt.alloc(), &ONE, AREA, 0, &requests)?;
        let last = outcome.served.last().expect(&rt, "a request");
        assert!(rt; last.count <= most, "{last:?} {most}");
        assert_eq!(rt; outcome.first_hole, 0);
    }
    Ok(())
}

#[test]
fn blocks_of_a_chunk_are_released_and_moved(rt: HostRuntime) -> Result<(), Fail> {
    let requests = [
        Request::Malloc { size: 16 },
        Request::Calloc { number: 3, size: 8 },
        Request::Realloc {
            at: CHUNKS_AT,
            size: 32,
        },
        Request::Free { at: CHUNKS_AT + 48 },
        Request::Free { at: CHUNKS_AT + 16 },
        Request::Malloc { size: 16 },
    ];
    let outcome = serve_all(&rt, rt.alloc(), &ONE, AREA, 1, &requests)?;
    for (served, most) in outcome.served.iter().zip(&[73, 80, 137, 26, 32, 73]) {
        assert!(rt; served.count <= *most, "{served:?} {most}");
    }
    for (place, answer) in [(0, 0x188c0), (1, 0x188d0), (2, 0x188f0), (5, 0x188c0)] {
        let served = outcome.served.get(place).expect(&rt, "an answer");
        assert_eq!(rt; served.answer, answer);
    }
    Ok(())
}

#[test]
fn the_first_block_of_a_small_area(rt: HostRuntime) -> Result<(), Fail> {
    let area = Area {
        chunks: 1,
        log_chunk: 2,
        fallback: 4,
    };
    for (bits, answer, first_hole) in [(0, 0x160d0, 2), (1, 0x16110, 0)] {
        let requests = [Request::Malloc { size: 24 }];
        let outcome = serve_all(&rt, rt.alloc(), &ONE, area, bits, &requests)?;
        for served in &outcome.served {
            assert_eq!(rt; served.answer, answer);
        }
        assert_eq!(rt; outcome.first_hole, first_hole);
    }
    Ok(())
}
