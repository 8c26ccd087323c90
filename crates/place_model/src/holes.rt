// The holes of the fallback, in ascending order.
ghost use Rattle.std.specs.Prelude.{◌≡◌, ℕ, ◌+◌, ◌-◌, ◌^◌, ◌<◌, ◌≤◌, ◌↔◌, ◌==◌, nat_le, length, position, All};
ghost use Rattle.std.specs.Prelude.{AllPairs, IsTrue, insert, vec_capacity};
ghost use Rattle.place_spec.specs.Layout.{hole_of};
ghost use Rattle.place_spec.specs.Place.{cut_holes};
ghost use Rattle.place_spec.specs.Release.{with_hole};
ghost use Rattle.place_spec.specs.Sound.{Apart};

use place_spec::Hole;

/// The number of the first hole that is long enough.
pub fn first_long_enough(holes: &[Hole], need: u32) -> Option<usize>
    ensures { result ≡ position (λ h. nat_le need h.length) holes.now }
{
    holes.iter().position(|hole| need <= hole.length)
}

/// Takes granules from the front of hole `number`; gives the first.
pub fn cut_front(holes: &mut Vec<Hole>, number: usize, need: u32) -> u32
    requires number { number < length holes.old.items }
    requires need { need ≤ (hole_of holes.old.items number).length }
    requires end { (hole_of holes.old.items number).start + (hole_of holes.old.items number).length < 2 ^ 32 }
    ensures granule { result ≡ (hole_of holes.old.items number).start }
    ensures holes { holes.new.items ≡ cut_holes need number holes.old.items }
    ensures capacity { vec_capacity holes.new ≡ vec_capacity holes.old }
{
    let hole = holes[number];
    if hole.length == need {
        holes.remove(number);
    } else {
        holes[number] = Hole {
            start: hole.start + need,
            length: hole.length - need,
        };
    }
    hole.start
}

// How many holes begin below a granule.
fn holes_below(holes: &[Hole], granule: u32) -> usize
    requires { AllPairs (λ h x. h.start + h.length < x.start) holes.now }
    ensures bound { result ≤ length holes.now }
    ensures below { (k : ℕ) → k < result → (hole_of holes.now k).start < granule }
    ensures above { (k : ℕ) → result ≤ k → k < length holes.now → granule ≤ (hole_of holes.now k).start }
{
    holes.partition_point(|hole| hole.start < granule)
}

// Whether the hole below place `at` ends where `hole` begins.
fn touches_below(holes: &[Hole], at: usize, hole: Hole) -> bool
    requires at { at ≤ length holes.now }
    requires ends { All (λ h. h.start + h.length < 2 ^ 32) holes.now }
    ensures { IsTrue result ↔ ((0 < at)
        × ((hole_of holes.now (at - 1)).start + (hole_of holes.now (at - 1)).length ≡ hole.start)) }
{
    if at == 0 {
        return false;
    }
    let below = holes[at - 1];
    below.start + below.length == hole.start
}

// Whether the hole at place `at` begins where `hole` ends.
fn touches_above(holes: &[Hole], at: usize, hole: Hole) -> bool
    requires { hole.start + hole.length < 2 ^ 32 }
    ensures { IsTrue result ↔ ((at < length holes.now)
        × (hole.start + hole.length ≡ (hole_of holes.now at).start)) }
{
    at < holes.len() && hole.start + hole.length == holes[at].start
}

// Sets a hole of a list without joining it.
fn insert_hole(holes: &mut Vec<Hole>, at: usize, hole: Hole)
    requires at { at ≤ length holes.old.items }
    requires room { length holes.old.items < vec_capacity holes.old }
    ensures holes { holes.new.items ≡ insert holes.old.items at hole }
    ensures capacity { vec_capacity holes.new ≡ vec_capacity holes.old }
{
    match holes.insert(at, hole) {
        Ok(()) => (),
        Err(_) => unreachable!(),
    }
}

/// Adds a hole to ascending ones that it shares no granule with, and joins it with those that it touches.
pub fn add_hole(holes: &mut Vec<Hole>, hole: Hole)
    requires ascending { AllPairs (λ h x. h.start + h.length < x.start) holes.old.items }
    requires filled { All (λ h. 0 < h.length) holes.old.items }
    requires apart { All (λ h. Apart hole.start hole.length h.start h.length) holes.old.items }
    requires ends { All (λ h. h.start + h.length < 2 ^ 32) holes.old.items }
    requires hole { (0 < hole.length) × (hole.start + hole.length < 2 ^ 32) }
    requires room { length (with_hole hole holes.old.items) ≤ vec_capacity holes.old }
    ensures holes { holes.new.items ≡ with_hole hole holes.old.items }
    ensures capacity { vec_capacity holes.new ≡ vec_capacity holes.old }
{
    let at = holes_below(holes.as_slice(), hole.start);
    let below = touches_below(holes.as_slice(), at, hole);
    let above = touches_above(holes.as_slice(), at, hole);
    match (below, above) {
        (true, true) => {
            let first = holes[at - 1];
            let last = holes.remove(at);
            holes[at - 1] = Hole {
                start: first.start,
                length: first.length + (hole.length + last.length),
            };
        }
        (true, false) => {
            let first = holes[at - 1];
            holes[at - 1] = Hole {
                start: first.start,
                length: first.length + hole.length,
            };
        }
        (false, true) => {
            holes[at] = Hole {
                start: hole.start,
                length: hole.length + holes[at].length,
            };
        }
        (false, false) => insert_hole(holes, at, hole),
    }
}
