// Where the calls of site lines come back to.
ghost use Rattle.std.specs.Prelude.{◌≡◌, ◌<◌, All, find, map, option_map, IfOk};
ghost use Rattle.site_spec.specs.Sites.{site_at};
ghost use Rattle.sym_machine.specs.Found.{return_of, comes_to};

use exec_image::Image;
use plan_core::PlanLine;
use std::alloc::{AllocError, Global};

/// The return address of a line's call, and the mask of its bit.
#[derive(Clone, Copy, Debug)]
pub struct Return {
    pub back: Option<u32>,
    pub mask: u32,
}

impl Return {
    fn comes_to(&self, addr: u32) -> bool
        ensures { result ≡ comes_to addr self.now }
    {
        match self.back {
            Some(back) => back == addr,
            None => false,
        }
    }
}

/// The returns of a plan's lines, in their order.
pub fn read_returns(
    alloc: Global,
    image: &Image,
    lines: &[PlanLine],
) -> Result<Vec<Return>, AllocError>
    requires { All (λ line. line.bit < 32) lines.now }
    ensures { IfOk result (λ returns. returns.items ≡ map (return_of image.now) lines.now) }
{
    let mut returns = Vec::with_capacity(alloc, lines.len())?;
    for line in lines {
        returns.push(return_of(image, *line))?;
    }
    Ok(returns)
}

fn return_of(image: &Image, line: PlanLine) -> Return
    requires { line.bit < 32 }
    ensures { result ≡ return_of image.now line }
{
    Return {
        back: back_of(image, line.addr),
        mask: 1 << line.bit,
    }
}

fn back_of(image: &Image, addr: u32) -> Option<u32>
    ensures { result ≡ option_map (λ s. s.back) (site_at image.now addr) }
{
    match image.site(addr) {
        Some(site) => Some(site.back),
        None => None,
    }
}

/// The mask of the first return that comes to an address.
pub fn mask_back(returns: &[Return], addr: u32) -> Option<u32>
    ensures { result ≡ option_map (λ r. r.mask) (find (comes_to addr) returns.now) }
{
    for r in returns {
        if r.comes_to(addr) {
            return Some(r.mask);
        }
    }
    None
}
