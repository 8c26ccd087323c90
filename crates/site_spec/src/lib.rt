// The call sites of an executable and, in specs/, which plans fit it.
#![tactic(auto)]

/// A call whose return address is known: the `jal` or the `auipc` and `jalr` at `addr` goes to
/// `target` and comes back to `back`. It is `near` where a jump from it reaches every stub.
#[derive(Clone, Copy, Debug, PartialEq, Eq)]
pub struct Site {
    pub addr: u32,
    pub target: u32,
    pub back: u32,
    pub pair: bool,
    pub near: bool,
}
