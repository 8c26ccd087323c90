// The bytes that a source in memory has left.
ghost use Rattle.std.specs.Prelude.{◌≡◌, ◌<◌, length, min};
ghost use Rattle.halo_outside.specs.Seen.{IsMoved};

use std::marker::Model;

/// Bytes that are taken from the front. Contracts see the list of those left.
#[derive(Debug, Drop)]
pub struct BytesLeft {
    bytes: Vec<u8>,
    at: usize,
}

impl Model for BytesLeft {
    ghost use Rattle.std.specs.Prelude.{List, ℕ, ◌≤◌, length, drop};

    ghost Value = { List ℕ };

    ghost view = { λ left. drop left.at left.bytes.items };

    ghost invariant = { λ left. left.at ≤ length left.bytes.items };
}

impl BytesLeft {
    /// All of `bytes` are left.
    pub fn new(bytes: Vec<u8>) -> Self
        ensures { result ≡ bytes.items }
    {
        BytesLeft { bytes, at: 0 }
    }

    /// Moves at most `most` bytes to the front of `into`, and answers their number.
    pub fn move_front(&mut self, into: &mut [u8], most: usize) -> usize
        requires { 0 < most }
        ensures count { result ≡ min (min (length into.old) most) (length self.old) }
        ensures moved { IsMoved self.old self.new result into.old into.new }
    {
        let count = into.len().min(most).min(self.bytes.len() - self.at);
        into[..count].copy_from_slice(&self.bytes[self.at..self.at + count]);
        self.at += count;
        count
    }
}
