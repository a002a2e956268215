// A few bytes kept in place, at most as many as the type says: made without memory that could be wanting, and copied like a number.
// So they are no `Vec`, and not the kit's `ArrayVec`, which is not copied.
#![tactic(auto)]

ghost use Rattle.std.specs.Prelude.{◌≡◌, ◌≤◌, [], length, take};
ghost use Rattle.short_bytes.specs.Appending.{Appends};

use std::marker::Model;
use thiserror::Error;

// At most MOST bytes. Zeros fill the rest, so that two that hold the same bytes are the same.
#[derive(Clone, Copy, Debug, PartialEq, Eq)]
pub struct ShortBytes<const MOST: usize> {
    bytes: [u8; MOST],
    len: usize,
}

// Clauses see the bytes that it holds.
impl<const MOST: usize> Model for ShortBytes<MOST> {
    ghost use Rattle.std.specs.Prelude.{◌≡◌, ℕ, ◌-◌, ◌≤◌, List, length, take, drop, replicate};
    ghost use Rattle.short_bytes.specs.Pads.{padded};

    ghost Value = { List ℕ };

    ghost view = { λ s. take s.len s.bytes };

    ghost invariant = { λ s. (s.len ≤ MOST) × (length s.bytes ≡ MOST) × (drop s.len s.bytes ≡ replicate (MOST - s.len) 0) };

    ghost inverse = { λ v. record { bytes = padded MOST v; len = length v } };

    ghost use Rattle.short_bytes.specs.Kept.{kept_whole};

    ghost inverse_ok = { λ a h. kept_whole MOST a.bytes a.len h };
}

// There is no room for so many bytes more.
#[derive(Clone, Copy, Debug, PartialEq, Eq, Error)]
#[error("no room")]
pub struct Full;

impl<const MOST: usize> ShortBytes<MOST> {
    // It holds nothing yet.
    pub fn new() -> Self
        ensures { result ≡ [] }
    {
        ShortBytes {
            bytes: [0; MOST],
            len: 0,
        }
    }

    // The first bytes of a text, as many as fit.
    pub fn front_of(text: &[u8]) -> Self
        ensures { result ≡ take MOST text.now }
    {
        let len = text.len().min(MOST);
        let mut bytes = [0; MOST];
        let whole = &mut bytes[..];
        whole[0..len].copy_from_slice(&text[0..len]);
        ShortBytes { bytes, len }
    }

    // What it holds.
    pub fn as_bytes(&self) -> &[u8]
        ensures bytes { result.now ≡ self.now }
        ensures few { length result.now ≤ MOST }
    {
        // Parts of arrays of any length are lent as parts of a slice of the whole.
        let whole = &self.bytes[..];
        &whole[0..self.len]
    }

    // Puts a piece behind what it holds. Where there is no room for the whole, nothing changes.
    pub fn append(&mut self, piece: &[u8]) -> Result<(), Full>
        ensures { Appends MOST piece.now self.old self.new result }
    {
        let from = self.len;
        if piece.len() > MOST - from {
            return Err(Full);
        }
        let to = from + piece.len();
        let whole = &mut self.bytes[..];
        whole[from..to].copy_from_slice(piece);
        self.len = to;
        Ok(())
    }
}
