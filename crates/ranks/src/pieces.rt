// The nodes of a message, read from its bytes.
ghost use Rattle.std.specs.Prelude.{◌≡◌, ◌+◌, ◌*◌, ◌<◌, ◌≤◌, [], ◌∷◌, ◌++◌, length};
ghost use Rattle.std.specs.Option.{option_map};
ghost use Rattle.ranks.specs.PieceBytes.{PiecesOf, front_piece};

use super::piece::Piece;
use super::stack::MOST;
use message::{Atom, is_message};
use std::marker::Model;

// The nodes of one message in prefix order.
#[derive(Drop)]
pub struct Pieces {
    pieces: [Piece; MOST],
    len: usize,
}

// Clauses see the nodes.
impl Model for Pieces {
    ghost use Rattle.std.specs.Prelude.{◌≤◌, List, take};
    ghost use Rattle.ranks.specs.declared.piece.Piece.{Piece};

    ghost Value = { List Piece };

    ghost view = { λ p. take p.len p.pieces };

    ghost invariant = { λ p. p.len ≤ 96 };
}

// A number from its two bytes, the high one first.
fn number(high: u8, low: u8) -> u16
    ensures { result ≡ high * 256 + low }
{
    u16::from_be_bytes([high, low])
}

// The node at the front of the bytes, and the bytes after it.
fn read_piece(bytes: &[u8]) -> Option<(Piece, &[u8])>
    ensures { option_map (λ r. (r.0, r.1.now)) result ≡ front_piece bytes.now }
{
    let [tag, body @ ..] = bytes else {
        return None;
    };
    match (*tag as char, body) {
        ('A', [n, rest @ ..]) => Some((Piece::Single(Atom::Agent(*n)), rest)),
        ('N', [high, low, rest @ ..]) => {
            Some((Piece::Single(Atom::Nonce(number(*high, *low))), rest))
        }
        ('T', [high, low, rest @ ..]) => {
            Some((Piece::Single(Atom::Text(number(*high, *low))), rest))
        }
        ('K', [a, b, rest @ ..]) => Some((Piece::Key(*a, *b), rest)),
        ('P', rest) => Some((Piece::Pair, rest)),
        ('E', [_, a, b, rest @ ..]) => Some((Piece::Seal(*a, *b), rest)),
        _ => None,
    }
}

impl Pieces {
    // No node yet.
    fn new() -> Pieces
        ensures { result ≡ [] }
    {
        Pieces {
            pieces: [Piece::Pair; MOST],
            len: 0,
        }
    }

    // One node more.
    fn push(&mut self, piece: Piece)
        requires { length self.old < 96 }
        ensures { self.new ≡ self.old ++ (piece ∷ []) }
    {
        self.pieces[self.len] = piece;
        self.len += 1;
    }

    // The nodes of the message that the bytes are, if they are one.
    pub fn of(bytes: &[u8]) -> Option<Pieces>
        ensures { PiecesOf bytes.now result }
    {
        if !is_message(bytes) {
            return None;
        }
        let mut pieces = Pieces::new();
        let mut rest = bytes;
        while let Some((piece, after)) = read_piece(rest) {
            pieces.push(piece);
            rest = after;
        }
        Some(pieces)
    }

    pub fn as_slice(&self) -> &[Piece]
        ensures all { result.now ≡ self.now }
        ensures few { length result.now ≤ 96 }
    {
        // Parts of arrays are lent as parts of a slice of the whole.
        let whole = &self.pieces[..];
        &whole[0..self.len]
    }
}
