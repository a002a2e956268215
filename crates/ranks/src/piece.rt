// Messages node by node.
use message::Atom;

// One node of a message in prefix order: an atom; a pair, whose two halves follow; the key of two agents; or a seal under such a key, whose content follows.
#[derive(Clone, Copy)]
pub enum Piece {
    Single(Atom),
    Pair,
    Key(u8, u8),
    Seal(u8, u8),
}
