// What terms are made of.
use message::Kind;

// What an atom of a term is: the agent that plays the role, which the format calls `self`; the variable of a number; or the named agent, nonce or text of a number.
#[derive(Clone, Copy, Debug, PartialEq, Eq)]
pub enum Field {
    Player,
    Variable(usize),
    Named(Kind, usize),
}

// One node of a term in prefix order: an atom; a pair, whose two terms follow; the key of two agents; or a seal under such a key, whose content follows.
#[derive(Clone, Copy, Debug, PartialEq, Eq)]
pub enum Node {
    Leaf(Field),
    Pair,
    Key(Field, Field),
    Seal(Field, Field),
}

// What a variable stands for: a nonce that the session makes itself, or an atom of a kind.
#[derive(Clone, Copy, Debug, PartialEq, Eq)]
pub enum Sort {
    Fresh,
    Plain(Kind),
}
