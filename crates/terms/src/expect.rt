// What the words of a term may be, one after another.
use model::Field;

// What begins with two agents.
#[derive(Clone, Copy, Debug, PartialEq, Eq)]
pub enum Opening {
    Key,
    Seal,
}

// What the next word of a term has to be: the beginning of a term, or the first or second agent of a key or seal.
#[derive(Clone, Copy, Debug, PartialEq, Eq)]
pub enum Expect {
    Term,
    First(Opening),
    Second(Opening, Field),
}
