// When two atoms, and two events, are the same.
ghost use Rattle.std.specs.Prelude.{◌≡◌};
ghost use Rattle.terms.specs.Same.{same_atom, same_signal};
ghost use Rattle.model.specs.Stored.{signal_of};

use model::{Node, Signal};

// The same word and the same atoms in order.
pub fn same_signal(a: &Signal, b: &Signal) -> bool
    ensures { result ≡ same_signal (signal_of a.now) (signal_of b.now) }
{
    // By the letters: with `==` of names the proof did not close, since it does not see that their padding is zeros.
    a.word.is(b.word.as_bytes()) && a.fields == b.fields
}

// The same nonce or text, or the key of the same agents in either order.
pub fn same_atom(a: Node, b: Node) -> bool
    ensures { result ≡ same_atom a b }
{
    match (a, b) {
        (Node::Leaf(field), Node::Leaf(other)) => field == other,
        (Node::Key(f, g), Node::Key(first, second)) => {
            (f == first && g == second) || (f == second && g == first)
        }
        _ => false,
    }
}
