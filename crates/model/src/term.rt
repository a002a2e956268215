// A term as it is kept.
ghost use Rattle.std.specs.Prelude.{◌≡◌, true};
ghost use Rattle.model.specs.Trees.{arity, is_term, words_at};

use super::node::Node;

// No term has more words.
const MOST_WORDS: usize = 32;

// The nodes of one term in prefix order. It has at most 32 words.
#[derive(Drop)]
pub struct Term {
    nodes: Vec<Node>,
    ghost whole: { is_term nodes.items ≡ true },
}

impl Node {
    // How many terms belong to the node.
    fn arity(self) -> usize
        ensures { result ≡ arity self }
    {
        match self {
            Node::Leaf(_) | Node::Key(_, _) => 0,
            Node::Seal(_, _) => 1,
            Node::Pair => 2,
        }
    }

    // How many words of a line the node has.
    fn words(self) -> usize
        ensures { result ≡ words_at self }
    {
        match self {
            Node::Leaf(_) | Node::Pair => 1,
            Node::Key(_, _) | Node::Seal(_, _) => 3,
        }
    }
}

// Whether the nodes are one term of at most 32 words.
fn are_term(nodes: &[Node]) -> bool
    ensures { result ≡ is_term nodes.now }
{
    let mut wanted = 1;
    let mut words = 0;
    for node in nodes {
        if wanted == 0 {
            return false;
        }
        words += node.words();
        if words > MOST_WORDS {
            return false;
        }
        wanted = wanted - 1 + node.arity();
    }
    wanted == 0
}

impl Term {
    ghost use Rattle.std.specs.Prelude.{◌≤◌};
    ghost use Rattle.model.specs.Stored.{Whole, term_of};
    ghost use Rattle.model.specs.Trees.{prefix, word_count};

    // The term of these nodes, if they are one.
    pub fn new(nodes: Vec<Node>) -> Option<Term>
        ensures { Whole nodes.items result }
    {
        // No `then_some`, which would make a term of any nodes.
        if !are_term(nodes.as_slice()) {
            return None;
        }
        Some(Term { nodes })
    }

    // Its nodes in prefix order.
    pub fn nodes(&self) -> &[Node]
        ensures order { result.now ≡ prefix (term_of self.now) }
        ensures short { word_count result.now ≤ 32 }
    {
        self.nodes.as_slice()
    }
}
