// Where a variable of a role stands, and whether it is received.
ghost use Rattle.std.specs.Prelude.{◌≡◌};
ghost use Rattle.model.specs.Stored.{role_of, sealed_of, step_of, term_of};
ghost use Rattle.model.specs.Variables.{received, receives, stands_among, stands_at, stands_at_some, stands_in, stands_in_step};

use super::node::{Field, Node};
use super::stored::{Role, Sealed, Step};
use super::term::Term;

// Whether the variable is an atom of this one node.
fn stands_at(node: Node, variable: usize) -> bool
    ensures { result ≡ stands_at variable node }
{
    let atom = Field::Variable(variable);
    match node {
        Node::Leaf(field) => field == atom,
        Node::Pair => false,
        Node::Key(first, second) | Node::Seal(first, second) => first == atom || second == atom,
    }
}

fn stands_at_some(nodes: &[Node], variable: usize) -> bool
    ensures { result ≡ stands_at_some variable nodes.now }
{
    nodes.iter().any(|node| stands_at(*node, variable))
}

// Whether the variable stands in the term.
#[tactic(auto, using(crate::proofs::Standings::stands_by_nodes))]
fn stands_in(term: &Term, variable: usize) -> bool
    ensures { result ≡ stands_in variable (term_of term.now) }
{
    stands_at_some(term.nodes(), variable)
}

fn stands_among(fields: &[Field], variable: usize) -> bool
    ensures { result ≡ stands_among variable fields.now }
{
    fields.contains(&Field::Variable(variable))
}

fn stands_in_step(step: &Step, variable: usize) -> bool
    ensures { result ≡ stands_in_step variable (step_of step.now) }
{
    match step {
        Step::Send(term) | Step::Receive(term) => stands_in(term, variable),
        Step::Signal(signal) => stands_among(&signal.fields, variable),
    }
}

impl Sealed {
    // Whether the variable stands in it.
    pub fn has_variable(&self, variable: usize) -> bool
        ensures { result ≡ stands_in variable (sealed_of self.now) }
    {
        let atom = Field::Variable(variable);
        self.first == atom || self.second == atom || stands_in(&self.content, variable)
    }
}

impl Step {
    // Whether it receives a term.
    pub fn receives(&self) -> bool
        ensures { result ≡ receives (step_of self.now) }
    {
        matches!(self, Step::Receive(_))
    }
}

impl Role {
    // Whether the variable of this number is received: the first step in which it stands receives.
    pub fn is_received(&self, variable: usize) -> bool
        ensures { result ≡ received variable (role_of self.now).steps }
    {
        self.steps
            .iter()
            .find(|step| stands_in_step(step, variable))
            .is_some_and(Step::receives)
    }
}
