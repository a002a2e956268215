// Matching a message with the term that a step receives. Both are compared node by node, and each field binds its variable, or agrees with
// what is bound already.
ghost use Rattle.std.specs.Prelude.{◌≡◌, MatchOption, cond, map};
ghost use Rattle.model.specs.Stored.{variable_of};
ghost use Rattle.board.specs.Matching.{Becomes, bound, bound_key, bound_node, bound_variable, may_be_bound, matched, other_owner, variables_of};

use message::Atom;
use model::{Field, Node, Sort, Variable};
use ranks::{Piece, is_atom, is_kind};

// What is known of a role while a message is matched: the agent that plays it, and its variables.
#[derive(Clone, Copy)]
pub(super) struct Scope<'a> {
    pub player: u8,
    pub variables: &'a [Variable],
}

// What a session's variables stand for.
#[derive(Clone, Copy)]
pub(super) struct Bindings {
    pub slots: [Option<Atom>; 5],
}

// Puts the old bindings back, unless told to keep the new ones.
struct Undo<'a> {
    bindings: &'a mut Bindings,
    old: Bindings,
    keep: bool,
}

impl Drop for Undo<'_> {
    fn drop(self)
        ensures { self.exit.0.now ≡ cond self.entry.keep self.entry.bindings.now self.entry.old }
    {
        if !self.keep {
            *self.bindings = self.old;
        }
        let Undo {
            bindings: _,
            old: _,
            keep: _,
        } = self;
    }
}

// Whether an unbound variable of this number may be bound to the atom: the session makes its fresh ones itself.
fn may_be_bound(variables: &[Variable], number: usize, atom: Atom) -> bool
    ensures { result ≡ may_be_bound (map variable_of variables.now) number atom }
{
    variables
        .get(number)
        .is_some_and(|variable| match variable.sort {
            Sort::Fresh => false,
            Sort::Plain(kind) => is_kind(kind, atom),
        })
}

// The other owner of a key that has this one, or the same for a key of one agent twice.
fn other_owner(owner: u8, a: u8, b: u8) -> Option<u8>
    ensures { result ≡ other_owner owner a b }
{
    if a == owner {
        Some(b)
    } else if b == owner {
        Some(a)
    } else {
        None
    }
}

impl Bindings {
    // Binds a variable that is unbound.
    fn bind_variable(&mut self, scope: Scope, number: usize, atom: Atom) -> Option<()>
        ensures { Becomes (bound_variable scope.entry.player (variables_of scope.entry) self.old.slots number atom) self.new.slots result }
    {
        if let Some(bound) = *self.slots.get(number)? {
            return (bound == atom).then_some(());
        }
        if !may_be_bound(scope.variables, number, atom) {
            return None;
        }
        self.slots[number] = Some(atom);
        Some(())
    }

    // Lets a field stand for an atom.
    fn bind(&mut self, scope: Scope, field: Field, atom: Atom) -> Option<()>
        ensures { Becomes (bound scope.entry.player (variables_of scope.entry) self.old.slots field atom) self.new.slots result }
    {
        match field {
            Field::Player => (atom == Atom::Agent(scope.player)).then_some(()),
            Field::Variable(number) => self.bind_variable(scope, number, atom),
            Field::Named(kind, number) => is_atom(kind, number, atom).then_some(()),
        }
    }

    // Lets two fields stand for the owners of a key. In a script the first is the agent that plays the role.
    fn bind_key(&mut self, scope: Scope, fields: (Field, Field), owners: (u8, u8)) -> Option<()>
        ensures { Becomes (bound_key scope.entry.player (variables_of scope.entry) self.old.slots fields.0 fields.1 owners.0 owners.1) self.new.slots result }
    {
        let (first, second) = fields;
        let (a, b) = owners;
        if first != Field::Player {
            return None;
        }
        let other = other_owner(scope.player, a, b)?;
        self.bind(scope, second, Atom::Agent(other))
    }

    // Lets a node of the term stand for one of the message.
    fn bind_node(&mut self, scope: Scope, node: Node, piece: Piece) -> Option<()>
        ensures { Becomes (bound_node scope.entry.player (variables_of scope.entry) self.old.slots node piece) self.new.slots result }
    {
        match (node, piece) {
            (Node::Pair, Piece::Pair) => Some(()),
            (Node::Leaf(field), Piece::Single(atom)) => self.bind(scope, field, atom),
            (Node::Key(first, second), Piece::Key(a, b))
            | (Node::Seal(first, second), Piece::Seal(a, b)) => {
                self.bind_key(scope, (first, second), (a, b))
            }
            _ => None,
        }
    }

    // The same for all nodes. What is bound before a node that fails stays bound.
    fn bind_all(&mut self, scope: Scope, nodes: &[Node], pieces: &[Piece]) -> Option<()>
        ensures { Becomes (matched scope.entry.player (variables_of scope.entry) self.old.slots nodes.now pieces.now) self.new.slots result }
    {
        let Some((node, nodes)) = nodes.split_first() else {
            return pieces.is_empty().then_some(());
        };
        let (piece, pieces) = pieces.split_first()?;
        self.bind_node(scope, *node, *piece)?;
        self.bind_all(scope, nodes, pieces)
    }

    // The same, and where a node fails nothing is bound.
    pub(super) fn match_all(&mut self, scope: Scope, nodes: &[Node], pieces: &[Piece]) -> Option<()>
        ensures binds { Becomes (matched scope.entry.player (variables_of scope.entry) self.old.slots nodes.now pieces.now) self.new.slots result }
        ensures undone { MatchOption result (self.new ≡ self.old) (λ _. Unit {0}) }
    {
        let old = *self;
        let mut undo = Undo {
            bindings: self,
            old,
            keep: false,
        };
        undo.bindings.bind_all(scope, nodes, pieces)?;
        undo.keep = true;
        Some(())
    }
}
