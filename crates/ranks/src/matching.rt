// Whether some values of the free variables turn a line's term into a message. Both are compared node by node, and the values are settled as the
// fields are met. Only the owners of a key leave a choice, since they come in no order.
ghost use Rattle.std.specs.Prelude.{◌≡◌, [], ◌∷◌, map};
ghost use Rattle.model.specs.Stored.{sealed_of, variable_of};
ghost use Rattle.model.specs.Trees.{prefix, tree};
ghost use Rattle.ranks.specs.Matching.{allows, in_order, in_some_order, is_atom, is_kind, kind_of_free, may_stand, same, settled_of, solves};

use super::piece::Piece;
use message::{Atom, Kind};
use model::{Field, Node, Sealed, Sort, Variable};

// What the fields that were met stand for, the last one first.
#[derive(Clone, Copy)]
pub enum Settled<'a> {
    Nothing,
    Also(Field, Atom, &'a Settled<'a>),
}

// Whether the atom is the one of this kind and number.
pub fn is_atom(kind: Kind, number: usize, atom: Atom) -> bool
    ensures { result ≡ is_atom kind number atom }
{
    match (kind, atom) {
        (Kind::Agent, Atom::Agent(n)) => number == usize::from(n),
        (Kind::Nonce, Atom::Nonce(n)) | (Kind::Text, Atom::Text(n)) => number == usize::from(n),
        _ => false,
    }
}

// Whether the atom is one of the kind.
pub fn is_kind(kind: Kind, atom: Atom) -> bool
    ensures { result ≡ is_kind kind atom }
{
    matches!(
        (kind, atom),
        (Kind::Agent, Atom::Agent(_)) | (Kind::Nonce, Atom::Nonce(_)) | (Kind::Text, Atom::Text(_))
    )
}

// Whether a free variable of this number may stand for the atom.
fn may_be(free: &[Variable], number: usize, atom: Atom) -> bool
    ensures { result ≡ kind_of_free (map variable_of free.now) number atom }
{
    free.get(number)
        .is_some_and(|variable| match variable.sort {
            Sort::Fresh => is_kind(Kind::Nonce, atom),
            Sort::Plain(kind) => is_kind(kind, atom),
        })
}

// Whether the variable stands for nothing but this atom so far.
fn allows(settled: &Settled, number: usize, atom: Atom) -> bool
    ensures { result ≡ allows (settled_of settled.now) number atom }
{
    match settled {
        Settled::Nothing => true,
        Settled::Also(field, other, before) => {
            (*field != Field::Variable(number) || *other == atom) && allows(before, number, atom)
        }
    }
}

// Whether the field may stand for the atom, as far as fields are settled.
pub fn may_stand(free: &[Variable], settled: &Settled, field: Field, atom: Atom) -> bool
    ensures { result ≡ may_stand (map variable_of free.now) (settled_of settled.now) field atom }
{
    match field {
        Field::Player => false,
        Field::Variable(number) => may_be(free, number, atom) && allows(settled, number, atom),
        Field::Named(kind, number) => is_atom(kind, number, atom),
    }
}

// Whether some values turn the nodes into the pieces at the front.
#[cycle(matching)]
pub fn solves(free: &[Variable], settled: &Settled, nodes: &[Node], pieces: &[Piece]) -> bool
    ensures { result ≡ solves (map variable_of free.now) (settled_of settled.now) nodes.now pieces.now }
{
    let Some((node, nodes)) = nodes.split_first() else {
        return true;
    };
    let Some((piece, pieces)) = pieces.split_first() else {
        return false;
    };
    match (*node, *piece) {
        (Node::Pair, Piece::Pair) => solves(free, settled, nodes, pieces),
        (Node::Leaf(field), Piece::Single(atom)) => {
            may_stand(free, settled, field, atom)
                && solves(free, &Settled::Also(field, atom, &*settled), nodes, pieces)
        }
        (Node::Key(first, second), Piece::Key(a, b))
        | (Node::Seal(first, second), Piece::Seal(a, b)) => {
            in_some_order(free, settled, (first, second), (a, b), nodes, pieces)
        }
        _ => false,
    }
}

// The same, where first the two fields are the owners of a key.
#[cycle(matching)]
pub fn in_some_order(
    free: &[Variable],
    settled: &Settled,
    fields: (Field, Field),
    owners: (u8, u8),
    nodes: &[Node],
    pieces: &[Piece],
) -> bool
    ensures { result ≡ in_some_order (λ more. solves (map variable_of free.now) more nodes.now pieces.now) (map variable_of free.now) (settled_of settled.now) fields.0 fields.1 owners.0 owners.1 }
{
    let (a, b) = owners;
    in_order(free, settled, fields, (a, b), nodes, pieces)
        || (a != b && in_order(free, settled, fields, (b, a), nodes, pieces))
}

// The same, where the owners come in this order.
#[cycle(matching)]
fn in_order(
    free: &[Variable],
    settled: &Settled,
    fields: (Field, Field),
    owners: (u8, u8),
    nodes: &[Node],
    pieces: &[Piece],
) -> bool
    ensures { result ≡ in_order (λ more. solves (map variable_of free.now) more nodes.now pieces.now) (map variable_of free.now) (settled_of settled.now) fields.0 fields.1 (Atom.Agent owners.0) (Atom.Agent owners.1) }
{
    let (first, second) = fields;
    let (a, b) = (Atom::Agent(owners.0), Atom::Agent(owners.1));
    let one = Settled::Also(first, a, &*settled);
    let both = Settled::Also(second, b, &one);
    may_stand(free, settled, first, a)
        && may_stand(free, &one, second, b)
        && solves(free, &both, nodes, pieces)
}

// Whether some values of the free variables turn a line's seal into the message at the front of the pieces.
pub fn gives(free: &[Variable], seal: &Sealed, pieces: &[Piece]) -> bool
    ensures { result ≡ solves (map variable_of free.now) [] (prefix (sealed_of seal.now)) pieces.now }
{
    match pieces.split_first() {
        Some((Piece::Seal(a, b), content)) => in_some_order(
            free,
            &Settled::Nothing,
            (seal.first, seal.second),
            (*a, *b),
            seal.content.nodes(),
            content,
        ),
        _ => false,
    }
}

// Whether a line's atom, in which only names stand for something, is the message at the front of the pieces.
pub fn lists(atom: Node, pieces: &[Piece]) -> bool
    ensures { result ≡ solves [] [] (prefix (tree (atom ∷ []))) pieces.now }
{
    match atom {
        Node::Leaf(_) | Node::Key(_, _) => solves(&[], &Settled::Nothing, &[atom], pieces),
        // A line has only atoms.
        Node::Pair | Node::Seal(_, _) => false,
    }
}
