// Rows of numbers and the values that they are: what the search for the least breaking instance goes over.
ghost use Rattle.std.specs.Prelude.{◌≡◌, IfOk, map, Some};
ghost use Rattle.std.specs.Option.{option_map};
ghost use Rattle.model.specs.Stored.{nonce_of, sealed_of, variable_of};
ghost use Rattle.model.specs.Sheet.{is_for, named};
ghost use Rattle.ranks.specs.Ranks.{kind_of};
ghost use Rattle.sheet.specs.Kept.{contents_of};
ghost use Rattle.checker.specs.Kept.{choice_of};
ghost use Rattle.checker.specs.Rows.{any_of, choice, choice_at, counts, fitted, open_choices, own_nonce, role_choices, seal_slots};

use arrayvec::ArrayVec;
use instances::atom_at;
use message::{Atom, Kind};
use model::{Nonce, Sealed, Sort, Variable};
use search::{Counts, Place};
use sheet::Contents;
use std::alloc::{AllocError, Global};

// No role has more variables, and there are no more free ones.
const MOST: usize = 5;

// What variables stand for, in order; none where one stands for nothing.
pub(super) type Filled = ArrayVec<Option<Atom>, MOST>;

// How many numbers of the kind have a name.
fn named(contents: &Contents, kind: Kind) -> usize
    ensures { result ≡ named (contents_of contents.now) kind }
{
    match kind {
        Kind::Agent => contents.agents().len(),
        Kind::Nonce => contents.nonces().len(),
        Kind::Text => contents.texts().len(),
    }
}

// The same for each kind.
pub(super) fn counts(contents: &Contents) -> Counts
    ensures { result ≡ counts (contents_of contents.now) }
{
    Counts {
        agents: named(contents, Kind::Agent),
        nonces: named(contents, Kind::Nonce),
        texts: named(contents, Kind::Text),
    }
}

// The values that a row is, if it has just as many numbers as there are slots with a kind, each of its kind.
pub(super) fn fill(slots: &[Option<Kind>], row: &[u16]) -> Option<Filled>
    ensures { option_map (λ v. v.items) result ≡ fitted slots.now row.now }
{
    let mut values = Filled::new();
    let mut rest = row;
    for slot in slots {
        let value = match slot {
            None => None,
            Some(kind) => {
                let (number, after) = rest.split_first()?;
                rest = after;
                Some(atom_at(*kind, usize::from(*number))?)
            }
        };
        values.try_push(value).ok()?;
    }
    if !rest.is_empty() {
        return None;
    }
    Some(values)
}

// The values, kept apart.
pub(super) fn kept(heap: Global, values: &Filled) -> Result<Vec<Option<Atom>>, AllocError>
    ensures { IfOk result (λ v. v.items ≡ values.now.items) }
{
    values.iter().copied().collect(heap)
}

// The kind of what a variable stands for.
fn kind_of(sort: Sort) -> Kind
    ensures { result ≡ kind_of sort }
{
    match sort {
        Sort::Fresh => Kind::Nonce,
        Sort::Plain(kind) => kind,
    }
}

// What may stand in a slot: any number of the kind that has no name, and those with a name that have a flag.
#[derive(Drop)]
pub(super) struct Choice {
    kind: Kind,
    named: Vec<bool>,
}

impl Choice {
    // Any number of the kind.
    fn any_of(heap: Global, contents: &Contents, kind: Kind) -> Result<Choice, AllocError>
        ensures { IfOk result (λ c. choice_of c ≡ any_of (contents_of contents.now) kind) }
    {
        let many = named(contents, kind);
        let named = vec![in heap; true; many]?;
        Ok(Choice { kind, named })
    }

    // For a variable of a role where an agent plays it.
    fn of_variable(
        heap: Global,
        contents: &Contents,
        role: usize,
        agent: usize,
        variable: usize,
        sort: Sort,
    ) -> Result<Choice, AllocError>
        ensures { IfOk result (λ c. choice_of c ≡ choice (contents_of contents.now) role agent variable sort) }
    {
        match sort {
            Sort::Plain(kind) => Choice::any_of(heap, contents, kind),
            Sort::Fresh => Ok(Choice {
                kind: Kind::Nonce,
                named: own_nonces(heap, contents.nonces(), role, agent, variable)?,
            }),
        }
    }

    fn place(&self) -> Place<'_>
        ensures { choice_at result ≡ choice_of self.now }
    {
        Place {
            kind: self.kind,
            named: self.named.as_slice(),
            strangers: true,
        }
    }
}

// Which of the nonces are named for this variable of the role where the agent plays it.
fn own_nonces(
    heap: Global,
    nonces: &[Nonce],
    role: usize,
    agent: usize,
    variable: usize,
) -> Result<Vec<bool>, AllocError>
    ensures { IfOk result (λ flags. flags.items ≡ map (λ n. is_for role agent variable (nonce_of n)) nonces.now) }
{
    nonces
        .iter()
        .map(|n| n.is_for(role, agent, variable))
        .collect(heap)
}

// What may stand for a role's variables where an agent plays it.
pub(super) fn role_choices(
    heap: Global,
    contents: &Contents,
    role: usize,
    agent: usize,
    variables: &[Variable],
) -> Result<Vec<Choice>, AllocError>
    ensures { IfOk result (λ cs. map choice_of cs.items ≡ role_choices (contents_of contents.now) role agent 0 (map variable_of variables.now)) }
{
    let mut choices = Vec::new(heap);
    for (i, variable) in variables.iter().enumerate() {
        choices.push(Choice::of_variable(heap, contents, role, agent, i, variable.sort)?)?;
    }
    Ok(choices)
}

// A slot for each of a role's variables.
pub(super) fn role_slots(
    heap: Global,
    variables: &[Variable],
) -> Result<Vec<Option<Kind>>, AllocError>
    ensures { IfOk result (λ ks. ks.items ≡ map (λ v. Some (kind_of v.sort)) variables.now) }
{
    variables
        .iter()
        .map(|variable| Some(kind_of(variable.sort)))
        .collect(heap)
}

// A slot for each free variable, with a kind where the variable stands in the seal.
pub(super) fn seal_slots(
    heap: Global,
    seal: &Sealed,
    free: &[Variable],
) -> Result<Vec<Option<Kind>>, AllocError>
    ensures { IfOk result (λ ks. ks.items ≡ seal_slots (sealed_of seal.now) 0 (map variable_of free.now)) }
{
    let mut slots = Vec::new(heap);
    for (i, variable) in free.iter().enumerate() {
        let stands = seal.has_variable(i);
        slots.push(stands.then_some(kind_of(variable.sort)))?;
    }
    Ok(slots)
}

// For each slot that has a kind, any number of it.
pub(super) fn open_choices(
    heap: Global,
    contents: &Contents,
    slots: &[Option<Kind>],
) -> Result<Vec<Choice>, AllocError>
    ensures { IfOk result (λ cs. map choice_of cs.items ≡ open_choices (contents_of contents.now) slots.now) }
{
    let mut choices = Vec::new(heap);
    for slot in slots {
        if let Some(kind) = slot {
            choices.push(Choice::any_of(heap, contents, *kind)?)?;
        }
    }
    Ok(choices)
}

// The places of the search.
pub(super) fn places<'a>(heap: Global, choices: &'a [Choice]) -> Result<Vec<Place<'a>>, AllocError>
    ensures { IfOk result (λ ps. map choice_at ps.items ≡ map choice_of choices.now) }
{
    let mut places = Vec::new(heap);
    for choice in choices {
        places.push(choice.place())?;
    }
    Ok(places)
}
