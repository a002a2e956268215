// The table of ranks, and what it may speak of.
ghost use Rattle.std.specs.Prelude.{◌≡◌, ◌||◌, length, nat_lt};
ghost use Rattle.lexer.specs.Text.{line_of};
ghost use Rattle.draft.specs.Drafts.{free_scope, taken};
ghost use Rattle.draft.specs.Kept.{cast_of, table_of};
ghost use Rattle.draft.specs.Reading.{atom_ranked, free_line, mark_line, numbered, rank_line, rank_shape, ranked_atom, seal_line, signal_ranked};
ghost use Rattle.draft.specs.Sections.{no_table};
ghost use Rattle.terms.specs.Outcomes.{Reads};
ghost use Rattle.terms.specs.Scopes.{scope_of};
ghost use Rattle.model.specs.Stored.{ranked_of, sealed_of, signal_of, variable_of};
ghost use Rattle.terms.specs.Terms.{field_of, has, passing, variable_names};

use super::cast::Cast;
use super::script::read_plain;
use lexer::{Declined, Line, Rule};
use message::Kind;
use model::{Field, Node, Ranked, Sealed, Signal, Variable};
use std::alloc::Global;
use terms::{Scope, Variables, find, read_signal, read_term, read_value, same_atom, same_signal};

const MOST_ATOMS: usize = 12;

const MOST_SEALS: usize = 12;

const MOST_MARKS: usize = 6;

// The free variables, and the ranks of atoms, seals and events. It has no model: the draft's calls write its fields, so contracts see it by a
// function of them.
#[derive(Drop)]
pub struct Table {
    pub free: Variables,
    pub atoms: Vec<Ranked<Node>>,
    pub seals: Vec<Ranked<Sealed>>,
    pub marks: Vec<Ranked<Signal>>,
}

// Whether an atom that may be ranked by its name: a named nonce or text.
fn is_numbered(field: Field) -> bool
    ensures { result ≡ numbered field }
{
    matches!(field, Field::Named(Kind::Nonce | Kind::Text, _))
}

// `rank V ATOM`, where a key has three words
fn has_rank_shape(line: &Line) -> bool
    ensures { result ≡ rank_shape (line_of line.now) }
{
    line.len() == if line.is(2, b"key") { 5 } else { 3 }
}

// The atom of a `rank` line.
fn read_atom(cast: &Cast, line: &Line) -> Result<Node, Declined>
    ensures { Reads (λ n. n) (ranked_atom (cast_of cast.now) (line_of line.now)) result }
{
    let scope = cast.scope();
    if line.is(2, b"key") {
        let (first, second) = (line.word(3), line.word(4));
        let first = scope
            .first_agent(first.text)
            .ok_or(first.fault(Rule::Word))?;
        let second = scope
            .first_agent(second.text)
            .ok_or(second.fault(Rule::Word))?;
        return Ok(Node::Key(first, second));
    }
    let word = line.word(2);
    let field = find_numbered(&scope, word.text).ok_or(word.fault(Rule::Word))?;
    Ok(Node::Leaf(field))
}

// The named nonce or text that the word stands for.
fn find_numbered(scope: &Scope, word: &[u8]) -> Option<Field>
    ensures { result ≡ passing numbered (field_of (scope_of scope.now) word.now) }
{
    scope.field(word).filter(|field| is_numbered(*field))
}

impl Table {
    // No line is read yet.
    #[tactic(auto, unfolding(crate::specs::Kept::table_of))]
    pub(super) fn new(heap: Global) -> Table
        ensures { table_of result ≡ no_table }
    {
        Table {
            free: Variables::new(heap),
            atoms: Vec::new(heap),
            seals: Vec::new(heap),
            marks: Vec::new(heap),
        }
    }

    // What a word of a `seal` line may stand for.
    #[tactic(auto, unfolding(crate::specs::Kept::cast_of, crate::specs::Kept::table_of))]
    fn scope<'a>(&'a self, cast: &'a Cast) -> Scope<'a>
        ensures { scope_of result ≡ free_scope (cast_of cast.now) (table_of self.now) }
    {
        Scope {
            variables: self.free.as_slice(),
            ..cast.scope()
        }
    }

    // Whether something with a name of its own or a free variable has this name.
    #[tactic(auto, unfolding(crate::specs::Kept::table_of))]
    fn is_taken(&self, cast: &Cast, word: &[u8]) -> bool
        ensures { result ≡ (taken (cast_of cast.now) word.now || has (variable_names (table_of self.now).free) word.now) }
    {
        cast.is_taken(word) || find(self.free.as_slice(), word).is_some()
    }

    // `free NAME KIND`
    #[tactic(auto, unfolding(crate::specs::Kept::table_of, crate::specs::Drafts::new_free))]
    pub(super) fn read_free(&self, cast: &Cast, line: &Line) -> Result<Variable, Declined>
        ensures { Reads variable_of (free_line (cast_of cast.now) (table_of self.now) (line_of line.now)) result }
    {
        let taken = self.is_taken(cast, line.word(1).text);
        read_plain(line, self.free.len(), taken)
    }

    // Whether there is room for one more of each. They are calls of their own: inline, and with one lemma, the readings below got no proof where the table is unfolded.
    #[tactic(auto, unfolding(crate::specs::Kept::table_of))]
    fn has_atom_room(&self) -> bool
        ensures { result ≡ nat_lt (length (table_of self.now).atoms) 12 }
    {
        self.atoms.len() < MOST_ATOMS
    }

    #[tactic(auto, unfolding(crate::specs::Kept::table_of))]
    fn has_seal_room(&self) -> bool
        ensures { result ≡ nat_lt (length (table_of self.now).seals) 12 }
    {
        self.seals.len() < MOST_SEALS
    }

    #[tactic(auto, unfolding(crate::specs::Kept::table_of))]
    fn has_mark_room(&self) -> bool
        ensures { result ≡ nat_lt (length (table_of self.now).marks) 6 }
    {
        self.marks.len() < MOST_MARKS
    }

    // `rank V ATOM`
    pub(super) fn read_rank(&self, cast: &Cast, line: &Line) -> Result<Ranked<Node>, Declined>
        ensures { Reads (ranked_of (λ n. n)) (rank_line (cast_of cast.now) (table_of self.now) (line_of line.now)) result }
    {
        if !has_rank_shape(line) {
            return Err(line.fault(Rule::Line));
        }
        if !self.has_atom_room() {
            return Err(line.fault(Rule::Count));
        }
        let value = line.word(1);
        let rank = read_value(value.text).ok_or(value.fault(Rule::Value))?;
        let what = read_atom(cast, line)?;
        if self.is_ranked(what) {
            return Err(line.fault(Rule::Twice));
        }
        Ok(Ranked { rank, what })
    }

    fn is_ranked(&self, atom: Node) -> bool
        ensures { result ≡ atom_ranked (table_of self.now).atoms atom }
    {
        self.atoms.iter().any(|ranked| same_atom(ranked.what, atom))
    }

    // `seal V AGENT AGENT TERM`. It is lent the heap and the cast as `Script::read_term` is.
    pub(super) fn read_seal<'a>(
        &'a self,
        heap: Global,
        cast: &'a Cast,
        line: &Line,
    ) -> Result<Ranked<Sealed>, Declined>
        ensures { Reads (ranked_of sealed_of) (seal_line (cast_of cast.now) (table_of self.now) (line_of line.now)) result }
    {
        if line.len() < 4 {
            return Err(line.fault(Rule::Line));
        }
        if !self.has_seal_room() {
            return Err(line.fault(Rule::Count));
        }
        let (value, first, second) = (line.word(1), line.word(2), line.word(3));
        let rank = read_value(value.text).ok_or(value.fault(Rule::Value))?;
        let scope = self.scope(cast);
        let first = scope
            .first_agent(first.text)
            .ok_or(first.fault(Rule::Word))?;
        let second = scope
            .second_agent(second.text)
            .ok_or(second.fault(Rule::Word))?;
        let content = read_term(heap, &scope, line.place, line.from(4))?;
        Ok(Ranked {
            rank,
            what: Sealed {
                first,
                second,
                content,
            },
        })
    }

    // `mark V WORD ATOMS`. It is lent both too.
    pub(super) fn read_mark(
        &self,
        heap: Global,
        cast: &Cast,
        line: &Line,
    ) -> Result<Ranked<Signal>, Declined>
        ensures { Reads (ranked_of signal_of) (mark_line (cast_of cast.now) (table_of self.now) (line_of line.now)) result }
    {
        if line.len() < 4 || line.len() > 7 {
            return Err(line.fault(Rule::Line));
        }
        if !self.has_mark_room() {
            return Err(line.fault(Rule::Count));
        }
        let value = line.word(1);
        let rank = read_value(value.text).ok_or(value.fault(Rule::Value))?;
        let what = read_signal(heap, &cast.scope(), line.word(2), line.from(3))?;
        if self.is_marked(&what) {
            return Err(line.fault(Rule::Twice));
        }
        Ok(Ranked { rank, what })
    }

    fn is_marked(&self, signal: &Signal) -> bool
        ensures { result ≡ signal_ranked (table_of self.now).marks (signal_of signal.now) }
    {
        self.marks
            .iter()
            .any(|ranked| same_signal(&ranked.what, signal))
    }
}
