// Reading the terms and signals of a line.
ghost use Rattle.std.specs.Prelude.{◌≡◌, ◌-◌, ◌<◌, ◌||◌, [], ◌∷◌, ◌++◌, Ok, vec_items, ◌==◌};
ghost use Rattle.lexer.specs.Text.{word_of, words_of};
ghost use Rattle.terms.specs.Outcomes.{Becomes, Reads};
ghost use Rattle.terms.specs.Scopes.{progress_of, scope_of};
ghost use Rattle.model.specs.Stored.{signal_of, term_of};
ghost use Rattle.terms.specs.Terms.{closed, complete, fields_from, reached, read_nodes, read_signal, read_term, term_word, word_on};

use super::expect::{Expect, Opening};
use super::scope::Scope;
use lexer::{Declined, Rule, Word};
use model::{Field, Name, Node, Signal, Term, is_name};
use std::alloc::Global;

// No term has more words.
const LONGEST: usize = 32;

// A term as far as it is read: what the next word has to be, how many terms are still to come, and the nodes so far.
#[derive(Drop)]
pub struct Progress {
    expect: Expect,
    wanted: usize,
    done: Vec<Node>,
}

impl Progress {
    fn is_complete(&self) -> bool
        ensures { result ≡ complete (progress_of self.now) }
    {
        matches!(self.expect, Expect::Term) && self.wanted == 0
    }

    // Whether no word may follow so many.
    fn is_full(&self, words: usize) -> bool
        ensures { result ≡ (complete (progress_of self.now) || 32 - words == 0) }
    {
        self.is_complete() || words >= LONGEST
    }

    // One node more, after which so many terms are still to come.
    fn add_node(&mut self, node: Node, wanted: usize) -> Result<(), Declined>
        ensures { Becomes progress_of (Ok (reached Expect.Term wanted (self.old.done.items ++ (node ∷ [])))) self.new result }
    {
        self.done.push(node)?;
        self.expect = Expect::Term;
        self.wanted = wanted;
        Ok(())
    }

    // The beginning of a term.
    fn begin_term(&mut self, scope: &Scope, word: Word) -> Result<(), Declined>
        requires { self.old.wanted < 64 }
        ensures { Becomes progress_of (term_word (scope_of scope.now) self.old.wanted self.old.done.items (word_of word.entry)) self.new result }
    {
        match word.text {
            b"pair" => return self.add_node(Node::Pair, self.wanted + 1),
            b"key" => self.expect = Expect::First(Opening::Key),
            b"seal" => self.expect = Expect::First(Opening::Seal),
            _ => {
                let field = scope.field(word.text).ok_or(word.fault(Rule::Word))?;
                return self.add_node(Node::Leaf(field), self.wanted.saturating_sub(1));
            }
        }
        Ok(())
    }

    // The second agent of a key or seal.
    fn close_agents(
        &mut self,
        opening: Opening,
        first: Field,
        second: Field,
    ) -> Result<(), Declined>
        ensures { Becomes progress_of (Ok (closed opening first second self.old.wanted self.old.done.items)) self.new result }
    {
        match opening {
            Opening::Key => self.add_node(Node::Key(first, second), self.wanted.saturating_sub(1)),
            Opening::Seal => self.add_node(Node::Seal(first, second), self.wanted),
        }
    }

    // One word more.
    fn read_word(&mut self, scope: &Scope, word: Word) -> Result<(), Declined>
        requires { self.old.wanted < 64 }
        ensures { Becomes progress_of (word_on (scope_of scope.now) self.old.expect self.old.wanted self.old.done.items (word_of word.entry)) self.new result }
    {
        match self.expect {
            Expect::Term => self.begin_term(scope, word),
            Expect::First(opening) => {
                let first = scope.first_agent(word.text).ok_or(word.fault(Rule::Word))?;
                self.expect = Expect::Second(opening, first);
                Ok(())
            }
            Expect::Second(opening, first) => {
                let second = scope.second_agent(word.text).ok_or(word.fault(Rule::Word))?;
                self.close_agents(opening, first, second)
            }
        }
    }
}

// The nodes of the term that the words are; the line lies at `place`.
fn read_nodes(
    heap: Global,
    scope: &Scope,
    place: usize,
    words: &[Word],
) -> Result<Vec<Node>, Declined>
    ensures { Reads vec_items (read_nodes (scope_of scope.now) place (words_of words.now)) result }
{
    let mut progress = Progress {
        expect: Expect::Term,
        wanted: 1,
        done: Vec::new(heap),
    };
    for (i, word) in words.iter().enumerate() {
        if progress.is_full(i) {
            return Err(word.fault(Rule::Length));
        }
        progress.read_word(scope, *word)?;
    }
    if !progress.is_complete() {
        return Err(Rule::Length.at(place));
    }
    Ok(progress.done)
}

// The term that the words are.
#[tactic(auto, using(crate::proofs::TermShape::shaped), unfolding(crate::specs::Terms::read_term))]
pub fn read_term(
    heap: Global,
    scope: &Scope,
    place: usize,
    words: &[Word],
) -> Result<Term, Declined>
    ensures { Reads term_of (read_term (scope_of scope.now) place (words_of words.now)) result }
{
    let nodes = read_nodes(heap, scope, place, words)?;
    // It is always one; that its nodes are a term is a fact of the type.
    Term::new(nodes).ok_or(Rule::Length.at(place))
}

// What each of the words stands for.
fn read_fields(heap: Global, scope: &Scope, words: &[Word]) -> Result<Vec<Field>, Declined>
    ensures { Reads vec_items (fields_from (scope_of scope.now) [] (words_of words.now)) result }
{
    let mut fields = Vec::new(heap);
    for word in words {
        let field = scope.field(word.text).ok_or(word.fault(Rule::Word))?;
        fields.push(field)?;
    }
    Ok(fields)
}

// The signal that a word and atoms are.
pub fn read_signal(
    heap: Global,
    scope: &Scope,
    word: Word,
    atoms: &[Word],
) -> Result<Signal, Declined>
    ensures { Reads signal_of (read_signal (scope_of scope.now) (word_of word.entry) (words_of atoms.now)) result }
{
    if !is_name(word.text) {
        return Err(word.fault(Rule::NewName));
    }
    let fields = read_fields(heap, scope, atoms)?;
    Ok(Signal {
        word: Name::new(word.text),
        fields,
    })
}
