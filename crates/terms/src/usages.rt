// Where variables first stand.
ghost use Rattle.std.specs.Prelude.{◌≡◌, map, length, Ok};
ghost use Rattle.lexer.specs.Text.{words_of};
ghost use Rattle.terms.specs.Usages.{check_first, check_usages, declared_of, noted, noted_in, one_more, place_of, undeclared};
ghost use Rattle.terms.specs.Outcomes.{Becomes, Reads};
ghost use Rattle.model.specs.Stored.{items, variable_of};

use lexer::{Declined, Rule, Word};
use message::Kind;
use model::{Sort, Variable};
use std::alloc::Global;

// Where a variable first stands, and whether that line receives.
#[derive(Clone, Copy)]
pub struct First {
    pub place: usize,
    pub received: bool,
}

// Where a variable is declared, and where it first stands, if anywhere.
#[derive(Clone, Copy)]
pub struct Usage {
    pub declared: usize,
    pub first: Option<First>,
}

// Variables in the order in which they are declared, and how each is used. It has no model, since with one the proofs of its two loops did not close.
#[derive(Drop)]
pub struct Variables {
    list: Vec<Variable>,

    // Beside the list and not in it, since a scope lends the variables alone as one slice, and a role keeps that list.
    usages: Vec<Usage>,
}

impl Variables {
    // None is declared yet.
    pub fn new(heap: Global) -> Variables
        ensures { declared_of result ≡ undeclared }
    {
        Variables {
            list: Vec::new(heap),
            usages: Vec::new(heap),
        }
    }

    // How many there are.
    pub fn len(&self) -> usize
        ensures { result ≡ length (declared_of self.now).variables }
    {
        self.list.len()
    }

    // The variables alone.
    pub fn as_slice(&self) -> &[Variable]
        ensures { map variable_of result.now ≡ (declared_of self.now).variables }
    {
        self.list.as_slice()
    }

    // The same as the list that a role keeps.
    pub fn into_list(self) -> Vec<Variable>
        ensures { items variable_of result ≡ (declared_of self).variables }
    {
        let Variables { list, usages: _ } = self;
        list
    }

    // One variable more, declared at this place.
    #[tactic(auto, using(std::proofs::lemmas::List::map_push))]
    pub fn add(&mut self, place: usize, variable: Variable) -> Result<(), Declined>
        ensures { Becomes declared_of (Ok (one_more (declared_of self.old) place (variable_of variable))) self.new result }
    {
        self.list.push(variable)?;
        self.usages.push(Usage {
            declared: place,
            first: None,
        })?;
        Ok(())
    }

    // Notes where variables first stand in one more line, which receives or does not.
    pub fn note(&mut self, words: &[Word], received: bool)
        ensures { declared_of self.new ≡ noted_in (declared_of self.old) (words_of words.now) received }
    {
        // Counted, since after an adapter of `iter_mut` the check knows nothing of what was written.
        for (i, variable) in self.list.iter().enumerate() {
            if i >= self.usages.len() {
                return;
            }
            self.usages[i] = self.usages[i].after(variable.name.as_bytes(), words, received);
        }
    }

    // That each variable stands somewhere, and a nonce that is not the session's own is first received.
    pub fn check(&self) -> Result<(), Declined>
        ensures { Reads (λ u. u) (check_usages (declared_of self.now).variables (declared_of self.now).usages) result }
    {
        for (variable, usage) in self.list.iter().zip(self.usages.iter()) {
            usage.check(variable.sort)?;
        }
        Ok(())
    }
}

impl Usage {
    // How a variable of this name is used after one more line with these words.
    fn after(self, name: &[u8], words: &[Word], received: bool) -> Usage
        ensures { result ≡ noted self name.now (words_of words.now) received }
    {
        if self.first.is_some() {
            return self;
        }
        Usage {
            declared: self.declared,
            first: place_of(words, name).map(|place| First { place, received }),
        }
    }

    // That a variable of this sort may be so used.
    fn check(self, sort: Sort) -> Result<(), Declined>
        ensures { Reads (λ u. u) (check_first sort self.declared self.first) result }
    {
        let first = self.first.ok_or(Rule::Variable.at(self.declared))?;
        if sort == Sort::Plain(Kind::Nonce) && !first.received {
            return Err(Rule::Variable.at(first.place));
        }
        Ok(())
    }
}

// The place of the first of these words that is this name.
fn place_of(words: &[Word], name: &[u8]) -> Option<usize>
    ensures { result ≡ place_of (words_of words.now) name.now }
{
    words
        .iter()
        .find(|word| word.is(name))
        .map(|word| word.place)
}
