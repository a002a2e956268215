// The role that is being read: its variables and steps.
ghost use Rattle.std.specs.Prelude.{◌≡◌, ◌&&◌, ◌||◌, length, nat_lt, not, Ok};
ghost use Rattle.lexer.specs.Text.{line_of, word_at, words_of};
ghost use Rattle.draft.specs.Drafts.{script_scope, taken};
ghost use Rattle.draft.specs.Kept.{cast_of, script_of, title_of};
ghost use Rattle.draft.specs.Reading.{fresh_line, plain_line, sig_line, term_line, var_line};
ghost use Rattle.draft.specs.Sections.{more_step, new_script, no_title, role_read};
ghost use Rattle.std.specs.Str.{bytes_eq};
ghost use Rattle.model.specs.Names.{is_name};
ghost use Rattle.terms.specs.Outcomes.{Becomes, Reads};
ghost use Rattle.terms.specs.Scopes.{scope_of};
ghost use Rattle.model.specs.Stored.{role_of, step_of, term_of, variable_of};
ghost use Rattle.terms.specs.Terms.{has, variable_names};
ghost use Rattle.model.specs.Variables.{receives};

use super::cast::{Cast, Title, new_name, read_kind};
use lexer::{Declined, Line, Rule, Word};
use model::{Name, Role, Sort, Step, Term, Variable};
use std::alloc::Global;
use terms::{Scope, Variables, find, read_signal, read_term};

// Of a role, and of the ranks.
const MOST_VARIABLES: usize = 5;

const MOST_STEPS: usize = 8;

// A role's title, its variables and its steps. It has no model: the draft's calls write its fields, so contracts see it by a function of them.
#[derive(Drop)]
pub struct Script {
    pub title: Title,
    pub variables: Variables,
    pub steps: Vec<Step>,
}

// `var NAME KIND` or `free NAME KIND`, where so many are declared already, and whether something else has the name.
pub(super) fn read_plain(line: &Line, declared: usize, taken: bool) -> Result<Variable, Declined>
    ensures { Reads variable_of (plain_line declared (is_name (word_at (line_of line.now) 1).text && not taken) (line_of line.now)) result }
{
    if line.len() != 3 {
        return Err(line.fault(Rule::Line));
    }
    if declared >= MOST_VARIABLES {
        return Err(line.fault(Rule::Count));
    }
    let name = new_name(line.word(1), taken)?;
    let kind = line.word(2);
    let kind = read_kind(kind.text).ok_or(kind.fault(Rule::Word))?;
    Ok(Variable {
        name,
        sort: Sort::Plain(kind),
    })
}

impl Script {
    // A role of which nothing but the title is read.
    #[tactic(auto, unfolding(crate::specs::Kept::script_of))]
    pub(super) fn new(heap: Global, title: Title) -> Script
        ensures { script_of result ≡ new_script (title_of title) }
    {
        Script {
            title,
            variables: Variables::new(heap),
            steps: Vec::new(heap),
        }
    }

    // No role is being read. It is no `Option`, since what a sheet is read to is defined by a script without a title.
    pub(super) fn empty(heap: Global) -> Script
        ensures { script_of result ≡ new_script no_title }
    {
        Script::new(
            heap,
            Title {
                name: Name::new(b""),
                player: None,
            },
        )
    }

    // What a word of a step may stand for.
    #[tactic(auto, unfolding(crate::specs::Kept::cast_of, crate::specs::Kept::script_of))]
    fn scope<'a>(&'a self, cast: &'a Cast) -> Scope<'a>
        ensures { scope_of result ≡ script_scope (cast_of cast.now) (script_of self.now) }
    {
        Scope {
            script: true,
            variables: self.variables.as_slice(),
            nonces: &[],
            ..cast.scope()
        }
    }

    // Whether something with a name of its own, the role or one of its variables has this name.
    #[tactic(auto, unfolding(crate::specs::Kept::script_of))]
    fn is_taken(&self, cast: &Cast, word: &[u8]) -> bool
        ensures { result ≡ (taken (cast_of cast.now) word.now || (bytes_eq (script_of self.now).title.name word.now || has (variable_names (script_of self.now).variables) word.now)) }
    {
        cast.is_taken(word)
            || self.title.name.is(word)
            || find(self.variables.as_slice(), word).is_some()
    }

    // `var NAME KIND`
    #[tactic(auto, unfolding(crate::specs::Kept::script_of, crate::specs::Drafts::new_variable))]
    pub(super) fn read_variable(&self, cast: &Cast, line: &Line) -> Result<Variable, Declined>
        ensures { Reads variable_of (var_line (cast_of cast.now) (script_of self.now) (line_of line.now)) result }
    {
        let taken = self.is_taken(cast, line.word(1).text);
        read_plain(line, self.variables.len(), taken)
    }

    // `fresh NAME`
    #[tactic(auto, unfolding(crate::specs::Kept::script_of, crate::specs::Drafts::new_variable))]
    pub(super) fn read_fresh(&self, cast: &Cast, line: &Line) -> Result<Variable, Declined>
        ensures { Reads variable_of (fresh_line (cast_of cast.now) (script_of self.now) (line_of line.now)) result }
    {
        if line.len() != 2 {
            return Err(line.fault(Rule::Line));
        }
        if self.variables.len() >= MOST_VARIABLES {
            return Err(line.fault(Rule::Count));
        }
        let word = line.word(1);
        let name = new_name(word, self.is_taken(cast, word.text))?;
        Ok(Variable {
            name,
            sort: Sort::Fresh,
        })
    }

    // The term of `send TERM` or `recv TERM`. The draft owns the heap and the cast and lends both: a struct for them would be made anew for each call.
    #[tactic(auto, unfolding(crate::specs::Kept::script_of))]
    pub(super) fn read_term<'a>(
        &'a self,
        heap: Global,
        cast: &'a Cast,
        line: &Line,
    ) -> Result<Term, Declined>
        ensures { Reads term_of (term_line (cast_of cast.now) (script_of self.now) (line_of line.now)) result }
    {
        if self.steps.len() >= MOST_STEPS {
            return Err(line.fault(Rule::Count));
        }
        read_term(heap, &self.scope(cast), line.place, line.from(1))
    }

    // `sig WORD ATOMS`. It is lent the heap and the cast as `read_term` is.
    #[tactic(auto, unfolding(crate::specs::Kept::script_of))]
    pub(super) fn read_signal<'a>(
        &'a self,
        heap: Global,
        cast: &'a Cast,
        line: &Line,
    ) -> Result<Step, Declined>
        ensures { Reads step_of (sig_line (cast_of cast.now) (script_of self.now) (line_of line.now)) result }
    {
        if line.len() < 3 || line.len() > 6 {
            return Err(line.fault(Rule::Line));
        }
        if self.steps.len() >= MOST_STEPS {
            return Err(line.fault(Rule::Count));
        }
        Ok(Step::Signal(read_signal(heap, &self.scope(cast), line.word(1), line.from(2))?))
    }

    // One step more, with the words of its line in which variables may stand.
    #[tactic(auto, unfolding(crate::specs::Kept::script_of), using(std::proofs::lemmas::List::map_push))]
    pub(super) fn add_step(&mut self, step: Step, words: &[Word]) -> Result<(), Declined>
        ensures { Becomes script_of (Ok (more_step (script_of self.old) (step_of step) (words_of words.now) (receives (step_of step)))) self.new result }
    {
        self.variables.note(words, step.receives());
        self.steps.push(step)?;
        Ok(())
    }

    // Whether there is a step.
    #[tactic(auto, unfolding(crate::specs::Kept::script_of))]
    pub(super) fn has_steps(&self) -> bool
        ensures { result ≡ nat_lt 0 (length (script_of self.now).steps) }
    {
        !self.steps.is_empty()
    }

    // The role that was read.
    #[tactic(auto, unfolding(crate::specs::Kept::script_of))]
    pub(super) fn into_role(self) -> Role
        ensures { role_of result ≡ role_read (script_of self) }
    {
        let Script {
            title,
            variables,
            steps,
        } = self;
        Role {
            name: title.name,
            player: title.player,
            variables: variables.into_list(),
            steps,
        }
    }
}
