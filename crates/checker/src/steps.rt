// The fourth condition: whether the steps of a role keep what is sent and signalled positive.
ghost use Rattle.std.specs.Prelude.{◌≡◌, ℕ, map};
ghost use Rattle.instances.specs.Actions.{action};
ghost use Rattle.instances.specs.Writing.{values_of};
ghost use Rattle.model.specs.Stored.{step_of};
ghost use Rattle.search.specs.Exchange.{Invariant};
ghost use Rattle.sheet.specs.Kept.{contents_of};
ghost use Rattle.checker.specs.Tests.{RowBreak, RowBreaks};
ghost use Rattle.checker.specs.Trying.{FirstBreak, Shows, done, received, sent};

use super::meaning::{is_needed, is_positive, is_positive_event};
use super::rows::{Filled, fill};
use instances::Values;
use message::Kind;
use model::Step;
use scale::Scale;
use search::Test;
use sheet::Contents;
use std::marker::PhantomData;

// What a step shows where the condition asks something of it: it is kept, it is broken, or nothing is asked of the steps that follow, since the
// needed event is signalled or a message is received that is not positive.
#[derive(Clone, Copy)]
enum Found {
    Kept,
    Broken,
    Excused,
}

impl Found {
    // What is shown by something that has to be positive.
    fn of_sent(positive: Option<bool>) -> Found
        ensures { result ≡ sent positive }
    {
        match positive {
            Some(false) => Found::Broken,
            _ => Found::Kept,
        }
    }

    // What is shown by a message that is received.
    fn of_received(positive: Option<bool>) -> Found
        ensures { result ≡ received positive }
    {
        match positive {
            Some(false) => Found::Excused,
            _ => Found::Kept,
        }
    }
}

// What a step shows for these values.
#[tactic(auto, using(crate::proofs::Trials::send_shows, crate::proofs::Trials::receive_shows))]
fn try_step<S: Scale>(contents: &Contents, step: &Step, values: &Values) -> Found
    ensures { Shows S.meaning (contents_of contents.now) (action (values_of values.now) (step_of step.now)) result }
{
    match step {
        Step::Send(term) => Found::of_sent(is_positive::<S>(contents, term, values)),
        Step::Receive(term) => Found::of_received(is_positive::<S>(contents, term, values)),
        Step::Signal(signal) => {
            if is_needed(contents, signal, values) {
                Found::Excused
            } else {
                Found::of_sent(is_positive_event::<S>(contents, signal, values))
            }
        }
    }
}

// The first of the steps that breaks the condition for these values, if one does.
fn first_break<S: Scale>(contents: &Contents, steps: &[Step], values: &Values) -> Option<usize>
    ensures { FirstBreak S.meaning (contents_of contents.now) (done (values_of values.now) (map step_of steps.now)) result }
{
    for (k, step) in steps.iter().enumerate() {
        match try_step::<S>(contents, step, values) {
            Found::Kept => {}
            Found::Broken => return Some(k),
            Found::Excused => return None,
        }
    }
    None
}

// The first step that breaks the condition in an instance, and what the variables stand for there.
#[derive(Drop)]
pub(super) struct Break {
    pub step: usize,
    pub values: Filled,
}

// The test of some steps of a role, where an agent plays it: a row of numbers breaks it if, as values of the role's variables, it makes one of the
// steps break the condition.
#[derive(Drop)]
pub(super) struct StepTest<'a, S> {
    pub contents: &'a Contents,
    pub steps: &'a [Step],
    pub agent: u8,
    pub slots: &'a [Option<Kind>],
    pub scale: PhantomData<S>,
}

impl<S: Scale> StepTest<'_, S> {
    // The first step that breaks the condition where the variables stand for what the row says, if one does.
    pub(super) fn try_row(&self, row: &[u16]) -> Option<Break>
        ensures { RowBreak S.meaning (contents_of self.now.contents.now) self.now.agent self.now.slots.now (map step_of self.now.steps.now) row.now result }
    {
        let values = fill(self.slots, row)?;
        let played = Values {
            player: Some(self.agent),
            variables: &values,
        };
        let step = first_break::<S>(self.contents, self.steps, &played)?;
        Some(Break { step, values })
    }
}

impl<S: Scale> Test for StepTest<'_, S> {
    ghost broken = { λ test row. (k : ℕ) × RowBreaks S.meaning (contents_of test.contents.now) test.agent test.slots.now (map step_of test.steps.now) row k };

    // Who looks for a row shows that it tells no two strangers apart.
    ghost suits = { λ test named places. Invariant named places (λ row. (k : ℕ) × RowBreaks S.meaning (contents_of test.contents.now) test.agent test.slots.now (map step_of test.steps.now) row k) };

    ghost suited = { λ test named places suits. suits };

    fn breaks(&self, row: &[u16]) -> bool {
        self.try_row(row).is_some()
    }
}
