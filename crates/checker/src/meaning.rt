// Whether what terms and signals are under values is positive.
ghost use Rattle.instances.specs.Actions.{event};
ghost use Rattle.instances.specs.Substitution.{message};
ghost use Rattle.instances.specs.Writing.{values_of};
ghost use Rattle.model.specs.Stored.{signal_of, term_of};
ghost use Rattle.model.specs.Trees.{key};
ghost use Rattle.ranks.specs.Ranks.{ListsSignal, Positive, PositiveEvent};
ghost use Rattle.sheet.specs.Kept.{contents_of};
ghost use Rattle.checker.specs.Trying.{Tells};
ghost use Rattle.std.specs.Prelude.{Decides};

use instances::{Values, substitute, substitute_key};
use model::{Field, Signal, Term};
use ranks::{lists_signal, signal_rank};
use scale::Scale;
use sheet::Contents;

// Whether the message that the term is under these values is positive; none where it is no message.
#[tactic(auto, using(crate::proofs::Telling::no_message, crate::proofs::Telling::message_tells))]
pub(super) fn is_positive<S: Scale>(
    contents: &Contents,
    term: &Term,
    values: &Values,
) -> Option<bool>
    ensures { Tells (Positive S.meaning (contents_of contents.now)) (message (values_of values.now) (term_of term.now)) result }
{
    let message = substitute(term, values)?;
    Some(ranks::is_positive::<S>(contents, message.as_bytes()))
}

// The same of the key of two fields.
#[tactic(auto, using(crate::proofs::Telling::no_message))]
pub(super) fn is_positive_key<S: Scale>(
    contents: &Contents,
    first: Field,
    second: Field,
    values: &Values,
) -> Option<bool>
    ensures { Tells (Positive S.meaning (contents_of contents.now)) (message (values_of values.now) (key first second)) result }
{
    let message = substitute_key(first, second, values)?;
    Some(ranks::is_positive::<S>(contents, message.as_bytes()))
}

// Whether the event that the signal is under these values is positive; none where it is no event.
pub(super) fn is_positive_event<S: Scale>(
    contents: &Contents,
    signal: &Signal,
    values: &Values,
) -> Option<bool>
    ensures { Tells (PositiveEvent S.meaning (contents_of contents.now)) (event (values_of values.now) (signal_of signal.now)) result }
{
    let rank = signal_rank::<S>(contents, signal, values)?;
    Some(S::is_positive(rank))
}

// Whether the signal is the needed event under these values.
pub(super) fn is_needed(contents: &Contents, signal: &Signal, values: &Values) -> bool
    ensures { Decides result (ListsSignal (contents_of contents.now).claim.needed (event (values_of values.now) (signal_of signal.now))) }
{
    lists_signal(values, &contents.claim().needed, signal)
}
