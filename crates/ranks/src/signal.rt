// The rank of the event that a script's signal is.
ghost use Rattle.std.specs.Prelude.{◌≡◌, Decides, is_some, map};
ghost use Rattle.std.specs.List.{list_all};
ghost use Rattle.instances.specs.Actions.{event};
ghost use Rattle.instances.specs.Substitution.{value};
ghost use Rattle.instances.specs.Writing.{values_of};
ghost use Rattle.model.specs.Stored.{ranked_of, signal_of};
ghost use Rattle.ranks.specs.Matching.{are_names_under, is_event_under, is_name_of};
ghost use Rattle.ranks.specs.Ranking.{first_rank};
ghost use Rattle.ranks.specs.Ranks.{ListsSignal, SignalRank};
ghost use Rattle.sheet.specs.Kept.{contents_of};

use super::compute::or_fixed;
use super::matching::{Settled, may_stand};
use instances::Values;
use message::Atom;
use model::{Field, Ranked, Signal};
use scale::Scale;
use sheet::Contents;

// Whether the field is a name of what another field stands for.
fn is_name_of(name: Field, atom: Option<Atom>) -> bool
    ensures { result ≡ is_name_of name atom }
{
    match atom {
        None => false,
        Some(atom) => may_stand(&[], &Settled::Nothing, name, atom),
    }
}

fn are_names_under(values: &Values, names: &[Field], fields: &[Field]) -> bool
    ensures { result ≡ are_names_under (values_of values.now) names.now fields.now }
{
    names.len() == fields.len()
        && names
            .iter()
            .zip(fields)
            .all(|(name, field)| is_name_of(*name, values.atom(*field)))
}

// Whether a line's signal is the event that another signal is under these values.
fn is_event_under(values: &Values, line: &Signal, signal: &Signal) -> bool
    ensures { result ≡ is_event_under (values_of values.now) (signal_of line.now) (signal_of signal.now) }
{
    line.word.is(signal.word.as_bytes())
        && are_names_under(values, line.fields.as_slice(), signal.fields.as_slice())
}

// The rank of the first line that lists the event.
fn first_mark_under(values: &Values, marks: &[Ranked<Signal>], signal: &Signal) -> Option<i16>
    ensures { result ≡ first_rank (λ s. is_event_under (values_of values.now) s (signal_of signal.now)) (map (ranked_of signal_of) marks.now) }
{
    marks
        .iter()
        .find(|line| is_event_under(values, &line.what, signal))
        .map(|line| line.rank)
}

// Whether each field stands for something.
fn all_stand(values: &Values, fields: &[Field]) -> bool
    ensures { result ≡ list_all (λ f. is_some (value (values_of values.now) f)) fields.now }
{
    fields.iter().all(|field| values.atom(*field).is_some())
}

// The rank of the event that the signal is under these values; none where an atom stands for nothing.
pub fn signal_rank<S: Scale>(contents: &Contents, signal: &Signal, values: &Values) -> Option<i16>
    ensures { SignalRank S.meaning (contents_of contents.now) (event (values_of values.now) (signal_of signal.now)) result }
{
    if !all_stand(values, signal.fields.as_slice()) {
        return None;
    }
    let marked = first_mark_under(values, contents.marks(), signal);
    Some(or_fixed::<S>(marked))
}

// Whether a line lists the event that the signal is under these values.
pub fn lists_signal(values: &Values, line: &Signal, signal: &Signal) -> bool
    ensures { Decides result (ListsSignal (signal_of line.now) (event (values_of values.now) (signal_of signal.now))) }
{
    all_stand(values, signal.fields.as_slice()) && is_event_under(values, line, signal)
}
