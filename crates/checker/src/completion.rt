// The third condition: the completion of the claim is not positive.
ghost use Rattle.std.specs.Prelude.{IsTrue, ◌↔◌};
ghost use Rattle.ranks.specs.Conditions.{CompletionNot};
ghost use Rattle.sheet.specs.Kept.{contents_of};

use super::knowledge::names_alone;
use super::meaning::is_positive_event;
use scale::Scale;
use sheet::Contents;

// Whether the completion is no event that is positive.
pub(super) fn completion_is_not_positive<S: Scale>(contents: &Contents) -> bool
    ensures { IsTrue result ↔ CompletionNot S.meaning (contents_of contents.now) }
{
    let completion = &contents.claim().completion;
    let positive = is_positive_event::<S>(contents, completion, &names_alone());
    positive != Some(true)
}
