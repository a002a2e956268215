// The check and the board together: what is known of every rehearsal on a sheet that the check accepts.
ghost use Rattle.std.specs.Prelude.{◌≡◌, Ok, true};
ghost use Rattle.board.specs.Proving.{Answers, Proved, ProvedIfAccepted};

use super::steps::is_read;
use checker::{Unchecked, Verdict, check};
use medium::Medium;
use rehearsals::log_is_guarded;
use scale::Scale;
use sheet::Sheet;
use sheet_laws::claims_are_of_two_events;
use std::alloc::Global;

// A sheet that the check accepts is proved.
#[tactic(auto, using(crate::proofs::Proving::accepted_proved))]
fn accepted_is_proved<S: Scale, M: Medium>(sheet: &Sheet)
    ensures { ProvedIfAccepted S.meaning M.meaning sheet.now }
{
    log_is_guarded::<S, M>();
    claims_are_of_two_events();
    is_read(sheet);
}

// Whether the check accepts the sheet on the scale. Where it does, whatever calls of a new board are made one after another, over any medium of the
// type that is on the sheet and has heard nothing: no completion is logged without the needed event before it.
pub fn is_proved<S: Scale, M: Medium>(heap: Global, sheet: &Sheet) -> Result<bool, Unchecked>
    ensures answer { Answers S.meaning sheet.now result }
    ensures proved { result ≡ Ok true → Proved M.meaning sheet.now }
{
    accepted_is_proved::<S, M>(sheet);
    Ok(matches!(check::<S>(heap, sheet)?, Verdict::Accepted))
}
