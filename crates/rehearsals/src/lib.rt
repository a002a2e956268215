// What holds of the log of every rehearsal, on every scale and over every medium.
#![tactic(auto)]

ghost use Rattle.rehearsals.specs.Rehearsals.{Guarded};
ghost use Rattle.scale.specs.Scales.{whole};

use medium::Medium;
use scale::{Scale, Whole};

// On a sheet that meets the four conditions the needed event precedes the completion in the log of every rehearsal.
#[tactic(auto, using(crate::proofs::Guarding::guarded))]
pub fn log_is_guarded<S: Scale, M: Medium>()
    ensures { Guarded S.meaning M.meaning }
{}

// The same on the scale of all values.
pub fn log_is_guarded_whole<M: Medium>()
    ensures { Guarded whole M.meaning }
{
    log_is_guarded::<Whole, M>()
}
