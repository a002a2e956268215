// What sessions have done in every rehearsal, over every medium.
#![tactic(auto)]

ghost use Rattle.rehearsal_laws.specs.Order.{EachStepOnce, NoneActsUnstarted, StepsInOrder};

use medium::Medium;

// A session has done the steps of its role that lie before its next one, each once and in order.
#[tactic(auto, using(crate::proofs::Ordering::steps_in_order))]
pub fn steps_are_done_in_order<M: Medium>()
    ensures { StepsInOrder M.meaning }
{}

// A session that is at its end has done each step of its role once, in order.
pub fn each_step_is_done_once<M: Medium>()
    ensures { EachStepOnce M.meaning }
{}

// A session that has not started has done nothing.
#[tactic(auto, using(crate::proofs::Ordering::none_acts_unstarted))]
pub fn none_acts_before_its_start<M: Medium>()
    ensures { NoneActsUnstarted M.meaning }
{}
