// The search for the first bad step of a role, and for the least instance in which it is bad.
ghost use Rattle.std.specs.Prelude.{◌≡◌, ◌≤◌, ◌&&◌, IfOk, Some, length, min, slice_get};
ghost use Rattle.instances.specs.Instances.{Honest, MayPlay};
ghost use Rattle.model.specs.Stored.{role_of};
ghost use Rattle.sheet.specs.Kept.{contents_of};
ghost use Rattle.checker.specs.Narrowing.{FoundBelow, FoundFor, FoundIn, WasRead};

use super::rows::{counts, kept, places, role_choices, role_slots};
use super::steps::StepTest;
use message::Atom;
use model::Role;
use scale::Scale;
use search::least;
use sheet::Contents;
use std::alloc::{AllocError, Global};
use std::marker::PhantomData;

// An instance of a role, and a step that is bad in it.
#[derive(Drop)]
pub(super) struct BadInstance {
    pub step: usize,
    pub agent: u8,
    pub values: Vec<Option<Atom>>,
}

// How many agents have a name, as far as there are agents.
fn agent_count(contents: &Contents) -> u8
    ensures { result ≡ min (length (contents_of contents.now).agents) 255 }
{
    u8::try_from(contents.agents().len()).unwrap_or(u8::MAX)
}

// The least instance of the agent in which a step below the bound is bad, and its first such step.
fn least_for<S: Scale>(
    heap: Global,
    contents: &Contents,
    number: usize,
    role: &Role,
    bound: usize,
    agent: u8,
) -> Result<Option<BadInstance>, AllocError>
    requires read { WasRead (contents_of contents.now) }
    requires is_role { slice_get (contents_of contents.now).roles number ≡ Some (role_of role.now) }
    requires within { bound ≤ length role.now.steps.items }
    requires is_honest { Honest (contents_of contents.now) agent }
    requires plays { MayPlay (contents_of contents.now) (role_of role.now) agent }
    ensures { IfOk result (FoundFor S.meaning (contents_of contents.now) number bound agent) }
{
    let slots = role_slots(heap, &role.variables)?;
    let choices = role_choices(heap, contents, number, usize::from(agent), &role.variables)?;
    let places = places(heap, &choices)?;
    let test = StepTest::<S> {
        contents,
        steps: &role.steps[..bound],
        agent,
        slots: &slots,
        scale: PhantomData,
    };
    let Some(row) = least(heap, &test, counts(contents), &places)? else {
        return Ok(None);
    };
    let Some(found) = test.try_row(&row) else {
        return Ok(None);
    };
    Ok(Some(BadInstance {
        step: found.step,
        agent,
        values: kept(heap, &found.values)?,
    }))
}

// The least instance of all in which a step below the bound is bad, and its first such step.
fn least_below<S: Scale>(
    heap: Global,
    contents: &Contents,
    number: usize,
    role: &Role,
    bound: usize,
) -> Result<Option<BadInstance>, AllocError>
    requires read { WasRead (contents_of contents.now) }
    requires is_role { slice_get (contents_of contents.now).roles number ≡ Some (role_of role.now) }
    requires within { bound ≤ length role.now.steps.items }
    ensures { IfOk result (FoundBelow S.meaning (contents_of contents.now) number bound) }
{
    for agent in 0..agent_count(contents) {
        if contents.is_played_by(role, usize::from(agent)) {
            let found = least_for::<S>(heap, contents, number, role, bound, agent)?;
            if found.is_some() {
                return Ok(found);
            }
        }
    }
    Ok(None)
}

// The first bad step of the role, with the least instance in which it is bad. The bound falls to a bad step until none below it is bad.
pub(super) fn first_bad<S: Scale>(
    heap: Global,
    contents: &Contents,
    number: usize,
    role: &Role,
) -> Result<Option<BadInstance>, AllocError>
    requires read { WasRead (contents_of contents.now) }
    requires is_role { slice_get (contents_of contents.now).roles number ≡ Some (role_of role.now) }
    ensures { IfOk result (FoundIn S.meaning (contents_of contents.now) number) }
{
    let mut found = None;
    let mut bound = role.steps.len();
    while let Some(instance) = least_below::<S>(heap, contents, number, role, bound)? {
        bound = instance.step;
        found = Some(instance);
    }
    Ok(found)
}
