// The check of a sheet on a scale.
ghost use Rattle.std.specs.Prelude.{◌≡◌, IfOk, MatchResult};
ghost use Rattle.sheet.specs.Kept.{contents_of};
ghost use Rattle.checker.specs.declared.verdict.Unchecked.TheVariants.{Memory};
ghost use Rattle.checker.specs.Checking.{Checks};
ghost use Rattle.checker.specs.Kept.{verdict_of};
ghost use Rattle.checker.specs.Narrowing.{FoundRole, WasRead};
ghost use Rattle.checker.specs.Verdicts.{Judges};

use super::completion::completion_is_not_positive;
use super::knowledge::{first_known, first_ranked};
use super::roles::{BadInstance, first_bad};
use super::seals::first_line;
use super::verdict::{Unchecked, Verdict};
use ranks::is_valued;
use scale::Scale;
use sheet::{Contents, Sheet};
use std::alloc::{AllocError, Global};

// The first role with a bad step.
fn first_role<S: Scale>(
    heap: Global,
    contents: &Contents,
) -> Result<Option<(usize, BadInstance)>, AllocError>
    requires { WasRead (contents_of contents.now) }
    ensures { IfOk result (FoundRole S.meaning (contents_of contents.now)) }
{
    for (number, role) in contents.roles().iter().enumerate() {
        if let Some(instance) = first_bad::<S>(heap, contents, number, role)? {
            return Ok(Some((number, instance)));
        }
    }
    Ok(None)
}

// The verdict on a sheet that was read, by the conditions in turn.
fn judge<S: Scale>(heap: Global, contents: &Contents) -> Result<Verdict, Unchecked>
    requires { WasRead (contents_of contents.now) }
    ensures { MatchResult result (λ v. Judges S.meaning (contents_of contents.now) (verdict_of v)) (λ e. e ≡ Memory) }
{
    if let Some(line) = first_known::<S>(contents) {
        return Ok(Verdict::Known { line });
    }
    if let Some(line) = first_ranked::<S>(contents) {
        return Ok(Verdict::Ranked { line });
    }
    if let Some(bad) = first_line::<S>(heap, contents)? {
        return Ok(Verdict::Sealed {
            line: bad.line,
            values: bad.values,
        });
    }
    if !completion_is_not_positive::<S>(contents) {
        return Ok(Verdict::Completed);
    }
    if let Some((role, bad)) = first_role::<S>(heap, contents)? {
        return Ok(Verdict::Acted {
            role,
            step: bad.step,
            agent: bad.agent,
            values: bad.values,
        });
    }
    Ok(Verdict::Accepted)
}

// Checks a sheet: whether its table of ranks proves its claim on the scale.
pub fn check<S: Scale>(heap: Global, sheet: &Sheet) -> Result<Verdict, Unchecked>
    ensures { Checks S.meaning sheet.now result }
{
    let contents = sheet.contents().ok_or(Unchecked::Unread)?;
    if !is_valued::<S>(contents) {
        return Err(Unchecked::Lacking);
    }
    judge::<S>(heap, contents)
}
