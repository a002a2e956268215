// The second condition: whether `seal` lines agree with the ranks of what they seal.
ghost use Rattle.std.specs.Prelude.{◌≡◌, Decides, IfOk, Some, slice_get};
ghost use Rattle.model.specs.Stored.{ranked_of, sealed_of};
ghost use Rattle.search.specs.Exchange.{Invariant};
ghost use Rattle.sheet.specs.Kept.{contents_of};
ghost use Rattle.checker.specs.Narrowing.{WasRead};
ghost use Rattle.checker.specs.Sealing.{FoundAt, FoundLine, GivenBefore, RowUnlike, disagree};
ghost use Rattle.checker.specs.Trying.{Unlike};

use super::meaning::{is_positive, is_positive_key};
use super::rows::{counts, fill, kept, open_choices, places, seal_slots};
use instances::{Values, substitute_seal};
use message::{Atom, Kind};
use model::{Ranked, Sealed};
use ranks::gives_bytes;
use scale::Scale;
use search::{Test, least};
use sheet::Contents;
use std::alloc::{AllocError, Global};
use std::marker::PhantomData;

// Whether a line before the one of this number gives the message that the bytes are.
fn is_given_before(contents: &Contents, number: usize, bytes: &[u8]) -> bool
    ensures { Decides result (GivenBefore (contents_of contents.now) number bytes.now) }
{
    for (j, line) in contents.seals().iter().enumerate() {
        if j < number && gives_bytes(contents.free(), &line.what, bytes) {
            return true;
        }
    }
    false
}

// Whether the key is positive, and line and content are not alike positive.
fn disagree(key: Option<bool>, content: Option<bool>, line: bool) -> bool
    ensures { result ≡ disagree key content line }
{
    match (key, content) {
        (Some(true), Some(content)) => content != line,
        _ => false,
    }
}

// Whether the line of this number is bad for these values.
fn is_unlike<S: Scale>(
    contents: &Contents,
    number: usize,
    line: &Ranked<Sealed>,
    variables: &[Option<Atom>],
) -> bool
    ensures { Decides result (Unlike S.meaning (contents_of contents.now) number (ranked_of sealed_of line.now) variables.now) }
{
    let values = Values {
        player: None,
        variables,
    };
    let seal = &line.what;
    let Some(message) = substitute_seal(seal, &values) else {
        return false;
    };
    let key = is_positive_key::<S>(contents, seal.first, seal.second, &values);
    let content = is_positive::<S>(contents, &seal.content, &values);
    disagree(key, content, S::is_positive(line.rank))
        && !is_given_before(contents, number, message.as_bytes())
}

// The test of a line: a row of numbers breaks it if, as values of the free variables that stand there, it makes the line bad.
#[derive(Drop)]
struct SealTest<'a, S> {
    contents: &'a Contents,
    number: usize,
    line: &'a Ranked<Sealed>,
    slots: &'a [Option<Kind>],
    scale: PhantomData<S>,
}

impl<S: Scale> Test for SealTest<'_, S> {
    ghost broken = { λ test row. RowUnlike S.meaning (contents_of test.contents.now) test.number (ranked_of sealed_of test.line.now) test.slots.now row };

    // Who looks for a row shows that it tells no two strangers apart.
    ghost suits = { λ test named places. Invariant named places (λ row. RowUnlike S.meaning (contents_of test.contents.now) test.number (ranked_of sealed_of test.line.now) test.slots.now row) };

    ghost suited = { λ test named places suits. suits };

    fn breaks(&self, row: &[u16]) -> bool {
        match fill(self.slots, row) {
            None => false,
            Some(values) => is_unlike::<S>(self.contents, self.number, self.line, &values),
        }
    }
}

// The least values for which the line of this number is bad.
fn least_values<S: Scale>(
    heap: Global,
    contents: &Contents,
    number: usize,
    line: &Ranked<Sealed>,
) -> Result<Option<Vec<Option<Atom>>>, AllocError>
    requires read { WasRead (contents_of contents.now) }
    requires is_line { slice_get (contents_of contents.now).seals number ≡ Some (ranked_of sealed_of line.now) }
    ensures { IfOk result (FoundAt S.meaning (contents_of contents.now) number) }
{
    let slots = seal_slots(heap, &line.what, contents.free())?;
    let choices = open_choices(heap, contents, &slots)?;
    let places = places(heap, &choices)?;
    let test = SealTest::<S> {
        contents,
        number,
        line,
        slots: &slots,
        scale: PhantomData,
    };
    let Some(row) = least(heap, &test, counts(contents), &places)? else {
        return Ok(None);
    };
    let Some(values) = fill(&slots, &row) else {
        return Ok(None);
    };
    Ok(Some(kept(heap, &values)?))
}

// A `seal` line, and the least values for which it is bad.
#[derive(Drop)]
pub(super) struct BadLine {
    pub line: usize,
    pub values: Vec<Option<Atom>>,
}

// The first line that is bad for some values, with the least ones.
pub(super) fn first_line<S: Scale>(
    heap: Global,
    contents: &Contents,
) -> Result<Option<BadLine>, AllocError>
    requires { WasRead (contents_of contents.now) }
    ensures { IfOk result (FoundLine S.meaning (contents_of contents.now)) }
{
    for (line, ranked) in contents.seals().iter().enumerate() {
        if let Some(values) = least_values::<S>(heap, contents, line, ranked)? {
            return Ok(Some(BadLine { line, values }));
        }
    }
    Ok(None)
}
