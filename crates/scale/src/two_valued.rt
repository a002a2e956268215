// The scale of two values.
ghost use Rattle.std.specs.Prelude.{pos, refl};
ghost use Rattle.scale.specs.Lawful.{two_valued_lawful};
ghost use Rattle.scale.specs.Scales.{two_valued};

use super::scale::Scale;

// The values 0 and 1, of which 1 is positive.
pub struct TwoValued;

impl Scale for TwoValued {
    const FIXED: i16 = 1;

    ghost FIXED = { pos 1 };

    ghost meaning = { two_valued };

    ghost lawful = { two_valued_lawful };

    ghost fixed_is = { refl };

    fn has(value: i16) -> bool {
        (0..=1).contains(&value)
    }

    fn join(a: i16, b: i16) -> i16 {
        a.min(b)
    }

    fn is_positive(value: i16) -> bool {
        value > 0
    }
}
