// The scale of all values.
ghost use Rattle.std.specs.Prelude.{pos, refl};
ghost use Rattle.scale.specs.Lawful.{whole_lawful};
ghost use Rattle.scale.specs.Scales.{whole};

use super::scale::Scale;

// Every 16-bit signed value; those above 0 are positive.
pub struct Whole;

impl Scale for Whole {
    const FIXED: i16 = 1;

    ghost FIXED = { pos 1 };

    ghost meaning = { whole };

    ghost lawful = { whole_lawful };

    ghost fixed_is = { refl };

    fn has(_value: i16) -> bool {
        true
    }

    fn join(a: i16, b: i16) -> i16 {
        a.min(b)
    }

    fn is_positive(value: i16) -> bool {
        value > 0
    }
}
