// What a scale of ranks is.
ghost use Rattle.std.specs.Prelude.{◌≡◌, ℤ};
ghost use Rattle.scale.specs.Scales as scales;
ghost use Rattle.scale.specs.Scales.{Laws};

// A scale of ranks. Its methods take every number, also one that is none of its values.
pub trait Scale {
    // The rank of an atom or event that no line lists.
    const FIXED: i16;

    ghost FIXED: { ℤ };

    ghost meaning: { scales.Scale };

    // Whether the number is one of the scale's values.
    fn has(value: i16) -> bool
        ensures { result ≡ meaning.has value };

    // What two values are joined into.
    fn join(a: i16, b: i16) -> i16
        ensures { result ≡ meaning.joined a b };

    fn is_positive(value: i16) -> bool
        ensures { result ≡ meaning.above value };

    ghost lawful: { Laws meaning };

    // So that generic code may use the constant.
    ghost fixed_is: { meaning.fixed ≡ FIXED };
}
