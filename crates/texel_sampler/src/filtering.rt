//! The filter inside of a level (OpenGL ES 1.1.12, 3.7, "Texture Minification").
ghost use Rattle.std.specs.Prelude.{◌≡◌, Bool, true, false, ⊤};

/// Whether texels of a level are weighted or the nearest is taken. Each way is a type, so that loops over pixels choose
/// none where all of them go the same way.
pub trait Filtering {
    // for which choices of levels it is, by whether they weight texels
    ghost of: { Bool → Type 0 };

    /// Whether a choice that says so weights texels.
    fn is_linear(linear: bool) -> bool
        requires { of linear }
        ensures { result ≡ linear };
}

/// The nearest texel alone.
pub struct NearestTexel;

impl Filtering for NearestTexel {
    ghost of = { λ linear. linear ≡ false };

    fn is_linear(_linear: bool) -> bool {
        false
    }
}

/// Four texels, weighted.
pub struct WeightedTexels;

impl Filtering for WeightedTexels {
    ghost of = { λ linear. linear ≡ true };

    fn is_linear(_linear: bool) -> bool {
        true
    }
}

/// What the choice says.
pub struct EitherFilter;

impl Filtering for EitherFilter {
    ghost of = { λ _. ⊤ };

    fn is_linear(linear: bool) -> bool {
        linear
    }
}
