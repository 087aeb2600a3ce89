//! Laws about what is drawn. Each stands as the contract of a function that does nothing.
ghost use Rattle.std.specs.Prelude.{◌≡◌, ℕ, List};
ghost use Rattle.std.specs.Option.{option_map};
ghost use Rattle.gl_records.specs.After.{after};
ghost use Rattle.gl_records.specs.Captured.{Captured};
ghost use Rattle.gl_records.specs.Surface.{Surface, drawn, pixel_at};

/// A surface on which items were drawn has at each place the pixel after the items, and no pixel where it had
/// none.
pub fn drawn_pixels()
    ensures { (items : List Captured) (surface : Surface) (x y : ℕ)
        → pixel_at (drawn items surface) x y ≡ option_map (after items x y) (pixel_at surface x y) }
{}
