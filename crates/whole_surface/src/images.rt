//! The images that an item is drawn with.
ghost use Rattle.std.specs.Prelude.{◌≡◌, option_copied};
ghost use Rattle.gl_records.specs.Shading.{AreReadable};
ghost use Rattle.gl_records.specs.Valid.{IsInRange};

use gl_records::{FragState, ImageSet, Prim};
use std::marker::Model;
use texture_env::Shader;

/// The images of both texture units, lent for an item.
#[derive(Drop)]
pub struct Images<'a> {
    first: Option<&'a ImageSet>,
    second: Option<&'a ImageSet>,
}

impl<'a> Model for Images<'a> {
    ghost use Rattle.std.specs.Prelude.{option_copied};
    ghost use Rattle.whole_surface.specs.UnitImages.{UnitImages};

    ghost Value = { UnitImages };

    ghost view = { λ images. record { first = option_copied images.first; second = option_copied images.second } };
}

impl<'a> Images<'a> {
    /// These images.
    pub fn new(first: Option<&'a ImageSet>, second: Option<&'a ImageSet>) -> Images<'a>
        ensures { result ≡ record { first = option_copied first.entry; second = option_copied second.entry } }
    {
        Images { first, second }
    }

    /// What finds the colours of the primitive with these images.
    pub fn shader(&self, prim: &'a Prim, state: &'a FragState) -> Shader<'a>
        requires in_range { IsInRange prim.now }
        requires readable { AreReadable state.now self.now.first self.now.second }
        ensures { result ≡ record { state = state.now; first = self.now.first; second = self.now.second; prim = prim.now } }
    {
        Shader::new(state, self.first, self.second, prim)
    }
}
