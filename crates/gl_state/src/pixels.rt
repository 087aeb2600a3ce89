ghost use Rattle.std.specs.Prelude.{◌≡◌, OnSome};
ghost use Rattle.gl_state.specs.Pixels.{opening_storage, pixel_store as pixel_store_of, with_alignment as with_alignment_of};

use crate::alignment::Alignment;
use gl_tokens::{GlError, PixelStoreParameter};

/// How rows of pixels lie in memory (OpenGL ES 1.1.12, 3.6.1 and 4.3.1).
#[derive(Clone, Copy, Debug, PartialEq, Eq)]
pub struct PixelStorage {
    /// Of images that are read from memory.
    pub unpack: Alignment,
    /// Of pixels that are written to memory.
    pub pack: Alignment,
}

impl PixelStorage {
    /// Rows begin at every fourth byte.
    pub fn new() -> PixelStorage
        ensures { result ≡ opening_storage }
    {
        PixelStorage {
            unpack: Alignment::Four,
            pack: Alignment::Four,
        }
    }

    /// PixelStorei: InvalidEnum where there is no such parameter, InvalidValue where the value isn't 1, 2, 4 or 8.
    pub(crate) fn pixel_store(&mut self, code: u32, value: i32) -> Option<GlError>
        ensures run { (self.new, result) ≡ pixel_store_of self.old code value }
        ensures unchanged { OnSome result (self.new ≡ self.old) }
    {
        let Some(parameter) = PixelStoreParameter::from_code(code) else {
            return Some(GlError::InvalidEnum);
        };
        match Alignment::from_bytes(value.cast_unsigned()) {
            Ok(alignment) => {
                self.set(parameter, alignment);
                None
            }
            Err(error) => Some(error),
        }
    }

    fn set(&mut self, parameter: PixelStoreParameter, alignment: Alignment)
        ensures { self.new ≡ with_alignment_of self.old parameter alignment }
    {
        match parameter {
            PixelStoreParameter::UnpackAlignment => self.unpack = alignment,
            PixelStoreParameter::PackAlignment => self.pack = alignment,
        }
    }
}
