ghost use Rattle.std.specs.Prelude.{◌≡◌, ◌+◌, ◌*◌, ◌<◌, ◌≤◌, ◌-◌, ◌^◌};
ghost use Rattle.vertex_fetch.specs.Fetch.{spacing, element_start, component, three_components, four_components};
ghost use Rattle.vertex_fetch.specs.Pointer.{IsPointer, pointer, placed, coordinate_pointer, normal_pointer, color_pointer};

use crate::component_format::ComponentFormat;
use crate::storage::Storage;
use fx_arith::Fx;
use gl_tokens::GlError;
use std::marker::Model;

/// Where a vertex array lies. The commands of pointers make it, and fetching reads by it.
#[derive(Clone, Copy, Debug, PartialEq, Eq)]
pub struct Pointer {
    /// The components of an element, up to 4.
    size: u8,
    /// How each component lies.
    format: ComponentFormat,
    /// The bytes from one element to the next, below 2^31; 0 where they follow one another.
    stride: u32,
    /// What holds its bytes; a client region is one of 0 to 15.
    storage: Storage,
    /// The byte of the storage at which element 0 begins.
    offset: u32,
}

impl Model for Pointer {
    ghost use Rattle.vertex_fetch.specs.Pointer.{Pointer, IsPointer};

    ghost Value = { Pointer };

    ghost view = { λ array. record {
      size = array.size;
      format = array.format;
      stride = array.stride;
      storage = array.storage;
      offset = array.offset;
    } };

    ghost invariant = { λ array. IsPointer (record {
      size = array.size;
      format = array.format;
      stride = array.stride;
      storage = array.storage;
      offset = array.offset;
    }) };

    ghost inverse = { λ pointer. record {
      size = pointer.size;
      format = pointer.format;
      stride = pointer.stride;
      storage = pointer.storage;
      offset = pointer.offset;
    } };
}

impl Pointer {
    /// `size` is up to 4, `stride` in bytes and below 2^31, a client region one of 0 to 15.
    pub fn new(
        size: u8,
        format: ComponentFormat,
        stride: u32,
        storage: Storage,
        offset: u32,
    ) -> Pointer
        requires { IsPointer (pointer size format stride storage offset) }
        ensures { result ≡ pointer size format stride storage offset }
    {
        Pointer {
            size,
            format,
            stride,
            storage,
            offset,
        }
    }

    /// The pointer of positions or of texture coordinates. The first error that holds: InvalidValue where the size
    /// isn't 2 to 4, InvalidEnum where the type isn't BYTE, SHORT or FIXED, InvalidValue where the stride is below
    /// 0, InvalidValue where there is no such client region.
    pub fn of_coordinates(
        size: i32,
        code: u32,
        stride: i32,
        storage: Storage,
        offset: u32,
    ) -> Result<Pointer, GlError>
        ensures { result ≡ coordinate_pointer size code stride storage offset }
    {
        if size < 2 || 4 < size {
            return Err(GlError::InvalidValue);
        }
        let Some(format) = ComponentFormat::of_coordinates(code) else {
            return Err(GlError::InvalidEnum);
        };
        Pointer::placed(size.unsigned_abs() as u8, format, stride, storage, offset)
    }

    /// The pointer of normals, which have three components. The errors are those of coordinates, but for the size.
    pub fn of_normals(
        code: u32,
        stride: i32,
        storage: Storage,
        offset: u32,
    ) -> Result<Pointer, GlError>
        ensures { result ≡ normal_pointer code stride storage offset }
    {
        let Some(format) = ComponentFormat::of_normals(code) else {
            return Err(GlError::InvalidEnum);
        };
        Pointer::placed(3, format, stride, storage, offset)
    }

    /// The pointer of colours. The errors are those of coordinates, but that the size is 4, and the type
    /// UNSIGNED_BYTE or FIXED.
    pub fn of_colors(
        size: i32,
        code: u32,
        stride: i32,
        storage: Storage,
        offset: u32,
    ) -> Result<Pointer, GlError>
        ensures { result ≡ color_pointer size code stride storage offset }
    {
        if size != 4 {
            return Err(GlError::InvalidValue);
        }
        let Some(format) = ComponentFormat::of_colors(code) else {
            return Err(GlError::InvalidEnum);
        };
        Pointer::placed(4, format, stride, storage, offset)
    }

    /// InvalidValue where the stride is below 0, or there is no such client region.
    fn placed(
        size: u8,
        format: ComponentFormat,
        stride: i32,
        storage: Storage,
        offset: u32,
    ) -> Result<Pointer, GlError>
        requires { size ≤ 4 }
        ensures { result ≡ placed size format stride storage offset }
    {
        if stride < 0 {
            return Err(GlError::InvalidValue);
        }
        if storage.is_nowhere() {
            return Err(GlError::InvalidValue);
        }
        Ok(Pointer::new(size, format, stride.unsigned_abs(), storage, offset))
    }

    /// What holds its bytes.
    pub(crate) fn storage(&self) -> Storage
        ensures { result ≡ self.now.storage }
    {
        self.storage
    }

    fn spacing(&self) -> u32
        ensures { result ≡ spacing self.now }
    {
        if self.stride == 0 {
            u32::from(self.size) * u32::from(self.format.width())
        } else {
            self.stride
        }
    }

    fn element_start(&self, k: u32) -> usize
        ensures value { result ≡ element_start self.now k }
        ensures greatest { result ≤ 2 ^ 64 - 2 ^ 32 }
    {
        self.offset as usize + k as usize * self.spacing() as usize
    }

    fn component(&self, bytes: &[u8], start: usize, c: u8, missing: Fx) -> Fx
        requires { start ≤ 2 ^ 64 - 2 ^ 32 }
        ensures { result ≡ component self.now bytes.now start c missing }
    {
        if c < self.size {
            let place = start + usize::from(c) * usize::from(self.format.width());
            self.format.read(bytes, place)
        } else {
            missing
        }
    }

    /// x y z of element k, read from its storage's bytes.
    pub(crate) fn three(&self, bytes: &[u8], k: u32) -> [Fx; 3]
        ensures { result ≡ three_components self.now bytes.now (element_start self.now k) }
    {
        let start = self.element_start(k);
        [
            self.component(bytes, start, 0, Fx::ZERO),
            self.component(bytes, start, 1, Fx::ZERO),
            self.component(bytes, start, 2, Fx::ZERO),
        ]
    }

    /// x y z w, s t r q or R G B A of element k, read from its storage's bytes.
    pub(crate) fn four(&self, bytes: &[u8], k: u32) -> [Fx; 4]
        ensures { result ≡ four_components self.now bytes.now (element_start self.now k) }
    {
        let start = self.element_start(k);
        [
            self.component(bytes, start, 0, Fx::ZERO),
            self.component(bytes, start, 1, Fx::ZERO),
            self.component(bytes, start, 2, Fx::ZERO),
            self.component(bytes, start, 3, Fx::ONE),
        ]
    }
}
