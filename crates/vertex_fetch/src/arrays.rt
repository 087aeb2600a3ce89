ghost use Rattle.std.specs.Prelude.{◌≡◌, ◌≤◌, OnSome};
ghost use Rattle.vertex_fetch.specs.Arrays.{opening_array, opening_arrays, array_of, is_enabled, with_array, with_texture_array, client_state as client_state_of, client_active_texture as client_active_texture_of, point as point_of, with_command};

use crate::component_format::ComponentFormat;
use crate::pointer::Pointer;
use crate::storage::Storage;
use crate::vertex_array::VertexArray;
use buffer_objects::BufferKey;
use gl_records::Rec;
use gl_tokens::{ArrayKind, GlError, TextureUnit};

/// Where the vertex arrays lie, and which of them are on. Commands set them, and fetching reads them.
#[derive(Clone, Copy, Debug, PartialEq, Eq)]
pub struct Arrays {
    /// Positions x y z w.
    pub vertex: VertexArray,
    /// Normals x y z.
    pub normal: VertexArray,
    /// Colours R G B A.
    pub color: VertexArray,
    /// Texture coordinates s t r q of the first unit.
    pub texture0: VertexArray,
    /// Those of the second unit.
    pub texture1: VertexArray,
    /// The client's active texture unit: whose texture coordinates commands speak of.
    pub unit: TextureUnit,
}

fn opening(size: u8) -> VertexArray
    requires { size ≤ 4 }
    ensures { result ≡ opening_array size }
{
    VertexArray {
        pointer: Pointer::new(size, ComponentFormat::Fixed, 0, Storage::Region(0), 0),
        on: false,
    }
}

impl Arrays {
    /// Every array is off, and lies at the front of region 0: GLfixed numbers, three of each normal and four of all
    /// else. The client's active unit is the first.
    pub fn new() -> Arrays
        ensures { result ≡ opening_arrays }
    {
        Arrays {
            vertex: opening(4),
            normal: opening(3),
            color: opening(4),
            texture0: opening(4),
            texture1: opening(4),
            unit: TextureUnit::Texture0,
        }
    }

    /// Runs VertexPointer, NormalPointer, ColorPointer, TexCoordPointer, EnableClientState, DisableClientState or
    /// ClientActiveTexture; any other command changes nothing. `bound` is the buffer object that is bound to ARRAY_BUFFER:
    /// a pointer keeps it, and only where there is none it names a client region. The first error that holds is answered, and then
    /// nothing is changed. Pointers: InvalidValue where the size isn't 2 to 4 (of colours 4), InvalidEnum where the
    /// type isn't BYTE, SHORT or FIXED (of colours UNSIGNED_BYTE or FIXED), InvalidValue where the stride is below 0,
    /// InvalidValue where there is
    /// no such client region. The others: InvalidEnum where there is no such array or unit.
    pub fn set(&mut self, rec: &Rec, bound: Option<BufferKey>) -> Option<GlError>
        ensures run { (self.new, result) ≡ with_command self.old bound rec.now }
        ensures unchanged { OnSome result (self.new ≡ self.old) }
    {
        match *rec {
            Rec::VertexPointer {
                size,
                kind,
                stride,
                region,
                offset,
            } => self.point(
                ArrayKind::Vertex,
                Pointer::of_coordinates(size, kind, stride, Storage::new(bound, region), offset),
            ),
            Rec::NormalPointer {
                kind,
                stride,
                region,
                offset,
            } => self.point(
                ArrayKind::Normal,
                Pointer::of_normals(kind, stride, Storage::new(bound, region), offset),
            ),
            Rec::ColorPointer {
                size,
                kind,
                stride,
                region,
                offset,
            } => self.point(
                ArrayKind::Color,
                Pointer::of_colors(size, kind, stride, Storage::new(bound, region), offset),
            ),
            Rec::TexCoordPointer {
                size,
                kind,
                stride,
                region,
                offset,
            } => self.point(
                ArrayKind::TextureCoord,
                Pointer::of_coordinates(size, kind, stride, Storage::new(bound, region), offset),
            ),
            Rec::EnableClientState { array } => self.client_state(array, true),
            Rec::DisableClientState { array } => self.client_state(array, false),
            Rec::ClientActiveTexture { texture } => self.client_active_texture(texture),
            _ => None,
        }
    }

    /// Whether this array is on; of texture coordinates, that of the client's active unit.
    pub fn enabled(&self, kind: ArrayKind) -> bool
        ensures { result ≡ is_enabled self.now kind }
    {
        self.array(kind).on
    }

    /// An array; of texture coordinates, that of the client's active unit.
    fn array(&self, kind: ArrayKind) -> &VertexArray
        ensures { result.now ≡ array_of self.now kind }
    {
        match kind {
            ArrayKind::Vertex => &self.vertex,
            ArrayKind::Normal => &self.normal,
            ArrayKind::Color => &self.color,
            ArrayKind::TextureCoord => match self.unit {
                TextureUnit::Texture0 => &self.texture0,
                TextureUnit::Texture1 => &self.texture1,
            },
        }
    }

    fn put(&mut self, kind: ArrayKind, array: VertexArray)
        ensures { self.new ≡ with_array self.old kind array }
    {
        match kind {
            ArrayKind::Vertex => self.vertex = array,
            ArrayKind::Normal => self.normal = array,
            ArrayKind::Color => self.color = array,
            ArrayKind::TextureCoord => self.put_texture(self.unit, array),
        }
    }

    fn put_texture(&mut self, unit: TextureUnit, array: VertexArray)
        ensures { self.new ≡ with_texture_array self.old unit array }
    {
        match unit {
            TextureUnit::Texture0 => self.texture0 = array,
            TextureUnit::Texture1 => self.texture1 = array,
        }
    }

    /// An array lies elsewhere from now on, where no error is given.
    fn point(&mut self, kind: ArrayKind, given: Result<Pointer, GlError>) -> Option<GlError>
        ensures run { (self.new, result) ≡ point_of self.old kind given }
        ensures unchanged { OnSome result (self.new ≡ self.old) }
    {
        match given {
            Ok(pointer) => {
                let on = self.array(kind).on;
                self.put(kind, VertexArray { pointer, on });
                None
            }
            Err(error) => Some(error),
        }
    }

    fn client_state(&mut self, code: u32, on: bool) -> Option<GlError>
        ensures run { (self.new, result) ≡ client_state_of self.old code on }
        ensures unchanged { OnSome result (self.new ≡ self.old) }
    {
        match ArrayKind::from_code(code) {
            Some(kind) => {
                let pointer = self.array(kind).pointer;
                self.put(kind, VertexArray { pointer, on });
                None
            }
            None => Some(GlError::InvalidEnum),
        }
    }

    fn client_active_texture(&mut self, texture: u32) -> Option<GlError>
        ensures run { (self.new, result) ≡ client_active_texture_of self.old texture }
        ensures unchanged { OnSome result (self.new ≡ self.old) }
    {
        match TextureUnit::from_code(texture) {
            Some(unit) => {
                self.unit = unit;
                None
            }
            None => Some(GlError::InvalidEnum),
        }
    }
}
