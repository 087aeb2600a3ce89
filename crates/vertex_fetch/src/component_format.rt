ghost use Rattle.std.specs.Prelude.{◌≡◌, ◌+◌, ◌≤◌, ◌<◌, ◌^◌, ◌+ℤ◌, ◌*ℤ◌, pos};
ghost use Rattle.gl_tokens.specs.ComponentType.{from_code_of};
ghost use Rattle.vertex_fetch.specs.ComponentFormat.{coordinate_format, normal_format, color_format, width_of, normal_component, component_at};

use fx_arith::{Fx, fixed_from_byte, floor_div};
use gl_records::{byte_at, four_at, two_at};
use gl_tokens::ComponentType;

/// How a component of a vertex array lies in memory, and the GLfixed that it stands for (OpenGL ES 1.1.12, 2.8).
#[derive(Clone, Copy, Debug, PartialEq, Eq)]
pub enum ComponentFormat {
    /// A signed number of 8 bits, as a whole number.
    WholeByte,
    /// A signed number of 16 bits, as a whole number.
    WholeShort,
    /// A signed number of 8 bits; the least stands for -1, the greatest for 1.
    NormalByte,
    /// The same of 16 bits.
    NormalShort,
    /// A number of 8 bits, in 255ths.
    ColorByte,
    /// A GLfixed.
    Fixed,
}

/// 2c + 1, in units of 1/65536.
fn odd(c: i16) -> i64
    ensures { result ≡ (pos 2 *ℤ c +ℤ pos 1) *ℤ pos 65536 }
{
    (2 * i64::from(c) + 1) * 65536
}

/// The component of a normal of a signed byte: (2c + 1) / 255, rounded down.
fn normal_from_byte(c: i8) -> Fx
    ensures { result ≡ normal_component 255 c }
{
    Fx(floor_div(odd(i16::from(c)), 255) as i32)
}

/// The same of a signed short: (2c + 1) / 65535.
fn normal_from_short(c: i16) -> Fx
    ensures { result ≡ normal_component 65535 c }
{
    Fx(floor_div(odd(c), 65535) as i32)
}

impl ComponentFormat {
    /// The format of positions and texture coordinates whose type has this code: 0x1400 BYTE, 0x1402 SHORT or
    /// 0x140C FIXED.
    pub fn of_coordinates(code: u32) -> Option<Self>
        ensures { result ≡ coordinate_format (from_code_of code) }
    {
        match ComponentType::from_code(code) {
            Some(ComponentType::Byte) => Some(Self::WholeByte),
            Some(ComponentType::Short) => Some(Self::WholeShort),
            Some(ComponentType::Fixed) => Some(Self::Fixed),
            _ => None,
        }
    }

    /// The format of normals whose type has this code: 0x1400 BYTE, 0x1402 SHORT or 0x140C FIXED.
    pub fn of_normals(code: u32) -> Option<Self>
        ensures { result ≡ normal_format (from_code_of code) }
    {
        match ComponentType::from_code(code) {
            Some(ComponentType::Byte) => Some(Self::NormalByte),
            Some(ComponentType::Short) => Some(Self::NormalShort),
            Some(ComponentType::Fixed) => Some(Self::Fixed),
            _ => None,
        }
    }

    /// The format of colours whose type has this code: 0x1401 UNSIGNED_BYTE or 0x140C FIXED.
    pub fn of_colors(code: u32) -> Option<Self>
        ensures { result ≡ color_format (from_code_of code) }
    {
        match ComponentType::from_code(code) {
            Some(ComponentType::UnsignedByte) => Some(Self::ColorByte),
            Some(ComponentType::Fixed) => Some(Self::Fixed),
            _ => None,
        }
    }

    /// The bytes that a component takes.
    pub fn width(self) -> u8
        ensures value { result ≡ width_of self }
        ensures greatest { result ≤ 4 }
    {
        match self {
            Self::WholeByte | Self::NormalByte | Self::ColorByte => 1,
            Self::WholeShort | Self::NormalShort => 2,
            Self::Fixed => 4,
        }
    }

    /// The component that begins at a place.
    pub(crate) fn read(self, bytes: &[u8], start: usize) -> Fx
        requires { start + 3 < 2 ^ 64 }
        ensures { result ≡ component_at self bytes.now start }
    {
        match self {
            Self::WholeByte => Fx(i32::from(byte_at(bytes, start).cast_signed()) * 65536),
            Self::WholeShort => Fx(i32::from(i16::from_le_bytes(two_at(bytes, start))) * 65536),
            Self::NormalByte => normal_from_byte(byte_at(bytes, start).cast_signed()),
            Self::NormalShort => normal_from_short(i16::from_le_bytes(two_at(bytes, start))),
            Self::ColorByte => fixed_from_byte(byte_at(bytes, start)),
            Self::Fixed => Fx(i32::from_le_bytes(four_at(bytes, start))),
        }
    }
}
