//! Clears whose masks let all bits through.
ghost use Rattle.std.specs.Prelude.{◌≡◌, ℕ, ◌<◌, ◌+◌, ◌*◌, List, IfSome, bit_and, bit_or, bit_xor, unwrap_or};
ghost use Rattle.gl_records.specs.Clear.{color_after, stencil_after};
ghost use Rattle.gl_records.specs.ColorMask.{masked_color};
ghost use Rattle.whole_surface.specs.Paints.{IsWipeOf, wiped as wiped_of};
ghost use Rattle.whole_surface.specs.Parts.{IsSpan};

use gl_records::{ClearItem, Pixel};
use surface_tiles::Tile;

/// What each pixel takes, of the parts that are there.
#[derive(Clone, Copy)]
pub struct Wipe {
    pub color: Option<[u8; 4]>,
    pub depth: Option<u32>,
    pub stencil: Option<u8>,
}

impl Wipe {
    /// What the Clear makes of each pixel that it holds; none where a mask keeps bits of a part.
    pub fn of(clear: &ClearItem) -> Option<Wipe>
        ensures { IfSome result (IsWipeOf clear.now) }
    {
        let color = whole_color(clear)?;
        let stencil = whole_stencil(clear)?;
        Some(Wipe {
            color,
            depth: clear.depth,
            stencil,
        })
    }

    /// Wipes a row of a tile.
    pub fn wipe_row(&self, row: usize, tile: &mut Tile)
        requires { row < 16 }
        ensures { IsSpan (λ k pixel. wiped_of self.now pixel) (16 * row) (16 * row + 16) tile.old tile.new }
    {
        for i in 0..16 {
            self.wipe_pixel(16 * row + i, tile);
        }
    }

    fn wipe_pixel(&self, place: usize, tile: &mut Tile)
        requires { place < 256 }
        ensures { IsSpan (λ k pixel. wiped_of self.now pixel) place (place + 1) tile.old tile.new }
    {
        tile.pixels[place] = self.wiped(tile.pixels[place]);
    }

    fn wiped(&self, under: Pixel) -> Pixel
        ensures { result ≡ wiped_of self.now under }
    {
        Pixel {
            rgba: self.color.unwrap_or(under.rgba),
            z: self.depth.unwrap_or(under.z),
            s: self.stencil.unwrap_or(under.s),
        }
    }
}

/// The colour that each pixel takes, where the Clear has one; none where a mask keeps a component.
fn whole_color(clear: &ClearItem) -> Option<Option<[u8; 4]>>
    ensures { IfSome result (λ part. (under : List ℕ) → unwrap_or part under ≡ color_after clear.now.color under) }
{
    match &clear.color {
        Some(part) => unmasked(&part.0, &part.1),
        None => Some(None),
    }
}

fn unmasked(color: &[u8; 4], mask: &[bool; 4]) -> Option<Option<[u8; 4]>>
    ensures { IfSome result (λ part. (under : List ℕ) → unwrap_or part under ≡ masked_color color.now mask.now under) }
{
    if mask[0] && mask[1] && mask[2] && mask[3] {
        Some(Some([color[0], color[1], color[2], color[3]]))
    } else {
        None
    }
}

/// The stencil value that each pixel takes, where the Clear has one; none where the write mask keeps a bit.
fn whole_stencil(clear: &ClearItem) -> Option<Option<u8>>
    ensures { IfSome result (λ part. (under : ℕ) → unwrap_or part under ≡ stencil_after clear.now.stencil under) }
{
    match clear.stencil {
        Some((value, mask)) => unmasked_value(value, mask),
        None => Some(None),
    }
}

fn unmasked_value(value: u8, mask: u8) -> Option<Option<u8>>
    ensures { IfSome result (λ part. (under : ℕ) → unwrap_or part under ≡ bit_or (bit_and under (bit_xor mask 255)) (bit_and value mask)) }
{
    if mask == 0xff {
        Some(Some(value))
    } else {
        None
    }
}
