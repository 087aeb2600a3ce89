ghost use Rattle.std.specs.Prelude.{◌≡◌, ◌&&◌, IfSome};
ghost use Rattle.gl_records.specs.Size.{IsSize};
ghost use Rattle.gl_records.specs.Valid.{IsValidClear};
ghost use Rattle.gl_state.specs.Clears.{color_bit, depth_bit, has_bit};
ghost use Rattle.gl_state.specs.ClearItem.{clear_area as clear_area_of, clear_item as clear_item_of, clear_of, cut as cut_of, has_pixel as has_pixel_of, lets_some as lets_some_of, whole as whole_of};

use crate::clears::{COLOR_BIT, DEPTH_BIT, STENCIL_BIT, surface_depth};
use crate::frag_state::{bytes, scissor_box};
use crate::state::State;
use gl_records::{ClearItem, PixelBox, Size};

impl State {
    /// The Clear that this mask asks for at this moment, on a surface of this size. None exactly where it has nothing to
    /// write or no pixel: no buffer is named, those that are named are masked, or the scissor box holds no pixel of the
    /// surface. A stencil value is written under its mask, also where that keeps all bits.
    pub fn clear_item(&self, mask: u32, size: Size) -> Option<ClearItem>
        requires { IsSize size }
        ensures value { result ≡ clear_item_of self.now mask size }
        ensures valid { IfSome result (λ clear. IsValidClear clear size) }
    {
        let clear = self.clear(mask, size);
        if clear.has_part() && has_pixel(&clear.area) {
            Some(clear)
        } else {
            None
        }
    }

    fn clear(&self, mask: u32, size: Size) -> ClearItem
        ensures { result ≡ clear_of self.now mask size }
    {
        ClearItem {
            area: self.clear_area(size),
            color: self
                .clears_color(mask)
                .then_some((bytes(self.clears.color), self.blending.mask)),
            depth: self
                .clears_depth(mask)
                .then_some(surface_depth(self.clears.depth)),
            stencil: (mask & STENCIL_BIT != 0).then_some((
                self.clears.stencil,
                self.tests.stencil_write,
            )),
        }
    }

    /// Whether colours are cleared: some component has to be let through.
    fn clears_color(&self, mask: u32) -> bool
        ensures { result ≡ (has_bit mask color_bit && lets_some_of self.now.blending.mask) }
    {
        mask & COLOR_BIT != 0 && lets_some(self.blending.mask)
    }

    fn clears_depth(&self, mask: u32) -> bool
        ensures { result ≡ (has_bit mask depth_bit && self.now.tests.depth_write) }
    {
        mask & DEPTH_BIT != 0 && self.tests.depth_write
    }

    /// The pixels that are cleared.
    fn clear_area(&self, size: Size) -> PixelBox
        ensures { result ≡ clear_area_of self.now size }
    {
        if self.switches.scissor_test {
            cut(scissor_box(&self.tests), size)
        } else {
            whole(size)
        }
    }
}

fn lets_some(mask: [bool; 4]) -> bool
    ensures { result ≡ lets_some_of mask }
{
    mask[0] || mask[1] || mask[2] || mask[3]
}

fn has_pixel(area: &PixelBox) -> bool
    ensures { result ≡ has_pixel_of area.now }
{
    area.x0 < area.x1 && area.y0 < area.y1
}

/// The pixels of the surface that the box holds.
fn cut(area: PixelBox, size: Size) -> PixelBox
    ensures { result ≡ cut_of area size }
{
    PixelBox {
        x0: area.x0.max(0),
        y0: area.y0.max(0),
        x1: area.x1.min(i32::from(size.w)),
        y1: area.y1.min(i32::from(size.h)),
    }
}

/// Every pixel of the surface.
fn whole(size: Size) -> PixelBox
    ensures { result ≡ whole_of size }
{
    PixelBox {
        x0: 0,
        y0: 0,
        x1: i32::from(size.w),
        y1: i32::from(size.h),
    }
}
