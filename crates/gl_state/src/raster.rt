ghost use Rattle.std.specs.Prelude.{◌≡◌, ◌≤◌, pos, negsuc, ◌≤ℤ◌, [], ◌∷◌, slice_index_or, OnSome};
ghost use Rattle.gl_records.specs.Size.{IsSize};
ghost use Rattle.gl_state.specs.Raster.{opening_raster, viewport as viewport_of, with_depth_range, cull_face as cull_face_of, front_face as front_face_of, shade as shade_of, point_size as point_size_of, line_width as line_width_of, with_offset, clip_plane as clip_plane_of, hint as hint_of, in_pixels as pixels_of, culled_faces as culled_faces_of, is_counterclockwise};

use crate::unit_fx::UnitFx;
use crate::viewport::{ViewportPlace, ViewportSide};
use fx_arith::Fx;
use gl_records::Size;
use gl_tokens::{Face, GlError, HintMode, HintTarget, ShadeModel, Winding};

/// The one plane that the user clips at: CLIP_PLANE0.
const CLIP_PLANE0: u32 = 0x3000;

/// The viewport, and how primitives are made into pixels (OpenGL ES 1.1.12, 2.10.1, 2.12 and 3.3 to 3.5).
#[derive(Clone, Copy, Debug, PartialEq, Eq)]
pub struct Raster {
    /// Where the viewport lies, in pixels.
    pub x: ViewportPlace,
    pub y: ViewportPlace,
    pub width: ViewportSide,
    pub height: ViewportSide,
    /// The depths of the near and of the far plane.
    pub near: UnitFx,
    pub far: UnitFx,
    /// The triangles that are culled while culling is on.
    pub culled: Face,
    /// Which way round the corners of a triangle that faces front are seen to go.
    pub front: Winding,
    pub shade_model: ShadeModel,
    /// In pixels, above 0.
    pub point_size: Fx,
    pub line_width: Fx,
    /// Of polygon offset.
    pub offset_factor: Fx,
    pub offset_units: Fx,
    /// The plane that the user clips at, in eye coordinates.
    pub plane: [Fx; 4],
}

impl Raster {
    /// The viewport is the whole surface.
    pub fn new(size: Size) -> Raster
        requires { IsSize size }
        ensures { result ≡ opening_raster size }
    {
        Raster {
            x: ViewportPlace::clamped(0),
            y: ViewportPlace::clamped(0),
            width: ViewportSide::of_surface(size.w),
            height: ViewportSide::of_surface(size.h),
            near: UnitFx::clamped(Fx::ZERO),
            far: UnitFx::clamped(Fx::ONE),
            culled: Face::Back,
            front: Winding::Counterclockwise,
            shade_model: ShadeModel::Smooth,
            point_size: Fx::ONE,
            line_width: Fx::ONE,
            offset_factor: Fx::ZERO,
            offset_units: Fx::ZERO,
            plane: [Fx::ZERO; 4],
        }
    }

    /// Viewport: InvalidValue where a side is below 0; x and y are clamped to -4096 to 4096, the sides to 2048.
    pub(crate) fn viewport(&mut self, x: i32, y: i32, width: i32, height: i32) -> Option<GlError>
        ensures run { (self.new, result) ≡ viewport_of self.old x y width height }
        ensures unchanged { OnSome result (self.new ≡ self.old) }
    {
        if width < 0 || height < 0 {
            return Some(GlError::InvalidValue);
        }
        self.x = ViewportPlace::clamped(x);
        self.y = ViewportPlace::clamped(y);
        self.width = ViewportSide::clamped(width);
        self.height = ViewportSide::clamped(height);
        None
    }

    /// x, y, width and height of the viewport, in pixels.
    pub(crate) fn window(&self) -> [i32; 4]
        ensures value { result ≡ self.now.x ∷ self.now.y ∷ self.now.width ∷ self.now.height ∷ [] }
        ensures x_from { negsuc 4095 ≤ℤ slice_index_or result 0 (pos 0) }
        ensures x_to { slice_index_or result 0 (pos 0) ≤ℤ pos 4096 }
        ensures y_from { negsuc 4095 ≤ℤ slice_index_or result 1 (pos 0) }
        ensures y_to { slice_index_or result 1 (pos 0) ≤ℤ pos 4096 }
        ensures width_from { pos 0 ≤ℤ slice_index_or result 2 (pos 0) }
        ensures width_to { slice_index_or result 2 (pos 0) ≤ℤ pos 2048 }
        ensures height_from { pos 0 ≤ℤ slice_index_or result 3 (pos 0) }
        ensures height_to { slice_index_or result 3 (pos 0) ≤ℤ pos 2048 }
    {
        [
            self.x.get(),
            self.y.get(),
            self.width.get(),
            self.height.get(),
        ]
    }

    /// Whether a counterclockwise triangle faces front.
    pub(crate) fn front_is_counterclockwise(&self) -> bool
        ensures { result ≡ is_counterclockwise self.now.front }
    {
        matches!(self.front, Winding::Counterclockwise)
    }

    /// DepthRangex: both are clamped to 0 to 1.
    pub(crate) fn set_depth_range(&mut self, near: Fx, far: Fx)
        ensures { self.new ≡ with_depth_range self.old near far }
    {
        self.near = UnitFx::clamped(near);
        self.far = UnitFx::clamped(far);
    }

    /// CullFace: InvalidEnum where there is no such face.
    pub(crate) fn cull_face(&mut self, code: u32) -> Option<GlError>
        ensures run { (self.new, result) ≡ cull_face_of self.old code }
        ensures unchanged { OnSome result (self.new ≡ self.old) }
    {
        match Face::from_code(code) {
            Some(culled) => {
                self.culled = culled;
                None
            }
            None => Some(GlError::InvalidEnum),
        }
    }

    /// FrontFace: InvalidEnum where there is no such winding.
    pub(crate) fn front_face(&mut self, code: u32) -> Option<GlError>
        ensures run { (self.new, result) ≡ front_face_of self.old code }
        ensures unchanged { OnSome result (self.new ≡ self.old) }
    {
        match Winding::from_code(code) {
            Some(front) => {
                self.front = front;
                None
            }
            None => Some(GlError::InvalidEnum),
        }
    }

    /// ShadeModel: InvalidEnum where there is no such model.
    pub(crate) fn shade(&mut self, code: u32) -> Option<GlError>
        ensures run { (self.new, result) ≡ shade_of self.old code }
        ensures unchanged { OnSome result (self.new ≡ self.old) }
    {
        match ShadeModel::from_code(code) {
            Some(model) => {
                self.shade_model = model;
                None
            }
            None => Some(GlError::InvalidEnum),
        }
    }

    /// PointSizex: InvalidValue where the size isn't above 0.
    pub(crate) fn point_size(&mut self, size: Fx) -> Option<GlError>
        ensures run { (self.new, result) ≡ point_size_of self.old size }
        ensures unchanged { OnSome result (self.new ≡ self.old) }
    {
        if size.0 <= 0 {
            return Some(GlError::InvalidValue);
        }
        self.point_size = size;
        None
    }

    /// LineWidthx: InvalidValue where the width isn't above 0.
    pub(crate) fn line_width(&mut self, width: Fx) -> Option<GlError>
        ensures run { (self.new, result) ≡ line_width_of self.old width }
        ensures unchanged { OnSome result (self.new ≡ self.old) }
    {
        if width.0 <= 0 {
            return Some(GlError::InvalidValue);
        }
        self.line_width = width;
        None
    }

    /// PolygonOffsetx.
    pub(crate) fn set_offset(&mut self, factor: Fx, units: Fx)
        ensures { self.new ≡ with_offset self.old factor units }
    {
        self.offset_factor = factor;
        self.offset_units = units;
    }

    /// ClipPlanex, of a plane in eye coordinates: InvalidEnum where there is no such plane.
    pub(crate) fn clip_plane(&mut self, code: u32, plane: [Fx; 4]) -> Option<GlError>
        ensures run { (self.new, result) ≡ clip_plane_of self.old code plane }
        ensures unchanged { OnSome result (self.new ≡ self.old) }
    {
        if code != CLIP_PLANE0 {
            return Some(GlError::InvalidEnum);
        }
        self.plane = plane;
        None
    }

    /// Hint: InvalidEnum where there is no such target, or no such mode.
    pub(crate) fn hint(&self, target: u32, mode: u32) -> Option<GlError>
        ensures { (self.now, result) ≡ hint_of self.now target mode }
    {
        if HintTarget::from_code(target).is_some() && HintMode::from_code(mode).is_some() {
            None
        } else {
            Some(GlError::InvalidEnum)
        }
    }
}

/// A size or a width in whole pixels, 1 up to the greatest there is.
pub(crate) fn in_pixels(greatest: u16, size: Fx) -> u16
    requires { 1 ≤ greatest }
    ensures value { result ≡ pixels_of greatest size }
    ensures from { 1 ≤ result }
    ensures to { result ≤ greatest }
{
    let rounded = (i64::from(size.0) + 32768) >> 16;
    if rounded < 1 {
        1
    } else if i64::from(greatest) < rounded {
        greatest
    } else {
        rounded as u16
    }
}

/// Whether triangles that face front, and those that face back, are culled.
pub(crate) fn culled_faces(face: Face) -> [bool; 2]
    ensures { result ≡ culled_faces_of face }
{
    match face {
        Face::Front => [true, false],
        Face::Back => [false, true],
        Face::FrontAndBack => [true, true],
    }
}
