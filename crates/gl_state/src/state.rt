ghost use Rattle.std.specs.Prelude.{◌≡◌, ◌≤◌, ◌&&◌, IfSome, OnSome};
ghost use Rattle.gl_records.specs.SetupRules.{AreRulesInRange};
ghost use Rattle.gl_records.specs.Size.{IsSize};
ghost use Rattle.gl_records.specs.Valid.{IsValidClear};
ghost use Rattle.gl_state.specs.Current.{attribs};
ghost use Rattle.gl_state.specs.Lights.{light as light_of};
ghost use Rattle.gl_state.specs.Raster.{clip_plane as clip_plane_of, is_flat};
ghost use Rattle.gl_state.specs.Values.{vector as vector_of};
ghost use Rattle.matrix_stacks.specs.Eye.{plane_to_eye as plane_in_eye};
ghost use Rattle.matrix_stacks.specs.Stack.{top};
ghost use Rattle.gl_state.specs.State.{opening_state, active_texture as active_texture_of, on_lights, on_raster, ran, followed, switch as switch_of, setup_rules as setup_rules_of, unit_number, aligns as aligns_of};

use crate::blending::Blending;
use crate::clears::Clears;
use crate::current::CurrentValues;
use crate::environments::Environments;
use crate::fog::Fog;
use crate::fragment_tests::FragmentTests;
use crate::lighting::Lighting;
use crate::lights::Lights;
use crate::pixels::PixelStorage;
use crate::raster::{Raster, culled_faces, in_pixels};
use crate::switches::Switches;
use crate::transforms::{matrix_mode, matrix_of};
use crate::values::vector;
use fx_arith::Mat4;
use gl_records::{Attribs, ClearItem, Params, Rec, SetupRules, Size};
use gl_tokens::{Cap, GlError, MatrixMode, ShadeModel, TextureUnit};
use matrix_stacks::{Stacks, plane_to_eye};

/// The greatest size of a point, and the greatest width of a line, in pixels.
const GREATEST_POINT: u16 = 64;

const GREATEST_LINE: u16 = 16;

/// The state of the commands, but for arrays and objects. The front keeps it.
#[derive(Drop)]
pub struct State {
    pub current: CurrentValues,
    pub raster: Raster,
    pub switches: Switches,
    pub fog: Fog,
    pub lighting: Lighting,
    pub lights: Lights,
    pub tests: FragmentTests,
    pub blending: Blending,
    pub clears: Clears,
    pub stacks: Stacks,
    pub environments: Environments,
    pub pixels: PixelStorage,
}

impl State {
    /// Before the first command, for a surface of this size.
    pub fn new(size: Size) -> State
        requires { IsSize size }
        ensures { result ≡ opening_state size }
    {
        State {
            current: CurrentValues::new(),
            raster: Raster::new(size),
            switches: Switches::new(),
            fog: Fog::new(),
            lighting: Lighting::new(),
            lights: Lights::new(),
            tests: FragmentTests::new(size),
            blending: Blending::new(),
            clears: Clears::new(),
            stacks: Stacks::new(),
            environments: Environments::new(),
            pixels: PixelStorage::new(),
        }
    }

    /// Runs a command, and answers the first of its errors that holds; then nothing is changed. A command of
    /// something else, as arrays or draws, changes nothing and makes no error.
    pub fn apply(&mut self, rec: &Rec) -> Option<GlError>
        ensures run { (self.new, result) ≡ ran self.old rec.now }
        ensures unchanged { OnSome result (self.new ≡ self.old) }
    {
        match rec {
            Rec::ClientActiveTexture { texture } => self.current.client_active_texture(*texture),
            Rec::ActiveTexture { texture } => self.active_texture(*texture),
            Rec::Color4x {
                red,
                green,
                blue,
                alpha,
            } => {
                self.current.set_color(*red, *green, *blue, *alpha);
                self.follow();
                None
            }
            Rec::Color4ub {
                red,
                green,
                blue,
                alpha,
            } => {
                self.current.set_color_bytes(*red, *green, *blue, *alpha);
                self.follow();
                None
            }
            Rec::Normal3x { x, y, z } => {
                self.current.set_normal(*x, *y, *z);
                None
            }
            Rec::MultiTexCoord4x {
                texture,
                s,
                t,
                r,
                q,
            } => self.current.multi_tex_coord(*texture, *s, *t, *r, *q),
            Rec::MatrixMode { mode } => matrix_mode(&mut self.stacks, *mode),
            Rec::LoadIdentity => {
                self.stacks.load(&Mat4::identity());
                None
            }
            Rec::LoadMatrixx { columns } => {
                self.stacks.load(&matrix_of(columns));
                None
            }
            Rec::MultMatrixx { columns } => {
                self.stacks.mult(&matrix_of(columns));
                None
            }
            Rec::PushMatrix => self.stacks.push(),
            Rec::PopMatrix => self.stacks.pop(),
            Rec::Rotatex { angle, x, y, z } => {
                self.stacks.rotate(*angle, [*x, *y, *z]);
                None
            }
            Rec::Scalex { x, y, z } => {
                self.stacks.scale([*x, *y, *z]);
                None
            }
            Rec::Translatex { x, y, z } => {
                self.stacks.translate([*x, *y, *z]);
                None
            }
            Rec::Frustumx {
                left,
                right,
                bottom,
                top,
                near,
                far,
            } => {
                self.stacks
                    .frustum([*left, *right, *bottom, *top, *near, *far])
            }
            Rec::Orthox {
                left,
                right,
                bottom,
                top,
                near,
                far,
            } => {
                self.stacks
                    .ortho([*left, *right, *bottom, *top, *near, *far])
            }
            Rec::Viewport {
                x,
                y,
                width,
                height,
            } => self.raster.viewport(*x, *y, *width, *height),
            Rec::DepthRangex { near, far } => {
                self.raster.set_depth_range(*near, *far);
                None
            }
            Rec::CullFace { face } => self.raster.cull_face(*face),
            Rec::FrontFace { winding } => self.raster.front_face(*winding),
            Rec::ShadeModel { model } => self.raster.shade(*model),
            Rec::PointSizex { size } => self.raster.point_size(*size),
            Rec::LineWidthx { width } => self.raster.line_width(*width),
            Rec::PolygonOffsetx { factor, units } => {
                self.raster.set_offset(*factor, *units);
                None
            }
            Rec::ClipPlanex { plane, equation } => self.clip_plane(*plane, equation),
            Rec::Hint { target, mode } => self.raster.hint(*target, *mode),
            Rec::Enable { capability } => self.switch(*capability, true),
            Rec::Disable { capability } => self.switch(*capability, false),
            Rec::Fogx { parameter, values } => self.fog.fog(*parameter, values),
            Rec::Lightx {
                light,
                parameter,
                values,
            } => self.light(*light, *parameter, values),
            Rec::LightModelx { parameter, values } => self.lighting.light_model(*parameter, values),
            Rec::Materialx {
                face,
                parameter,
                values,
            } => {
                self.lighting
                    .material(self.switches.color_material, *face, *parameter, values)
            }
            Rec::AlphaFuncx {
                comparison,
                reference,
            } => self.tests.alpha_func(*comparison, *reference),
            Rec::StencilFunc {
                comparison,
                reference,
                mask,
            } => { self.tests.stencil_func(*comparison, *reference, *mask) }
            Rec::StencilOp {
                stencil_fail,
                depth_fail,
                depth_pass,
            } => {
                self.tests
                    .stencil_ops(*stencil_fail, *depth_fail, *depth_pass)
            }
            Rec::StencilMask { mask } => {
                self.tests.set_stencil_write(*mask);
                None
            }
            Rec::DepthFunc { comparison } => self.tests.depth_func(*comparison),
            Rec::DepthMask { write } => {
                self.tests.set_depth_write(*write);
                None
            }
            Rec::Scissor {
                x,
                y,
                width,
                height,
            } => self.tests.scissor(*x, *y, *width, *height),
            Rec::BlendFunc {
                source,
                destination,
            } => self.blending.blend_func(*source, *destination),
            Rec::LogicOp { operation } => self.blending.logic(*operation),
            Rec::ColorMask {
                red,
                green,
                blue,
                alpha,
            } => {
                self.blending.set_mask(*red, *green, *blue, *alpha);
                None
            }
            Rec::ClearColorx {
                red,
                green,
                blue,
                alpha,
            } => {
                self.clears.set_color(*red, *green, *blue, *alpha);
                None
            }
            Rec::ClearDepthx { depth } => {
                self.clears.set_depth(*depth);
                None
            }
            Rec::ClearStencil { stencil } => {
                self.clears.set_stencil(*stencil);
                None
            }
            Rec::TexEnvx {
                target,
                parameter,
                values,
            } => {
                self.environments
                    .tex_env(self.current.unit, *target, *parameter, values)
            }
            Rec::PixelStorei { parameter, value } => self.pixels.pixel_store(*parameter, *value),
            Rec::End
            | Rec::Swap
            | Rec::Flush
            | Rec::GetError
            | Rec::Get { .. }
            | Rec::IsEnabled { .. }
            | Rec::IsBuffer { .. }
            | Rec::IsTexture { .. }
            | Rec::ClientBytes { .. }
            | Rec::VertexPointer { .. }
            | Rec::NormalPointer { .. }
            | Rec::ColorPointer { .. }
            | Rec::TexCoordPointer { .. }
            | Rec::EnableClientState { .. }
            | Rec::DisableClientState { .. }
            | Rec::DrawArrays { .. }
            | Rec::DrawElements { .. }
            | Rec::GenBuffers { .. }
            | Rec::DeleteBuffers { .. }
            | Rec::BindBuffer { .. }
            | Rec::BufferData { .. }
            | Rec::BufferSubData { .. }
            | Rec::GenTextures { .. }
            | Rec::DeleteTextures { .. }
            | Rec::BindTexture { .. }
            | Rec::TexParameterx { .. }
            | Rec::TexImage2D { .. }
            | Rec::TexSubImage2D { .. }
            | Rec::CompressedTexImage2D { .. }
            | Rec::SampleCoveragex { .. }
            | Rec::Clear { .. } => None,
        }
    }

    /// ActiveTexture: InvalidEnum where there is no such unit. The texture stacks go by it too.
    fn active_texture(&mut self, code: u32) -> Option<GlError>
        ensures run { (self.new, result) ≡ active_texture_of self.old code }
        ensures unchanged { OnSome result (self.new ≡ self.old) }
    {
        match TextureUnit::from_code(code) {
            Some(unit) => {
                self.current.unit = unit;
                self.stacks.set_unit(number(unit));
                None
            }
            None => Some(GlError::InvalidEnum),
        }
    }

    /// ClipPlanex: InvalidEnum where there is no such plane. It is kept in eye coordinates, by the modelview matrix
    /// of this moment.
    fn clip_plane(&mut self, plane: u32, equation: &Params) -> Option<GlError>
        ensures run { (self.new, result)
            ≡ on_raster self.old (clip_plane_of self.old.raster plane (plane_in_eye (top self.old.stacks.modelview) (vector_of equation.now))) }
        ensures unchanged { OnSome result (self.new ≡ self.old) }
    {
        let eye = plane_to_eye(self.stacks.top(MatrixMode::Modelview, 0), vector(equation));
        self.raster.clip_plane(plane, eye)
    }

    /// Lightx, with the errors of [`Lights::light`]. Positions and directions are kept in eye coordinates, by the modelview
    /// matrix of this moment.
    fn light(&mut self, light: u32, parameter: u32, values: &Params) -> Option<GlError>
        ensures run { (self.new, result)
            ≡ on_lights self.old (light_of self.old.lights (top self.old.stacks.modelview) light parameter values.now) }
        ensures unchanged { OnSome result (self.new ≡ self.old) }
    {
        self.lights.light(
            self.stacks.top(MatrixMode::Modelview, 0),
            light,
            parameter,
            values,
        )
    }

    /// Enable or Disable: InvalidEnum where there is no such capability.
    fn switch(&mut self, code: u32, on: bool) -> Option<GlError>
        ensures run { (self.new, result) ≡ switch_of self.old code on }
        ensures unchanged { OnSome result (self.new ≡ self.old) }
    {
        match Cap::from_code(code) {
            Some(capability) => {
                self.switches.set(self.current.unit, capability, on);
                self.follow();
                None
            }
            None => Some(GlError::InvalidEnum),
        }
    }

    /// While COLOR_MATERIAL is on, the material's ambient and diffuse colours are the current colour
    /// (OpenGL ES 1.1.12, 2.12.3).
    fn follow(&mut self)
        ensures { self.new ≡ followed self.old }
    {
        if self.switches.color_material {
            self.lighting.follow(self.current.color);
        }
    }

    /// The state that set-up goes by.
    pub fn setup_rules(&self) -> SetupRules
        ensures value { result ≡ setup_rules_of self.now }
        ensures ranges { AreRulesInRange result }
    {
        let raster = &self.raster;
        SetupRules {
            viewport: raster.window(),
            range: [raster.near.get(), raster.far.get()],
            front_ccw: raster.front_is_counterclockwise(),
            cull: self
                .switches
                .cull_face
                .then_some(culled_faces(raster.culled)),
            two_side: self.is_two_sided(),
            offset: self
                .switches
                .polygon_offset_fill
                .then_some([raster.offset_factor, raster.offset_units]),
            point: in_pixels(GREATEST_POINT, raster.point_size),
            line: in_pixels(GREATEST_LINE, raster.line_width),
        }
    }

    fn is_two_sided(&self) -> bool
        ensures { result ≡ (self.now.switches.lighting && self.now.lighting.two_side) }
    {
        self.switches.lighting && self.lighting.two_side
    }

    /// Whether primitives have the colour of their last corner.
    pub fn flat(&self) -> bool
        ensures { result ≡ is_flat self.now.raster.shade_model }
    {
        matches!(self.raster.shade_model, ShadeModel::Flat)
    }

    /// What a vertex takes where no array gives it.
    pub fn current(&self) -> Attribs
        ensures { result ≡ attribs self.now.current }
    {
        self.current.attribs()
    }

    /// The active texture unit, 0 or 1.
    pub fn unit(&self) -> u8
        ensures value { result ≡ unit_number self.now.current.unit }
        ensures to { result ≤ 1 }
    {
        number(self.current.unit)
    }

    /// The alignments of unpacking and of packing, in bytes: each 1, 2, 4 or 8.
    pub fn aligns(&self) -> (u8, u8)
        ensures { result ≡ aligns_of self.now }
    {
        (self.pixels.unpack.bytes(), self.pixels.pack.bytes())
    }
}

/// The number of a texture unit.
fn number(unit: TextureUnit) -> u8
    ensures value { result ≡ unit_number unit }
    ensures to { result ≤ 1 }
{
    match unit {
        TextureUnit::Texture0 => 0,
        TextureUnit::Texture1 => 1,
    }
}
