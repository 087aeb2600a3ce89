ghost use Rattle.std.specs.Prelude.{◌≡◌};
ghost use Rattle.gl_state.specs.Switches.{opening_switches, is_textured, with_texturing, is_on as is_on_in, switched};

use gl_tokens::{Cap, TextureUnit};

/// What Enable and Disable switch (OpenGL ES 1.1.12, 2.3 and 6.2).
#[derive(Clone, Copy, Debug, PartialEq, Eq)]
pub struct Switches {
    pub point_smooth: bool,
    pub line_smooth: bool,
    pub cull_face: bool,
    pub lighting: bool,
    pub color_material: bool,
    pub fog: bool,
    pub depth_test: bool,
    pub stencil_test: bool,
    pub normalize: bool,
    pub alpha_test: bool,
    pub dither: bool,
    pub blend: bool,
    pub color_logic_op: bool,
    pub scissor_test: bool,
    /// Texturing, by the first unit and by the second.
    pub texture0: bool,
    pub texture1: bool,
    pub clip_plane0: bool,
    pub lights: [bool; 8],
    pub polygon_offset_fill: bool,
    pub rescale_normal: bool,
    pub multisample: bool,
    pub sample_alpha_to_coverage: bool,
    pub sample_alpha_to_one: bool,
    pub sample_coverage: bool,
}

impl Switches {
    /// Dithering and multisampling are on, and all else is off.
    pub fn new() -> Switches
        ensures { result ≡ opening_switches }
    {
        Switches {
            point_smooth: false,
            line_smooth: false,
            cull_face: false,
            lighting: false,
            color_material: false,
            fog: false,
            depth_test: false,
            stencil_test: false,
            normalize: false,
            alpha_test: false,
            dither: true,
            blend: false,
            color_logic_op: false,
            scissor_test: false,
            texture0: false,
            texture1: false,
            clip_plane0: false,
            lights: [false; 8],
            polygon_offset_fill: false,
            rescale_normal: false,
            multisample: true,
            sample_alpha_to_coverage: false,
            sample_alpha_to_one: false,
            sample_coverage: false,
        }
    }

    /// Switches a capability, while this texture unit is active.
    pub(crate) fn set(&mut self, unit: TextureUnit, capability: Cap, on: bool)
        ensures { self.new ≡ switched self.old unit capability on }
    {
        match capability {
            Cap::PointSmooth => self.point_smooth = on,
            Cap::LineSmooth => self.line_smooth = on,
            Cap::CullFace => self.cull_face = on,
            Cap::Lighting => self.lighting = on,
            Cap::ColorMaterial => self.color_material = on,
            Cap::Fog => self.fog = on,
            Cap::DepthTest => self.depth_test = on,
            Cap::StencilTest => self.stencil_test = on,
            Cap::Normalize => self.normalize = on,
            Cap::AlphaTest => self.alpha_test = on,
            Cap::Dither => self.dither = on,
            Cap::Blend => self.blend = on,
            Cap::ColorLogicOp => self.color_logic_op = on,
            Cap::ScissorTest => self.scissor_test = on,
            Cap::Texture2D => self.set_texturing(unit, on),
            Cap::ClipPlane0 => self.clip_plane0 = on,
            Cap::Light0 => self.lights[0] = on,
            Cap::Light1 => self.lights[1] = on,
            Cap::Light2 => self.lights[2] = on,
            Cap::Light3 => self.lights[3] = on,
            Cap::Light4 => self.lights[4] = on,
            Cap::Light5 => self.lights[5] = on,
            Cap::Light6 => self.lights[6] = on,
            Cap::Light7 => self.lights[7] = on,
            Cap::PolygonOffsetFill => self.polygon_offset_fill = on,
            Cap::RescaleNormal => self.rescale_normal = on,
            Cap::Multisample => self.multisample = on,
            Cap::SampleAlphaToCoverage => self.sample_alpha_to_coverage = on,
            Cap::SampleAlphaToOne => self.sample_alpha_to_one = on,
            Cap::SampleCoverage => self.sample_coverage = on,
        }
    }

    fn set_texturing(&mut self, unit: TextureUnit, on: bool)
        ensures { self.new ≡ with_texturing self.old unit on }
    {
        match unit {
            TextureUnit::Texture0 => self.texture0 = on,
            TextureUnit::Texture1 => self.texture1 = on,
        }
    }

    /// Whether texturing is on for a unit.
    pub fn textured(&self, unit: TextureUnit) -> bool
        ensures { result ≡ is_textured self.now unit }
    {
        match unit {
            TextureUnit::Texture0 => self.texture0,
            TextureUnit::Texture1 => self.texture1,
        }
    }

    /// Whether a capability is on, while this texture unit is active.
    pub fn is_on(&self, unit: TextureUnit, capability: Cap) -> bool
        ensures { result ≡ is_on_in self.now unit capability }
    {
        match capability {
            Cap::PointSmooth => self.point_smooth,
            Cap::LineSmooth => self.line_smooth,
            Cap::CullFace => self.cull_face,
            Cap::Lighting => self.lighting,
            Cap::ColorMaterial => self.color_material,
            Cap::Fog => self.fog,
            Cap::DepthTest => self.depth_test,
            Cap::StencilTest => self.stencil_test,
            Cap::Normalize => self.normalize,
            Cap::AlphaTest => self.alpha_test,
            Cap::Dither => self.dither,
            Cap::Blend => self.blend,
            Cap::ColorLogicOp => self.color_logic_op,
            Cap::ScissorTest => self.scissor_test,
            Cap::Texture2D => self.textured(unit),
            Cap::ClipPlane0 => self.clip_plane0,
            Cap::Light0 => self.lights[0],
            Cap::Light1 => self.lights[1],
            Cap::Light2 => self.lights[2],
            Cap::Light3 => self.lights[3],
            Cap::Light4 => self.lights[4],
            Cap::Light5 => self.lights[5],
            Cap::Light6 => self.lights[6],
            Cap::Light7 => self.lights[7],
            Cap::PolygonOffsetFill => self.polygon_offset_fill,
            Cap::RescaleNormal => self.rescale_normal,
            Cap::Multisample => self.multisample,
            Cap::SampleAlphaToCoverage => self.sample_alpha_to_coverage,
            Cap::SampleAlphaToOne => self.sample_alpha_to_one,
            Cap::SampleCoverage => self.sample_coverage,
        }
    }
}
