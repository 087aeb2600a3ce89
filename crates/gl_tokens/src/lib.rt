//! GL's enumerated values, one enum a family, and their codes.
//!
//! Each family cites its table in `specs/`, and its two calls are exact both ways: a code that no value
//! has reads as `None`, and a value's code reads back as the value.
//!
//! ```text
//! GlError::from_code(0x0501) // Some(GlError::InvalidValue)
//! GlError::InvalidValue.code() // 0x0501
//! ```
#![tactic(auto)]

mod array_kind;
mod base_format;
mod blend_factor;
mod buffer_target;
mod buffer_usage;
mod cap;
mod codes;
mod combine_func;
mod combine_operand;
mod combine_source;
mod compare;
mod component_type;
mod env_mode;
mod env_parameter;
mod face;
mod filter;
mod fog_mode;
mod fog_parameter;
mod gl_error;
mod hint_mode;
mod hint_target;
mod light_model_parameter;
mod light_parameter;
mod logic_op;
mod material_parameter;
mod matrix_mode;
mod mode;
mod palette_format;
mod pixel_store_parameter;
mod query;
mod shade_model;
mod stencil_op;
mod texel_type;
mod texture_parameter;
mod texture_target;
mod texture_unit;
mod winding;
mod wrap;

pub use array_kind::ArrayKind;
pub use base_format::BaseFormat;
pub use blend_factor::BlendFactor;
pub use buffer_target::BufferTarget;
pub use buffer_usage::BufferUsage;
pub use cap::Cap;
pub use combine_func::CombineFunc;
pub use combine_operand::CombineOperand;
pub use combine_source::CombineSource;
pub use compare::Compare;
pub use component_type::ComponentType;
pub use env_mode::EnvMode;
pub use env_parameter::EnvParameter;
pub use face::Face;
pub use filter::Filter;
pub use fog_mode::FogMode;
pub use fog_parameter::FogParameter;
pub use gl_error::GlError;
pub use hint_mode::HintMode;
pub use hint_target::HintTarget;
pub use light_model_parameter::LightModelParameter;
pub use light_parameter::LightParameter;
pub use logic_op::LogicOp;
pub use material_parameter::MaterialParameter;
pub use matrix_mode::MatrixMode;
pub use mode::Mode;
pub use palette_format::PaletteFormat;
pub use pixel_store_parameter::PixelStoreParameter;
pub use query::Query;
pub use shade_model::ShadeModel;
pub use stencil_op::StencilOp;
pub use texel_type::TexelType;
pub use texture_parameter::TextureParameter;
pub use texture_target::TextureTarget;
pub use texture_unit::TextureUnit;
pub use winding::Winding;
pub use wrap::Wrap;

#[cfg(test)]
mod tests {
    use super::*;

    #[test]
    fn codes_of_the_standard(rt: HostRuntime) {
        let codes = [
            (ArrayKind::TextureCoord.code(), 0x8078),
            (BaseFormat::LuminanceAlpha.code(), 0x190A),
            (BlendFactor::OneMinusDestinationAlpha.code(), 0x0305),
            (BlendFactor::SourceAlphaSaturate.code(), 0x0308),
            (BufferTarget::ElementArray.code(), 0x8893),
            (BufferUsage::DynamicDraw.code(), 0x88E8),
            (Cap::Texture2D.code(), 0x0DE1),
            (Cap::Light7.code(), 0x4007),
            (Cap::SampleCoverage.code(), 0x80A0),
            (CombineFunc::Subtract.code(), 0x84E7),
            (CombineOperand::OneMinusSourceAlpha.code(), 0x0303),
            (CombineSource::Previous.code(), 0x8578),
            (Compare::LessOrEqual.code(), 0x0203),
            (ComponentType::UnsignedShort.code(), 0x1403),
            (EnvMode::Decal.code(), 0x2101),
            (Filter::NearestMipmapLinear.code(), 0x2702),
            (FogMode::Linear.code(), 0x2601),
            (GlError::OutOfMemory.code(), 0x0505),
            (LightParameter::QuadraticAttenuation.code(), 0x1209),
            (LogicOp::NoOp.code(), 0x1505),
            (LogicOp::OrReverse.code(), 0x150B),
            (MatrixMode::Projection.code(), 0x1701),
            (Mode::LineStrip.code(), 3),
            (PaletteFormat::Palette8R5G6B5.code(), 0x8B97),
            (Query::ModelviewMatrix.code(), 0x0BA6),
            (Query::ElementArrayBufferBinding.code(), 0x8895),
            (StencilOp::Decrement.code(), 0x1E03),
            (TexelType::UnsignedShort5551.code(), 0x8034),
            (Wrap::ClampToEdge.code(), 0x812F),
        ];
        for (got, want) in codes {
            assert_eq!(rt; got, want);
        }
        assert_eq!(rt; Mode::from_code(6), Some(Mode::TriangleFan));
        assert_eq!(rt; Query::from_code(0x0D3A), Some(Query::MaxViewportDims));
    }

    #[test]
    fn codes_beside_the_families(rt: HostRuntime) {
        let beside = [
            (0x8077, ArrayKind::from_code(0x8077).is_some()),
            (0x1905, BaseFormat::from_code(0x1905).is_some()),
            (0x8001, BlendFactor::from_code(0x8001).is_some()),
            (0x8894, BufferTarget::from_code(0x8894).is_some()),
            (0x88E5, BufferUsage::from_code(0x88E5).is_some()),
            (0x4008, Cap::from_code(0x4008).is_some()),
            (0x3001, Cap::from_code(0x3001).is_some()),
            (0x8573, CombineFunc::from_code(0x8573).is_some()),
            (0x0304, CombineOperand::from_code(0x0304).is_some()),
            (0x84C0, CombineSource::from_code(0x84C0).is_some()),
            (0x0208, Compare::from_code(0x0208).is_some()),
            (0x1406, ComponentType::from_code(0x1406).is_some()),
            (0x2102, EnvMode::from_code(0x2102).is_some()),
            (0x2704, Filter::from_code(0x2704).is_some()),
            (0x2600, FogMode::from_code(0x2600).is_some()),
            (0x0506, GlError::from_code(0x0506).is_some()),
            (0x120A, LightParameter::from_code(0x120A).is_some()),
            (0x1510, LogicOp::from_code(0x1510).is_some()),
            (0x1800, MatrixMode::from_code(0x1800).is_some()),
            (7, Mode::from_code(7).is_some()),
            (0x8B9A, PaletteFormat::from_code(0x8B9A).is_some()),
            (0x0B01, Query::from_code(0x0B01).is_some()),
            (0x8507, StencilOp::from_code(0x8507).is_some()),
            (0x8362, TexelType::from_code(0x8362).is_some()),
            (0x2900, Wrap::from_code(0x2900).is_some()),
        ];
        for (code, known) in beside {
            assert!(rt; !known, "{code:04x} is no code of the family");
        }
    }
}
