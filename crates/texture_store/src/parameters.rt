//! How a texture is read, and whether its smaller levels are made (OpenGL ES 1.1.12, 3.7.4).
ghost use Rattle.std.specs.Prelude.{◌≡◌};
ghost use Rattle.gl_records.specs.Complete.{is_mipmap};
ghost use Rattle.gl_tokens.specs.Commands.{known};
ghost use Rattle.gl_tokens.specs.Filter.{from_code_of as filter_from_code};
ghost use Rattle.gl_tokens.specs.Wrap.{from_code_of as wrap_from_code};
ghost use Rattle.texture_store.specs.Commands.{single_level as single_level_of, with_parameter};
ghost use Rattle.texture_store.specs.Textures.{opening_parameters};

use gl_records::Sampler;
use gl_tokens::{Filter, GlError, TextureParameter, Wrap};

/// What TexParameterx says of a texture.
#[derive(Clone, Copy, Debug, PartialEq, Eq)]
pub struct Parameters {
    /// How it is read.
    pub sampler: Sampler,
    /// Whether smaller levels are made of level 0 whenever that is written.
    pub remakes: bool,
}

impl Parameters {
    /// Before anything is said of a texture.
    pub(crate) fn new() -> Parameters
        ensures { result ≡ opening_parameters }
    {
        Parameters {
            sampler: Sampler {
                mag: Filter::Linear,
                min: Filter::NearestMipmapLinear,
                wrap_s: Wrap::Repeat,
                wrap_t: Wrap::Repeat,
            },
            remakes: false,
        }
    }

    /// The same with another parameter; InvalidEnum where it has no such value.
    pub(crate) fn with(
        mut self,
        parameter: TextureParameter,
        value: u32,
    ) -> Result<Parameters, GlError>
        ensures { result ≡ with_parameter self parameter value }
    {
        match parameter {
            TextureParameter::MagFilter => self.sampler.mag = single_level(value)?,
            TextureParameter::MinFilter => self.sampler.min = filter(value)?,
            TextureParameter::WrapS => self.sampler.wrap_s = wrap(value)?,
            TextureParameter::WrapT => self.sampler.wrap_t = wrap(value)?,
            TextureParameter::GenerateMipmap => self.remakes = value != 0,
        }
        Ok(self)
    }
}

fn filter(code: u32) -> Result<Filter, GlError>
    ensures { result ≡ known (filter_from_code code) }
{
    Filter::from_code(code).ok_or(GlError::InvalidEnum)
}

fn wrap(code: u32) -> Result<Wrap, GlError>
    ensures { result ≡ known (wrap_from_code code) }
{
    Wrap::from_code(code).ok_or(GlError::InvalidEnum)
}

/// A filter that reads one level.
fn single_level(code: u32) -> Result<Filter, GlError>
    ensures { result ≡ single_level_of code }
{
    match filter(code)? {
        Filter::Nearest => Ok(Filter::Nearest),
        Filter::Linear => Ok(Filter::Linear),
        _ => Err(GlError::InvalidEnum),
    }
}
