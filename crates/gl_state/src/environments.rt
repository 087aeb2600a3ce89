ghost use Rattle.std.specs.Prelude.{◌≡◌, ◌<◌, OnSome};
ghost use Rattle.gl_tokens.specs.CombineFunc.{from_code_of as func_from_code_of};
ghost use Rattle.gl_tokens.specs.CombineOperand.{from_code_of as operand_from_code_of};
ghost use Rattle.gl_state.specs.Values.{word as word_of};
ghost use Rattle.gl_state.specs.Environments.{opening_combine, opening_environment, opening_environments, alpha_func as alpha_func_of, alpha_operand as alpha_operand_of, scale_of, with_func as with_func_of, with_source as with_source_of, with_operand as with_operand_of, with_scale as with_scale_of, with_rgb as rgb_of, with_alpha as alpha_of, with_parameter as with_parameter_of, environment as environment_of, with_environment, tex_env as tex_env_of};

use crate::values::{vector, word};
use fx_arith::Fx;
use gl_records::{Combine, Params};
use gl_tokens::{
    CombineFunc, CombineOperand, CombineSource, EnvMode, EnvParameter, GlError, TextureUnit,
};

/// The target of TexEnvx: TEXTURE_ENV.
const TEXTURE_ENV: u32 = 0x2300;

/// How a texture unit puts its texel and the colour of before together (OpenGL ES 1.1.12, 3.7.12).
#[derive(Clone, Copy, Debug, PartialEq, Eq)]
pub struct Environment {
    pub mode: EnvMode,
    /// R G B A, as it was given.
    pub color: [Fx; 4],
    /// How colours are combined, and how alphas are, where the mode is COMBINE.
    pub rgb: Combine,
    pub alpha: Combine,
}

impl Environment {
    fn new() -> Environment
        ensures { result ≡ opening_environment }
    {
        Environment {
            mode: EnvMode::Modulate,
            color: [Fx::ZERO; 4],
            rgb: new_combine([
                CombineOperand::SourceColor,
                CombineOperand::SourceColor,
                CombineOperand::SourceAlpha,
            ]),
            alpha: new_combine([CombineOperand::SourceAlpha; 3]),
        }
    }

    /// The environment with another parameter: InvalidEnum where a code isn't one of its family, InvalidValue where
    /// a scale isn't 1, 2 or 4.
    fn with(self, parameter: EnvParameter, values: &Params) -> Result<Environment, GlError>
        ensures { result ≡ with_parameter_of self parameter values.now }
    {
        let (rgb, alpha) = (self.rgb, self.alpha);
        match parameter {
            EnvParameter::Mode => match EnvMode::from_code(word(values)) {
                Some(mode) => Ok(Environment { mode, ..self }),
                None => Err(GlError::InvalidEnum),
            },
            EnvParameter::Color => Ok(Environment {
                color: vector(values),
                ..self
            }),
            EnvParameter::CombineRgb => self.with_rgb(with_func(
                rgb,
                CombineFunc::from_code(word(values)),
            )),
            EnvParameter::CombineAlpha => self.with_alpha(with_func(
                alpha,
                alpha_func(word(values)),
            )),
            EnvParameter::RgbScale => self.with_rgb(with_scale(rgb, values)),
            EnvParameter::AlphaScale => self.with_alpha(with_scale(alpha, values)),
            EnvParameter::Source0Rgb => self.with_rgb(with_source(rgb, 0, values)),
            EnvParameter::Source1Rgb => self.with_rgb(with_source(rgb, 1, values)),
            EnvParameter::Source2Rgb => self.with_rgb(with_source(rgb, 2, values)),
            EnvParameter::Source0Alpha => self.with_alpha(with_source(alpha, 0, values)),
            EnvParameter::Source1Alpha => self.with_alpha(with_source(alpha, 1, values)),
            EnvParameter::Source2Alpha => self.with_alpha(with_source(alpha, 2, values)),
            EnvParameter::Operand0Rgb => self.with_rgb(with_operand(
                rgb,
                0,
                CombineOperand::from_code(word(values)),
            )),
            EnvParameter::Operand1Rgb => self.with_rgb(with_operand(
                rgb,
                1,
                CombineOperand::from_code(word(values)),
            )),
            EnvParameter::Operand2Rgb => self.with_rgb(with_operand(
                rgb,
                2,
                CombineOperand::from_code(word(values)),
            )),
            EnvParameter::Operand0Alpha => self.with_alpha(with_operand(
                alpha,
                0,
                alpha_operand(word(values)),
            )),
            EnvParameter::Operand1Alpha => self.with_alpha(with_operand(
                alpha,
                1,
                alpha_operand(word(values)),
            )),
            EnvParameter::Operand2Alpha => self.with_alpha(with_operand(
                alpha,
                2,
                alpha_operand(word(values)),
            )),
        }
    }

    fn with_rgb(self, changed: Result<Combine, GlError>) -> Result<Environment, GlError>
        ensures { result ≡ rgb_of self changed }
    {
        match changed {
            Ok(rgb) => Ok(Environment { rgb, ..self }),
            Err(error) => Err(error),
        }
    }

    fn with_alpha(self, changed: Result<Combine, GlError>) -> Result<Environment, GlError>
        ensures { result ≡ alpha_of self changed }
    {
        match changed {
            Ok(alpha) => Ok(Environment { alpha, ..self }),
            Err(error) => Err(error),
        }
    }
}

fn new_combine(operands: [CombineOperand; 3]) -> Combine
    ensures { result ≡ opening_combine operands }
{
    Combine {
        func: CombineFunc::Modulate,
        sources: [
            CombineSource::Texture,
            CombineSource::Previous,
            CombineSource::Constant,
        ],
        operands,
        scale: 1,
    }
}

/// The functions that make alpha: any but inner products.
fn alpha_func(code: u32) -> Option<CombineFunc>
    ensures { result ≡ alpha_func_of (func_from_code_of code) }
{
    match CombineFunc::from_code(code) {
        Some(CombineFunc::Dot3Rgb | CombineFunc::Dot3Rgba) => None,
        function => function,
    }
}

/// The operands of alpha: those of the source's alpha.
fn alpha_operand(code: u32) -> Option<CombineOperand>
    ensures { result ≡ alpha_operand_of (operand_from_code_of code) }
{
    match CombineOperand::from_code(code) {
        Some(CombineOperand::SourceColor | CombineOperand::OneMinusSourceColor) => None,
        operand => operand,
    }
}

fn with_func(combine: Combine, found: Option<CombineFunc>) -> Result<Combine, GlError>
    ensures { result ≡ with_func_of combine found }
{
    match found {
        Some(func) => Ok(Combine { func, ..combine }),
        None => Err(GlError::InvalidEnum),
    }
}

fn with_source(combine: Combine, k: usize, values: &Params) -> Result<Combine, GlError>
    requires { k < 3 }
    ensures { result ≡ with_source_of combine k values.now }
{
    match CombineSource::from_code(word(values)) {
        Some(source) => {
            let mut changed = combine;
            changed.sources[k] = source;
            Ok(changed)
        }
        None => Err(GlError::InvalidEnum),
    }
}

fn with_operand(
    combine: Combine,
    k: usize,
    found: Option<CombineOperand>,
) -> Result<Combine, GlError>
    requires { k < 3 }
    ensures { result ≡ with_operand_of combine k found }
{
    match found {
        Some(operand) => {
            let mut changed = combine;
            changed.operands[k] = operand;
            Ok(changed)
        }
        None => Err(GlError::InvalidEnum),
    }
}

fn with_scale(combine: Combine, values: &Params) -> Result<Combine, GlError>
    ensures { result ≡ with_scale_of combine values.now }
{
    match scale(word(values)) {
        Ok(scale) => Ok(Combine { scale, ..combine }),
        Err(error) => Err(error),
    }
}

/// The scale that a word stands for as a GLfixed.
fn scale(word: u32) -> Result<u8, GlError>
    ensures { result ≡ scale_of word }
{
    match word {
        0x10000 => Ok(1),
        0x20000 => Ok(2),
        0x40000 => Ok(4),
        _ => Err(GlError::InvalidValue),
    }
}

/// The texture environments, one a texture unit.
#[derive(Clone, Copy, Debug, PartialEq, Eq)]
pub struct Environments {
    pub texture0: Environment,
    pub texture1: Environment,
}

impl Environments {
    /// The texture's value is multiplied by that of before.
    pub fn new() -> Environments
        ensures { result ≡ opening_environments }
    {
        Environments {
            texture0: Environment::new(),
            texture1: Environment::new(),
        }
    }

    /// The environment of a unit.
    pub fn of(&self, unit: TextureUnit) -> &Environment
        ensures { result.now ≡ environment_of self.now unit }
    {
        match unit {
            TextureUnit::Texture0 => &self.texture0,
            TextureUnit::Texture1 => &self.texture1,
        }
    }

    fn set(&mut self, unit: TextureUnit, environment: Environment)
        ensures { self.new ≡ with_environment self.old unit environment }
    {
        match unit {
            TextureUnit::Texture0 => self.texture0 = environment,
            TextureUnit::Texture1 => self.texture1 = environment,
        }
    }

    /// TexEnvx, of this unit: InvalidEnum where the target isn't TEXTURE_ENV, where there is no such parameter, and
    /// where it has no such value; InvalidValue where a scale isn't 1, 2 or 4.
    pub(crate) fn tex_env(
        &mut self,
        unit: TextureUnit,
        target: u32,
        code: u32,
        values: &Params,
    ) -> Option<GlError>
        ensures run { (self.new, result) ≡ tex_env_of self.old unit target code values.now }
        ensures unchanged { OnSome result (self.new ≡ self.old) }
    {
        if target != TEXTURE_ENV {
            return Some(GlError::InvalidEnum);
        }
        let Some(parameter) = EnvParameter::from_code(code) else {
            return Some(GlError::InvalidEnum);
        };
        match self.of(unit).with(parameter, values) {
            Ok(changed) => {
                self.set(unit, changed);
                None
            }
            Err(error) => Some(error),
        }
    }
}
