ghost use Rattle.std.specs.Prelude.{◌≡◌, ◌≤◌, slice_index};
ghost use Rattle.gl_query.specs.Answer.{current as current_of, matrices as matrices_of, raster as raster_of, tests as tests_of, blending as blending_of, clears as clears_of, pixels as pixels_of, bindings as bindings_of, limits as limits_of, values_of, answer_of};
ghost use Rattle.gl_query.specs.Values.{items_of, answered};

use crate::bound::Bound;
use crate::values::{
    Values, code, depth, four, matrix, numbers, one, raws2, raws3, raws4, truth, truths,
};
use gl_records::Rec;
use gl_state::State;
use gl_tokens::{Cap, GlError, MatrixMode, Query};

/// What the record asks of the state, and of what is bound. The record is Get or IsEnabled. InvalidEnum exactly where the first asks for a
/// value that isn't answered, or the second for what is no capability; texturing is that of the active unit.
pub fn answer(state: &State, bound: &Bound, rec: &Rec) -> Result<Values, GlError>
    ensures { answered result ≡ answer_of state.now bound.now rec.now }
{
    match rec {
        Rec::Get { query } => match Query::from_code(*query) {
            Some(found) => match values(state, bound, found) {
                Some(values) => Ok(values),
                None => Err(GlError::InvalidEnum),
            },
            None => Err(GlError::InvalidEnum),
        },
        Rec::IsEnabled { capability } => match Cap::from_code(*capability) {
            Some(found) => Ok(truth(state.switches.is_on(state.current.unit, found))),
            None => Err(GlError::InvalidEnum),
        },
        _ => Err(GlError::InvalidEnum),
    }
}

/// What a query answers, subject by subject.
fn values(state: &State, bound: &Bound, query: Query) -> Option<Values>
    ensures { items_of result ≡ values_of state.now bound.now query }
{
    if let Some(values) = current(state, query) {
        return Some(values);
    }
    if let Some(values) = matrices(state, query) {
        return Some(values);
    }
    if let Some(values) = raster(state, query) {
        return Some(values);
    }
    if let Some(values) = tests(state, query) {
        return Some(values);
    }
    if let Some(values) = blending(state, query) {
        return Some(values);
    }
    if let Some(values) = clears(state, query) {
        return Some(values);
    }
    if let Some(values) = pixels(state, query) {
        return Some(values);
    }
    if let Some(values) = bindings(state, bound, query) {
        return Some(values);
    }
    limits(query)
}

fn current(state: &State, query: Query) -> Option<Values>
    ensures { items_of result ≡ current_of state.now query }
{
    let current = &state.current;
    match query {
        Query::CurrentColor => Some(raws4(current.color)),
        Query::CurrentNormal => Some(raws3(current.normal)),
        Query::CurrentTextureCoords => Some(raws4(*current.coordinates(current.unit))),
        Query::ActiveTexture => Some(code(current.unit.code())),
        Query::ClientActiveTexture => Some(code(current.client_unit.code())),
        _ => None,
    }
}

fn matrices(state: &State, query: Query) -> Option<Values>
    ensures { items_of result ≡ matrices_of state.now query }
{
    let (stacks, unit) = (&state.stacks, state.unit());
    match query {
        Query::MatrixMode => Some(code(stacks.mode().code())),
        Query::ModelviewStackDepth => Some(depth(stacks.depth(MatrixMode::Modelview, 0))),
        Query::ProjectionStackDepth => Some(depth(stacks.depth(MatrixMode::Projection, 0))),
        Query::TextureStackDepth => Some(depth(stacks.depth(MatrixMode::Texture, unit))),
        Query::ModelviewMatrix => Some(matrix(stacks.top(MatrixMode::Modelview, 0))),
        Query::ProjectionMatrix => Some(matrix(stacks.top(MatrixMode::Projection, 0))),
        Query::TextureMatrix => Some(matrix(stacks.top(MatrixMode::Texture, unit))),
        _ => None,
    }
}

fn raster(state: &State, query: Query) -> Option<Values>
    ensures { items_of result ≡ raster_of state.now query }
{
    let raster = &state.raster;
    match query {
        Query::Viewport => Some(four(
            raster.x.get(),
            raster.y.get(),
            raster.width.get(),
            raster.height.get(),
        )),
        Query::DepthRange => Some(raws2([raster.near.get(), raster.far.get()])),
        Query::CullFaceMode => Some(code(raster.culled.code())),
        Query::FrontFace => Some(code(raster.front.code())),
        Query::ShadeModel => Some(code(raster.shade_model.code())),
        Query::PointSize => Some(one(raster.point_size.0)),
        Query::LineWidth => Some(one(raster.line_width.0)),
        _ => None,
    }
}

fn tests(state: &State, query: Query) -> Option<Values>
    ensures { items_of result ≡ tests_of state.now query }
{
    let tests = &state.tests;
    match query {
        Query::AlphaTestFunc => Some(code(tests.alpha_comparison.code())),
        Query::AlphaTestRef => Some(one(tests.alpha_reference.get().0)),
        Query::StencilFunc => Some(code(tests.stencil_comparison.code())),
        Query::StencilRef => Some(code(u32::from(tests.stencil_reference))),
        Query::StencilValueMask => Some(code(u32::from(tests.stencil_mask))),
        Query::StencilFail => Some(code(tests.stencil_fail.code())),
        Query::StencilPassDepthFail => Some(code(tests.depth_fail.code())),
        Query::StencilPassDepthPass => Some(code(tests.depth_pass.code())),
        Query::StencilWriteMask => Some(code(u32::from(tests.stencil_write))),
        Query::DepthFunc => Some(code(tests.depth_comparison.code())),
        Query::DepthWriteMask => Some(truth(tests.depth_write)),
        Query::ScissorBox => Some(four(
            tests.scissor_x,
            tests.scissor_y,
            tests.scissor_width,
            tests.scissor_height,
        )),
        _ => None,
    }
}

fn blending(state: &State, query: Query) -> Option<Values>
    ensures { items_of result ≡ blending_of state.now query }
{
    let blending = &state.blending;
    match query {
        Query::BlendSrc => Some(code(blending.source.code())),
        Query::BlendDst => Some(code(blending.destination.code())),
        Query::LogicOpMode => Some(code(blending.operation.code())),
        Query::ColorWriteMask => Some(truths(blending.mask)),
        _ => None,
    }
}

fn clears(state: &State, query: Query) -> Option<Values>
    ensures { items_of result ≡ clears_of state.now query }
{
    let clears = &state.clears;
    match query {
        Query::ColorClearValue => Some(raws4(clears.color)),
        Query::DepthClearValue => Some(one(clears.depth.get().0)),
        Query::StencilClearValue => Some(code(u32::from(clears.stencil))),
        _ => None,
    }
}

fn pixels(state: &State, query: Query) -> Option<Values>
    ensures { items_of result ≡ pixels_of state.now query }
{
    let pixels = &state.pixels;
    match query {
        Query::UnpackAlignment => Some(code(u32::from(pixels.unpack.bytes()))),
        Query::PackAlignment => Some(code(u32::from(pixels.pack.bytes()))),
        _ => None,
    }
}

fn bindings(state: &State, bound: &Bound, query: Query) -> Option<Values>
    ensures { items_of result ≡ bindings_of state.now bound.now query }
{
    match query {
        Query::TextureBinding2D => Some(code(of_unit(bound.textures, state.unit()))),
        Query::ArrayBufferBinding => Some(code(bound.array)),
        Query::ElementArrayBufferBinding => Some(code(bound.element)),
        _ => None,
    }
}

/// The name that a unit has.
fn of_unit(names: [u32; 2], unit: u8) -> u32
    requires { unit ≤ 1 }
    ensures { result ≡ slice_index names unit }
{
    names[usize::from(unit)]
}

fn limits(query: Query) -> Option<Values>
    ensures { items_of result ≡ limits_of query }
{
    match query {
        Query::MaxLights => Some(code(8)),
        Query::MaxClipPlanes => Some(code(1)),
        Query::MaxTextureSize => Some(code(1024)),
        Query::MaxModelviewStackDepth => Some(code(16)),
        Query::MaxProjectionStackDepth => Some(code(2)),
        Query::MaxTextureStackDepth => Some(code(2)),
        Query::MaxViewportDims => Some(numbers(&[2048, 2048])),
        Query::MaxTextureUnits => Some(code(2)),
        Query::SubpixelBits => Some(code(4)),
        Query::RedBits => Some(code(8)),
        Query::GreenBits => Some(code(8)),
        Query::BlueBits => Some(code(8)),
        Query::AlphaBits => Some(code(8)),
        Query::DepthBits => Some(code(24)),
        Query::StencilBits => Some(code(8)),
        _ => None,
    }
}
