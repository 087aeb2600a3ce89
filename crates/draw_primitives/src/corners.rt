//! The corners of a primitive.
ghost use Rattle.std.specs.Prelude.{◌≡◌, All, IfSome, map};
ghost use Rattle.vertex_fetch.specs.Draws.{HasVertex};
ghost use Rattle.draw_primitives.specs.Draw.{shaded, vertex_at, vertex_of_element as vertex_of_element_of, with_colors_of as with_colors_of_last};
ghost use Rattle.draw_primitives.specs.Known.{AreVertices, IsVertex, vertices_of};
ghost use Rattle.draw_primitives.specs.Memory.{Source};

use crate::draw_state::DrawState;
use crate::known::{KnownVertex, KnownVertices};
use crate::memory::Memory;
use buffer_objects::BufferKey;
use gl_records::{ClipVertex, Rec};
use vertex_fetch::{fetch, index_at};

/// The vertices of the draw with these numbers. Those whose elements of the arrays are known aren't computed again.
pub fn vertices(
    state: &DrawState,
    rec: &Rec,
    element: Option<BufferKey>,
    memory: &Memory<'_>,
    numbers: [u32; 3],
    known: &Option<KnownVertices>,
) -> KnownVertices
    requires numbers { All (HasVertex element rec.now) numbers }
    requires known { IfSome known.now (AreVertices state.now (record { rec = rec.now; element = element; memory = memory.now })) }
    ensures vertices { vertices_of result ≡ map (vertex_at state.now (record { rec = rec.now; element = element; memory = memory.now })) numbers }
    ensures known { AreVertices state.now (record { rec = rec.now; element = element; memory = memory.now }) result }
{
    let [i, j, k] = numbers;
    let vertex = |number| vertex(state, rec, element, memory, number, known);
    let first = vertex(i);
    let second = if j == i { first } else { vertex(j) };
    let third = if k == j { second } else { vertex(k) };
    KnownVertices {
        first,
        second,
        third,
    }
}

/// The vertex with this number.
fn vertex(
    state: &DrawState,
    rec: &Rec,
    element: Option<BufferKey>,
    memory: &Memory<'_>,
    number: u32,
    known: &Option<KnownVertices>,
) -> KnownVertex
    requires number { HasVertex element rec.now number }
    requires known { IfSome known.now (AreVertices state.now (record { rec = rec.now; element = element; memory = memory.now })) }
    ensures vertex { result.vertex ≡ vertex_at state.now (record { rec = rec.now; element = element; memory = memory.now }) number }
    ensures known { IsVertex state.now (record { rec = rec.now; element = element; memory = memory.now }) result }
{
    let index = index_at(rec, element, memory.buffers, memory.regions, number);
    if let Some(known) = known {
        if known.third.index == index {
            return known.third;
        }
        if known.second.index == index {
            return known.second;
        }
        if known.first.index == index {
            return known.first;
        }
    }
    KnownVertex {
        index,
        vertex: vertex_of_element(state, memory, index),
    }
}

#[tactic(auto, unfolding(crate::specs::Draw::vertex_of_element))]
fn vertex_of_element(state: &DrawState, memory: &Memory<'_>, index: u32) -> ClipVertex
    ensures { (source : Source) → source.memory ≡ memory.now → result ≡ vertex_of_element_of state.now source index }
{
    let Memory {
        arrays,
        buffers,
        regions,
    } = memory;
    state
        .vertex
        .run(&fetch(arrays, buffers, regions, &state.current, index))
}

/// The corners of the primitive with these vertices, in clip coordinates; a flat one has the colours of its last corner.
pub fn corners(flat: bool, vertices: &KnownVertices) -> [ClipVertex; 3]
    ensures { result ≡ shaded flat (vertices_of vertices.now) }
{
    let a = vertices.first.vertex;
    let b = vertices.second.vertex;
    let c = vertices.third.vertex;
    if flat {
        [with_colors_of(&c, a), with_colors_of(&c, b), c]
    } else {
        [a, b, c]
    }
}

/// The vertex `v` with the colours of the last corner.
fn with_colors_of(last: &ClipVertex, v: ClipVertex) -> ClipVertex
    ensures { result ≡ with_colors_of_last last.now v }
{
    ClipVertex {
        front: last.front,
        back: last.back,
        ..v
    }
}
