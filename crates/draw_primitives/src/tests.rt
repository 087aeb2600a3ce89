//! The pieces of clipped primitives, counted pixel by pixel.
ghost use Rattle.gl_records.specs.SetupRules.{AreRulesInRange};
ghost use Rattle.gl_records.specs.Valid.{IsInRange};

use super::*;
use buffer_objects::Buffers;
use coverage::rows;
use fx_arith::{Fx, Mat4};
use gl_records::{Attribs, Bytes, Material, Prim, Rec, SetupRules, Size, TileRect, VertexState};
use gl_tokens::Mode;
use std::alloc::{AllocError, Global};
use std::test::Fail;
use vertex_fetch::{Arrays, Regions, draw_error};
use vertex_stage::Stage;

/// A tile.
const SIZE: Size = Size { w: 16, h: 16 };

/// How often each pixel of the tile is covered, row by row from the bottom.
type Counts = [[u8; 16]; 16];

/// The state before the first command, on one tile.
fn opening() -> DrawState
    ensures { AreRulesInRange result.rules }
{
    let (black, white) = ([Fx::ZERO; 4], [Fx::ONE; 4]);
    DrawState {
        vertex: Stage::new(&VertexState {
            modelview: Mat4::identity(),
            projection: Mat4::identity(),
            texture: [Mat4::identity(), Mat4::identity()],
            plane: None,
            lighting: false,
            color_material: false,
            normalize: false,
            rescale: false,
            scene: black,
            material: Material {
                ambient: black,
                diffuse: black,
                specular: black,
                emission: black,
                shininess: Fx::ZERO,
            },
            lights: [None; 8],
            fog: None,
        }),
        current: Attribs {
            pos: white,
            normal: [Fx::ZERO; 3],
            color: white,
            tex: [white, white],
        },
        flat: false,
        rules: SetupRules {
            viewport: [0, 0, 16, 16],
            range: [Fx::ZERO, Fx::ONE],
            front_ccw: true,
            cull: None,
            two_side: false,
            offset: None,
            point: 1,
            line: 1,
        },
    }
}

/// Arrays with the positions x y of region 0 alone.
fn positions() -> Arrays {
    let mut arrays = Arrays::new();
    let pointer = Rec::VertexPointer {
        size: 2,
        kind: 0x140C,
        stride: 0,
        region: 0,
        offset: 0,
    };
    arrays.set(&pointer, None);
    arrays.set(&Rec::EnableClientState { array: 0x8074 }, None);
    arrays
}

/// Adds the pixels that a primitive covers.
fn count(prim: &Prim, counts: &mut Counts)
    requires { IsInRange prim.now }
{
    let bits = rows(prim, TileRect { x0: 0, y0: 0 });
    for r in 0..16 {
        for i in 0..16 {
            counts[r][i] = counts[r][i].saturating_add((bits[r] >> i & 1) as u8);
        }
    }
}

/// Counts the pixels of a draw's primitives. `code` is the mode's, and `amount` the number of vertices x y.
fn counted(
    alloc: Global,
    mode: Mode,
    code: u32,
    amount: i32,
    vertices: &[i32],
) -> Result<Counts, AllocError> {
    let mut bytes = Vec::new(alloc);
    for coordinate in vertices {
        bytes.extend_from_slice(&coordinate.wrapping_mul(65536).to_le_bytes())?;
    }
    let mut regions = Regions::new(alloc);
    regions.set(0, Bytes::new(bytes));
    let arrays = positions();
    let buffers = Buffers::new(alloc);
    let memory = Memory::new(&arrays, &buffers, &regions);
    let rec = Rec::DrawArrays {
        mode: code,
        first: 0,
        count: amount,
    };
    let mut counts = [[0; 16]; 16];
    if draw_error(&rec, None).is_some() {
        return Ok(counts);
    }
    let mut draw = Draw::new(opening(), rec, None, mode, amount.unsigned_abs());
    // no draw here leaves as many pieces
    for _ in 0..64 {
        if let Some(prim) = draw.next(&memory, SIZE) {
            count(&prim, &mut counts);
        }
    }
    Ok(counts)
}

// Each reaches beyond the tile on some sides, and holds it whole: one triangle; one across every side; two that share a
// diagonal; four round the centre, whose shared edges are cut by both of their triangles.
#[test]
fn every_pixel_is_covered_once(rt: HostRuntime) -> Result<(), Fail> {
    let once = [[1; 16]; 16];
    let draws: [(Mode, u32, i32, &[i32]); 4] = [
        (Mode::Triangles, 4, 3, &[-1, -1, 3, -1, -1, 3]),
        (Mode::Triangles, 4, 3, &[-9, -8, 9, -7, 1, 17]),
        (Mode::TriangleStrip, 5, 4, &[-2, -2, 2, -2, -2, 2, 2, 2]),
        (
            Mode::TriangleFan,
            6,
            6,
            &[0, 0, -3, -2, 2, -3, 3, 2, -2, 3, -3, -2],
        ),
    ];
    for (mode, code, amount, vertices) in draws {
        assert_eq!(rt; counted(rt.alloc(), mode, code, amount, vertices)?, once);
    }
    Ok(())
}
