//! Textures and fog on a whole surface. The bytes are worked out by hand.
ghost use Rattle.std.specs.Prelude.{◌≤◌, IsTrue};
ghost use Rattle.std.specs.Option.{option_copied};
ghost use Rattle.gl_records.specs.Shading.{IsReadable};
ghost use Rattle.gl_records.specs.Valid.{IsCornerInRange, IsValid};

use crate::Surface;
use gl_records::{
    Combine, Env, FragState, ImageSet, Item, Level, PixelBox, Prim, PrimKind, Sampler, Size,
    Texels, UnitState, VersionId, VertexOut, is_complete,
};
use gl_tokens::{
    BaseFormat, BlendFactor, CombineFunc, CombineOperand, CombineSource, Compare, EnvMode, Filter,
    Wrap,
};
use std::alloc::{AllocError, Global};
use std::process::Abort;
use std::test::Fail;

const SIZE: Size = Size { w: 2, h: 1 };

/// Nothing is on.
const PLAIN: FragState = FragState {
    units: [None; 2],
    fog: None,
    scissor: None,
    alpha: None,
    stencil: None,
    depth: None,
    blend: None,
    logic: None,
    mask: [true; 4],
};

const KEEP: Combine = Combine {
    func: CombineFunc::Replace,
    sources: [CombineSource::Previous; 3],
    operands: [CombineOperand::SourceAlpha; 3],
    scale: 1,
};

/// A unit that reads level 0 alone, and takes the nearest texel.
fn unit(mode: EnvMode, format: BaseFormat) -> Option<UnitState> {
    Some(UnitState {
        version: VersionId(7),
        format,
        sampler: Sampler {
            mag: Filter::Nearest,
            min: Filter::Nearest,
            wrap_s: Wrap::Repeat,
            wrap_t: Wrap::Repeat,
        },
        env: Env {
            mode,
            color: [0; 4],
            rgb: KEEP,
            alpha: KEEP,
        },
    })
}

/// An image of one row of texels, each R G B A from the lowest byte.
fn image(alloc: Global, texels: &[u32], w: u16) -> Result<ImageSet, AllocError> {
    let mut set = ImageSet::empty();
    set.levels[0] = Some(Level {
        w,
        h: 1,
        format: BaseFormat::Rgba,
        texels: Texels::new(Vec::from_slice(alloc, texels)?),
    });
    Ok(set)
}

/// A corner with the colour 80 FF FF FF, and half in fog.
fn corner(x: u16, y: u16, s: i32) -> VertexOut
    requires column { x ≤ 64 }
    requires row { y ≤ 64 }
    ensures { IsCornerInRange result }
{
    VertexOut {
        x: i32::from(x),
        y: i32::from(y),
        z: 0,
        q: 1,
        rgba: [128, 255, 255, 255],
        tex: [[s, 0, 65536]; 2],
        fog: 32768,
    }
}

/// A triangle over both pixels, on which s goes from 0 to 1: the left pixel's is 1/4, and the right one's 3/4.
fn triangle() -> Prim
    ensures { IsValid result SIZE }
{
    Prim {
        kind: PrimKind::Triangle,
        verts: [corner(0, 0, 0), corner(64, 0, 131072), corner(0, 64, 0)],
        width: 1,
        bounds: PixelBox {
            x0: 0,
            y0: 0,
            x1: 2,
            y1: 1,
        },
    }
}

fn is_readable(unit: &Option<UnitState>, image: Option<&ImageSet>) -> bool
    ensures { IsTrue result → IsReadable unit.now (option_copied image.entry) }
{
    match (unit, image) {
        (Some(unit), Some(set)) => is_complete(set, unit.sampler),
        _ => true,
    }
}

/// Both pixels of a surface on which the triangle was drawn.
fn drawn(
    rt: &impl Abort,
    alloc: Global,
    state: FragState,
    first: Option<&ImageSet>,
    second: Option<&ImageSet>,
) -> Result<[u8; 8], AllocError> {
    assert!(rt; is_readable(&state.units[0], first));
    assert!(rt; is_readable(&state.units[1], second));
    let mut surface = Surface::new(alloc, SIZE)?;
    surface.draw(SIZE, &Item::Draw(triangle(), state), first, second);
    let mut bytes = [9; 8];
    surface.row(SIZE, 0, &mut bytes);
    Ok(bytes)
}

#[test]
fn textures_and_fog(rt: HostRuntime) -> Result<(), Fail> {
    let alloc = rt.alloc();
    // red and green, and a blue that lets half through
    let first = image(alloc, &[0xff0000ff, 0xff00ff00], 2)?;
    let second = image(alloc, &[0x80ff0000], 1)?;
    let modulate = unit(EnvMode::Modulate, BaseFormat::Rgb);
    let add = unit(EnvMode::Add, BaseFormat::Rgb);
    let replace = unit(EnvMode::Replace, BaseFormat::Rgba);
    // fog: 128 parts of the colour and 127 of the fog's, of 255; alpha stays
    let gray = Some([10, 20, 30, 40]);
    let over = Some((BlendFactor::SourceAlpha, BlendFactor::OneMinusSourceAlpha));
    let at_least = |alpha| Some((Compare::GreaterOrEqual, alpha));
    let table = [
        (
            [None, None],
            None,
            None,
            None,
            [128, 255, 255, 255, 128, 255, 255, 255],
        ),
        // 80 FF FF FF by red and by green
        (
            [modulate, None],
            None,
            None,
            None,
            [128, 0, 0, 255, 0, 255, 0, 255],
        ),
        // by blue, at the other unit
        (
            [None, modulate],
            None,
            None,
            None,
            [0, 0, 255, 255, 0, 0, 255, 255],
        ),
        (
            [modulate, add],
            None,
            None,
            None,
            [128, 0, 255, 255, 0, 255, 255, 255],
        ),
        // (128 * 128 + 127 * 10) / 255 is 69
        (
            [None, None],
            gray,
            None,
            None,
            [69, 138, 143, 255, 69, 138, 143, 255],
        ),
        (
            [modulate, None],
            gray,
            None,
            None,
            [69, 10, 15, 255, 5, 138, 15, 255],
        ),
        // the texel's alpha is 128: it is tested, and blended with
        (
            [None, replace],
            None,
            at_least(128),
            None,
            [0, 0, 255, 128, 0, 0, 255, 128],
        ),
        ([None, replace], None, at_least(129), None, [0; 8]),
        (
            [None, replace],
            None,
            None,
            over,
            [0, 0, 128, 64, 0, 0, 128, 64],
        ),
    ];
    for (units, fog, alpha, blend, want) in table {
        let state = FragState {
            units,
            fog,
            alpha,
            blend,
            ..PLAIN
        };
        assert_eq!(rt;
            drawn(&rt, alloc, state, Some(&first), Some(&second))?,
            want
        );
    }
    // a unit without an image leaves the colour
    let state = FragState {
        units: [modulate, None],
        ..PLAIN
    };
    assert_eq!(rt;
        drawn(&rt, alloc, state, None, None)?,
        [128, 255, 255, 255, 128, 255, 255, 255]
    );
    Ok(())
}
