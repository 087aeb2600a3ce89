//! Worked triangles, whose numbers come from a calculation with fractions outside the program.
ghost use Rattle.std.specs.Prelude.{◌≤ℤ◌, pos, negsuc};
ghost use Rattle.gl_records.specs.ClipVertex.{w_of};
ghost use Rattle.gl_records.specs.SetupRules.{AreRulesInRange};

use crate::setup;
use fx_arith::Fx;
use gl_records::{ClipVertex, Prim, PrimKind, SetupRules, Size};
use std::test::Fail;

pub(crate) const SIZE: Size = Size { w: 16, h: 16 };

pub(crate) const FRONT: [u8; 4] = [255, 0, 128, 255];

const BACK: [u8; 4] = [0, 255, 0, 255];

/// The corners (-1, -1), (1, -1) and (-1, 1) of the clip volume, in units of 1/65536.
const CORNERS: [[i32; 4]; 3] = [
    [-65536, -65536, 0, 65536],
    [65536, -65536, 0, 65536],
    [-65536, 65536, 0, 65536],
];

/// The same corners, the second at the far plane and the others at the near plane.
const SLOPE: [[i32; 4]; 3] = [
    [-65536, -65536, -65536, 65536],
    [65536, -65536, 65536, 65536],
    [-65536, 65536, -65536, 65536],
];

/// Small numbers, of which no quotient is whole.
const ODD: [[i32; 4]; 3] = [[-1, -3, -5, 7], [7, -7, 7, 7], [1, 5, 3, 9]];

pub(crate) fn vertex(clip: [i32; 4]) -> ClipVertex
    ensures { pos 1 ≤ℤ w_of result }
{
    let w = clip[3].max(1);
    ClipVertex {
        clip: [Fx(clip[0]), Fx(clip[1]), Fx(clip[2]), Fx(w)],
        plane: Fx::ZERO,
        front: [Fx::ONE, Fx::ZERO, Fx(32768), Fx(70000)],
        back: [Fx(-1), Fx::ONE, Fx::ZERO, Fx::ONE],
        tex: [[Fx(1), Fx(2), Fx(3)], [Fx(4), Fx(5), Fx(6)]],
        fog: Fx(7),
    }
}

/// Rules with a square viewport of 16 pixels.
pub(crate) fn rules(
    place: i32,
    front_ccw: bool,
    cull: Option<[bool; 2]>,
    offset: Option<[Fx; 2]>,
) -> SetupRules
    requires from { negsuc 4095 ≤ℤ place }
    requires to { place ≤ℤ pos 4096 }
    ensures { AreRulesInRange result }
{
    SetupRules {
        viewport: [place, place, 16, 16],
        range: [Fx::ZERO, Fx::ONE],
        front_ccw,
        cull,
        two_side: true,
        offset,
        point: 1,
        line: 1,
    }
}

/// What is made of these clip coordinates, in this order of the corners.
fn made(rules: &SetupRules, clips: &[[i32; 4]; 3], clockwise: bool) -> Option<Prim>
    requires { AreRulesInRange rules.now }
{
    let (a, b, c) = (vertex(clips[0]), vertex(clips[1]), vertex(clips[2]));
    if clockwise {
        setup(rules, PrimKind::Triangle, &[a, c, b], SIZE)
    } else {
        setup(rules, PrimKind::Triangle, &[a, b, c], SIZE)
    }
}

/// x y z q of the three corners, and the bounds.
fn numbers(prim: &Prim) -> ([(i32, i32, i32, u32); 3], [i32; 4]) {
    let [a, b, c] = prim.verts;
    let area = prim.bounds;
    (
        [
            (a.x, a.y, a.z, a.q),
            (b.x, b.y, b.z, b.q),
            (c.x, c.y, c.z, c.q),
        ],
        [area.x0, area.y0, area.x1, area.y1],
    )
}

#[test]
fn culling_and_colors(rt: HostRuntime) {
    let table = [
        (true, None, false, Some(FRONT)),
        (true, None, true, Some(BACK)),
        (false, None, false, Some(BACK)),
        (false, None, true, Some(FRONT)),
        (true, Some([true, false]), false, None),
        (true, Some([true, false]), true, Some(BACK)),
        (true, Some([false, true]), false, Some(FRONT)),
        (true, Some([false, true]), true, None),
        (false, Some([true, false]), true, None),
        (true, Some([true, true]), false, None),
    ];
    for (front_ccw, cull, clockwise, want) in table {
        let prim = made(&rules(0, front_ccw, cull, None), &CORNERS, clockwise);
        assert_eq!(rt; prim.map(|prim| prim.verts[2].rgba), want);
    }
}

#[test]
fn places_and_bounds(rt: HostRuntime) -> Result<(), Fail> {
    let plain = rules(0, true, None, None);
    let whole = (
        [
            (0, 0, 8388607, 32768),
            (256, 0, 8388607, 32768),
            (0, 256, 8388607, 32768),
        ],
        [0, 0, 16, 16],
    );
    let prim = made(&plain, &CORNERS, false).ok_or("counterclockwise")?;
    assert_eq!(rt; numbers(&prim), whole);
    assert_eq!(rt;
        (prim.kind, prim.verts[1].tex, prim.verts[1].fog),
        (PrimKind::Triangle, [[1, 2, 3], [4, 5, 6]], 7)
    );
    let prim = made(&plain, &CORNERS, true).ok_or("clockwise")?;
    assert_eq!(rt; numbers(&prim), whole, "the corners run counterclockwise");
    let prim = made(&rules(-8, true, None, None), &CORNERS, false).ok_or("partly outside")?;
    let cut = (
        [
            (-128, -128, 8388607, 32768),
            (128, -128, 8388607, 32768),
            (-128, 128, 8388607, 32768),
        ],
        [0, 0, 8, 8],
    );
    assert_eq!(rt; numbers(&prim), cut);
    let prim = made(&plain, &ODD, false).ok_or("odd")?;
    let odd = (
        [
            (109, 73, 2396745, 306783378),
            (256, 0, 16777215, 306783378),
            (142, 199, 11184810, 238609294),
        ],
        [7, 0, 16, 12],
    );
    assert_eq!(rt; numbers(&prim), odd);
    Ok(())
}

#[test]
fn offsets(rt: HostRuntime) -> Result<(), Fail> {
    let table = [
        (65536, 131072, [1048577, 17825792, 1048577]),
        (-98304, -1, [-1572865, 15204350, -1572865]),
        (i32::MAX, 0, [33554432, 50331647, 33554432]),
    ];
    for (factor, units, want) in table {
        let prim = made(
            &rules(0, true, None, Some([Fx(factor), Fx(units)])),
            &SLOPE,
            false,
        )
        .ok_or("offset")?;
        assert_eq!(rt; prim.verts.map(|corner| corner.z), want);
    }
    Ok(())
}

#[test]
fn nothing(rt: HostRuntime) {
    let plain = rules(0, true, None, None);
    let [a, b, _] = CORNERS;
    assert_eq!(rt; made(&plain, &[a, b, b], false), None, "no area");
    assert_eq!(rt;
        made(&rules(16, true, None, None), &CORNERS, false),
        None,
        "outside the surface"
    );
    let thin = |x| [a, [x, -65536, 0, 65536], [-65536, 65536, 0, 65536]];
    assert_eq!(rt;
        made(&plain, &thin(-61952), false),
        None,
        "no centre in its box"
    );
    assert!(rt;
        made(&plain, &thin(-61440), false).is_some(),
        "a column of centres at its right side"
    );
}
