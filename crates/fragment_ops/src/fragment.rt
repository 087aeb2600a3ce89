ghost use Rattle.std.specs.Prelude.{◌≡◌};
ghost use Rattle.gl_records.specs.Fragment.{tests as tests_of, stencil_tested as stencil_tested_of, depth_tested as depth_tested_of, after_logic as color_after_logic, blend as blend_of, pixel_step as pixel_after};

use crate::alpha_test::alpha_passes;
use crate::blending::blended;
use crate::color_mask::masked;
use crate::depth_test::{depth_after, depth_passes};
use crate::logic_op::operated;
use crate::stencil_test::{after_both_pass, after_depth_fail, after_stencil_fail, stencil_passes};
use gl_records::{Frag, FragState, Pixel};

/// The tests of a fragment (OpenGL ES 1.1.12, 4.1.4 to 4.1.6): whether it passes all of them, and the pixel with the
/// stencil value and the depth that they leave. The scissor test is the caller's.
pub fn tests(s: &FragState, f: Frag, p: Pixel) -> (bool, Pixel)
    ensures { result ≡ tests_of s.now f p }
{
    if alpha_passes(s.alpha, f.rgba[3]) {
        stencil_tested(s, f, p)
    } else {
        (false, p)
    }
}

/// The stencil test of a fragment that passed the alpha test, and the depth test.
fn stencil_tested(s: &FragState, f: Frag, p: Pixel) -> (bool, Pixel)
    ensures { result ≡ stencil_tested_of s.now f p }
{
    if stencil_passes(&s.stencil, p.s) {
        depth_tested(s, f, p)
    } else {
        let s = after_stencil_fail(&s.stencil, p.s);
        (false, Pixel { s, ..p })
    }
}

/// The depth test of a fragment that passed the stencil test.
fn depth_tested(s: &FragState, f: Frag, p: Pixel) -> (bool, Pixel)
    ensures { result ≡ depth_tested_of s.now f p }
{
    if depth_passes(s.depth, f.z, p.z) {
        let z = depth_after(s.depth, f.z, p.z);
        let s = after_both_pass(&s.stencil, p.s);
        (true, Pixel { z, s, ..p })
    } else {
        let s = after_depth_fail(&s.stencil, p.s);
        (false, Pixel { s, ..p })
    }
}

/// The colour of a pixel after a fragment that passed the tests (OpenGL ES 1.1.12, 4.1.7, 4.1.9 and 4.2.2): blended, or
/// combined by the logical operation where there is one, and then masked.
pub fn blend(s: &FragState, rgba: [u8; 4], under: [u8; 4]) -> [u8; 4]
    ensures { result ≡ blend_of s.now rgba under }
{
    let color = after_logic(s, rgba, under);
    masked(&color, &s.mask, &under)
}

fn after_logic(s: &FragState, rgba: [u8; 4], under: [u8; 4]) -> [u8; 4]
    ensures { result ≡ color_after_logic s.now.logic s.now.blend rgba under }
{
    match (s.logic, s.blend) {
        (Some(operation), _) => operated(operation, rgba, under),
        (None, Some(factors)) => blended(factors, rgba, under),
        (None, None) => rgba,
    }
}

/// The pixel after a fragment: the tests, and where they pass its colour. The scissor test is the caller's.
pub fn pixel_step(s: &FragState, f: Frag, p: Pixel) -> Pixel
    ensures { result ≡ pixel_after s.now f p }
{
    let (passes, tested) = tests(s, f, p);
    if passes {
        let rgba = blend(s, f.rgba, tested.rgba);
        Pixel { rgba, ..tested }
    } else {
        tested
    }
}
