//! One colour for all pixels of a primitive.
ghost use Rattle.std.specs.Prelude.{IfSome};
ghost use Rattle.interpolation.specs.TileValues.{IsColorOfCorners};

use gl_records::Prim;

/// The colour of all pixels of the primitive before texturing, where its corners have the same one.
pub fn flat_color(prim: &Prim) -> Option<[u8; 4]>
    ensures { IfSome result (IsColorOfCorners prim.now) }
{
    let [a, b, c] = &prim.verts;
    if a.rgba == b.rgba && a.rgba == c.rgba {
        // one by one, which tells the prover that there are four
        let [red, green, blue, alpha] = a.rgba;
        Some([red, green, blue, alpha])
    } else {
        None
    }
}
