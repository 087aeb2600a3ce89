ghost use Rattle.std.specs.Prelude.{◌≡◌, ◌<◌, ◌≤◌, ◌^◌, ◌*ℤ◌, ◌-ℤ◌, [], ◌∷◌, unsigned_abs, true, false};
ghost use Rattle.fx_arith.specs.Number.{floor_quotient};
ghost use Rattle.clipper.specs.Planes.{is_inside};
ghost use Rattle.clipper.specs.Crossing.{IsAcross, between as between_of, each_between, vertex_between, crossing as crossing_of};

use crate::planes::Plane;
use fx_arith::{Fx, floor_quotient_wide, span};
use gl_records::ClipVertex;

/// Where the edge from `inner`, which is inside of the plane, to `outer`, which is outside, crosses it.
pub(crate) fn crossing(plane: Plane, inner: &ClipVertex, outer: &ClipVertex) -> ClipVertex
    requires inside { is_inside plane inner.now ≡ true }
    requires outside { is_inside plane outer.now ≡ false }
    ensures { result ≡ crossing_of plane inner.now outer.now }
{
    let edge = Edge {
        inner: plane.distance(inner),
        outer: plane.distance(outer),
    };
    edge.vertex_between(inner, outer)
}

/// How far the two ends of an edge are inside of a plane.
#[derive(Clone, Copy)]
pub(crate) struct Edge {
    pub(crate) inner: i64,
    pub(crate) outer: i64,
}

impl Edge {
    #[tactic(auto, unfolding(crate::specs::Crossing::vertex_between))]
    fn vertex_between(self, a: &ClipVertex, b: &ClipVertex) -> ClipVertex
        requires { IsAcross self }
        ensures { result ≡ vertex_between self.inner self.outer a.now b.now }
    {
        ClipVertex {
            clip: self.four_between(&a.clip, &b.clip),
            plane: self.between(a.plane, b.plane),
            front: self.four_between(&a.front, &b.front),
            back: self.four_between(&a.back, &b.back),
            tex: [
                self.three_between(&a.tex[0], &b.tex[0]),
                self.three_between(&a.tex[1], &b.tex[1]),
            ],
            fog: self.between(a.fog, b.fog),
        }
    }

    fn four_between(self, a: &[Fx; 4], b: &[Fx; 4]) -> [Fx; 4]
        requires { IsAcross self }
        ensures { result ≡ each_between self.inner self.outer (0 ∷ 1 ∷ 2 ∷ 3 ∷ []) a.now b.now }
    {
        [
            self.between(a[0], b[0]),
            self.between(a[1], b[1]),
            self.between(a[2], b[2]),
            self.between(a[3], b[3]),
        ]
    }

    fn three_between(self, a: &[Fx; 3], b: &[Fx; 3]) -> [Fx; 3]
        requires { IsAcross self }
        ensures { result ≡ each_between self.inner self.outer (0 ∷ 1 ∷ 2 ∷ []) a.now b.now }
    {
        [
            self.between(a[0], b[0]),
            self.between(a[1], b[1]),
            self.between(a[2], b[2]),
        ]
    }

    /// From `a` towards `b`, as far as the plane is on the way.
    fn between(self, a: Fx, b: Fx) -> Fx
        requires { IsAcross self }
        ensures { result.0 ≡ between_of self.inner self.outer a.0 b.0 }
    {
        let step = self.step(span(a.0, b.0));
        Fx((i128::from(a.0) + step) as i32)
    }

    /// How far the plane is on a way of this length, rounded down.
    fn step(self, length: i64) -> i128
        requires { IsAcross self }
        ensures { result ≡ floor_quotient (length *ℤ self.inner) (self.inner -ℤ self.outer) }
    {
        floor_quotient_wide(product(length, self.inner), self.inner - self.outer)
    }
}

/// The exact product.
fn product(a: i64, b: i64) -> i128
    ensures value { result ≡ a *ℤ b }
    ensures bound { unsigned_abs result < 2 ^ 127 }
{
    i128::from(a) * i128::from(b)
}
