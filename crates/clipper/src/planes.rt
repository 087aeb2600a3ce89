ghost use Rattle.std.specs.Prelude.{◌≡◌, ◌≤◌, ◌^◌, ◌+ℤ◌, ◌-ℤ◌, unsigned_abs};
ghost use Rattle.clipper.specs.Planes.{distance as distance_of, is_inside as is_inside_of, planes as planes_of};

use fx_arith::{Fx, span};
use gl_records::ClipVertex;

/// A plane that clips. Each but the first and the last is a side of the clip volume.
#[derive(Clone, Copy)]
pub(crate) enum Plane {
    /// w is at least one raw unit.
    LeastW,
    Left,
    Right,
    Bottom,
    Top,
    Near,
    Far,
    User,
}

const PLANES: [Plane; 8] = [
    Plane::LeastW,
    Plane::Left,
    Plane::Right,
    Plane::Bottom,
    Plane::Top,
    Plane::Near,
    Plane::Far,
    Plane::User,
];

/// The planes in their order.
pub(crate) fn planes(user: bool) -> &'static [Plane]
    ensures { result.now ≡ planes_of user }
{
    if user { &PLANES } else { &PLANES[..7] }
}

impl Plane {
    /// How far a vertex is inside of the plane, in raw units; below 0 where it is outside.
    #[tactic(auto, unfolding(crate::specs::Planes::distance))]
    pub(crate) fn distance(self, vertex: &ClipVertex) -> i64
        ensures value { result ≡ distance_of self vertex.now }
        ensures bound { unsigned_abs result ≤ 2 ^ 32 }
    {
        let [x, y, z, w] = vertex.clip;
        match self {
            Plane::LeastW => span(1, w.0),
            Plane::Left => sum(w, x),
            Plane::Right => difference(w, x),
            Plane::Bottom => sum(w, y),
            Plane::Top => difference(w, y),
            Plane::Near => sum(w, z),
            Plane::Far => difference(w, z),
            Plane::User => i64::from(vertex.plane.0),
        }
    }

    /// A vertex on the plane is inside too.
    pub(crate) fn is_inside(self, vertex: &ClipVertex) -> bool
        ensures { result ≡ is_inside_of self vertex.now }
    {
        0 <= self.distance(vertex)
    }
}

fn sum(a: Fx, b: Fx) -> i64
    ensures value { result ≡ a.0 +ℤ b.0 }
    ensures bound { unsigned_abs result ≤ 2 ^ 32 }
{
    i64::from(a.0) + i64::from(b.0)
}

fn difference(a: Fx, b: Fx) -> i64
    ensures value { result ≡ a.0 -ℤ b.0 }
    ensures bound { unsigned_abs result ≤ 2 ^ 32 }
{
    span(b.0, a.0)
}
