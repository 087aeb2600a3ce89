ghost use Rattle.std.specs.Prelude.{◌≡◌, ℕ, ℤ, pos, ◌-ℤ◌, IsTrue, not};
ghost use Rattle.coverage.specs.FillRule.{IsOnEdge, SharesEdge};
ghost use Rattle.gl_records.specs.declared.prim.Primitive.{Primitive};
ghost use Rattle.gl_records.specs.Coverage.{covers, edge, edge_end, edge_start, owns as owns_centers};

/// The laws of the fill rule (OpenGL 1.5, 3.5.1). Where two triangles share an edge in opposite directions, as
/// those that run counterclockwise and lie on its two sides do, no pixel is covered by both, and a pixel whose
/// centre lies on the edge is covered by exactly one of them.
pub fn shared_edge()
    // a place to the left of one's edge is to the right of the other's, as far from it
    ensures two_sides { (p q : Primitive) (j k : ℕ) (x y : ℤ) → SharesEdge p q j k
        → edge (edge_start q k) (edge_end q k) x y ≡ pos 0 -ℤ edge (edge_start p j) (edge_end p j) x y }
    ensures disjoint { (p q : Primitive) (j k : ℕ) (x y : ℤ) → SharesEdge p q j k
        → IsTrue (covers p x y) → IsTrue (covers q x y) → ⊥ }
    ensures exactly_one { (p q : Primitive) (j k : ℕ) (x y : ℤ) → SharesEdge p q j k
        → IsOnEdge p j x y → IsOnEdge q k x y → covers p x y ≡ not (covers q x y) }
    ensures owns { (dx dy : ℤ) → ¬ ((dx ≡ pos 0) × (dy ≡ pos 0))
        → owns_centers dx dy ≡ not (owns_centers (pos 0 -ℤ dx) (pos 0 -ℤ dy)) }
{}
