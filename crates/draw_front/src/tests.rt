//! A front, stepped by hand.
ghost use Rattle.std.specs.Prelude.{◌≡◌, ◌+◌, ◌^◌, ◌<◌, ◌≤◌, [], OnOk};

use super::*;
use fx_arith::Fx;
use gl_records::{Bytes, ClearItem, Item, PixelBox, Rec, Size};
use std::alloc::{AllocError, Global};
use std::process::Abort;
use std::test::Fail;
use std::thread::Threads;
use texture_ghosts::Lent;

const SIZE: Size = Size { w: 16, h: 16 };

/// x y of nine vertices: a triangle over half of the surface, one outside of the clip volume, and one
/// over an eighth.
const VERTICES: [i32; 18] = [
    -65536, -65536, 65536, -65536, -65536, 65536, //
    131072, 0, 196608, 0, 131072, 65536, //
    0, 0, 65536, 0, 0, 65536,
];

/// Steps the front by a record, and takes its items.
fn stepped<R: Threads + AllocGlobal>(
    rt: &R,
    front: &mut Front,
    rec: Rec,
) -> Result<(Step, Vec<Item>), AllocError>
    requires taken { front.old.left ≡ [] }
    requires countable { front.old.index + 1 < 2 ^ 32 }
    ensures taken { OnOk result (front.new.left ≡ []) }
    ensures counted { OnOk result (front.new.index ≤ front.old.index + 1) }
{
    let lent = Lent::empty(rt.alloc());
    let step = front.step(rec, &lent)?;
    let mut items = Vec::new(rt.alloc());
    'items: while let Some(item) = front.next_item(rt, &lent)? {
        items.push(item)?;
    }
    Ok((step, items))
}

fn vertices(alloc: Global) -> Result<Bytes, AllocError> {
    let mut bytes = Vec::new(alloc);
    for coordinate in VERTICES {
        bytes.extend_from_slice(&coordinate.to_le_bytes())?;
    }
    Ok(Bytes::new(bytes))
}

/// The places of an item's corners, in 1/16 pixel, and its colour; none of a Clear.
fn corners(item: &Item) -> Option<([(i32, i32); 3], [u8; 4])> {
    match item {
        Item::Draw(prim, _) => {
            let [a, b, c] = &prim.verts;
            Some(([(a.x, a.y), (b.x, b.y), (c.x, c.y)], a.rgba))
        }
        Item::Clear(_) => None,
    }
}

#[test]
fn a_front_stepped_by_hand(rt: HostRuntime) -> Result<(), Fail> {
    let mut front = Front::new(rt.alloc(), SIZE)?;
    let (step, items) = stepped(&rt, &mut front, Rec::Clear { mask: 0x4400 })?;
    assert_eq!(rt; step, Step::Items);
    let clear = ClearItem {
        area: PixelBox {
            x0: 0,
            y0: 0,
            x1: 16,
            y1: 16,
        },
        color: Some(([0; 4], [true; 4])),
        depth: None,
        stencil: Some((0, 255)),
    };
    assert_eq!(rt; items.as_slice(), [Item::Clear(clear)].as_slice());
    let piece = vertices(rt.alloc())?;
    let (step, items) = stepped(&rt, &mut front, Rec::ClientBytes { region: 3, piece })?;
    assert_eq!(rt; (step, items.len()), (Step::Quiet, 0));
    let pointer = Rec::VertexPointer {
        size: 2,
        kind: 0x140C,
        stride: 0,
        region: 3,
        offset: 0,
    };
    let (step, _) = stepped(&rt, &mut front, pointer)?;
    assert_eq!(rt; step, Step::Quiet);
    let (step, _) = stepped(&rt, &mut front, Rec::EnableClientState { array: 0x8074 })?;
    assert_eq!(rt; step, Step::Quiet);
    draws(&rt, &mut front)
}

/// A draw of three triangles of which the second draws nothing, a refused draw, a Clear of no buffer, Swap and End.
fn draws<R: Threads + AllocGlobal + Abort>(rt: &R, front: &mut Front) -> Result<(), Fail>
    requires taken { front.old.left ≡ [] }
    requires countable { front.old.index ≤ 4 }
{
    let draw = |mode| Rec::DrawArrays {
        mode,
        first: 0,
        count: 9,
    };
    let (step, items) = stepped(rt, front, draw(4))?;
    assert_eq!(rt; (step, items.len()), (Step::Items, 2));
    let white = [255; 4];
    assert_eq!(rt;
        corners(&items[0]),
        Some(([(0, 0), (256, 0), (0, 256)], white))
    );
    assert_eq!(rt;
        corners(&items[1]),
        Some(([(128, 128), (256, 128), (128, 256)], white))
    );
    let (step, items) = stepped(rt, front, draw(7))?;
    assert_eq!(rt; (step, items.len()), (Step::Quiet, 0));
    assert_eq!(rt; front.lines(), 1);
    let (step, items) = stepped(rt, front, Rec::Clear { mask: 0 })?;
    assert_eq!(rt; (step, items.len()), (Step::Items, 0));
    let (step, items) = stepped(rt, front, Rec::Swap)?;
    assert_eq!(rt; (step, items.len()), (Step::Present, 0));
    assert_eq!(rt;
        front.take_lines().as_slice(),
        b"raise 5 0x0500\n".as_slice()
    );
    assert_eq!(rt; front.lines(), 0);
    assert_eq!(rt; front.take_lines().as_slice().len(), 0);
    let (step, items) = stepped(rt, front, Rec::End)?;
    assert_eq!(rt; (step, items.len()), (Step::Ended, 0));
    assert_eq!(rt; front.index(), 8);
    Ok(())
}
