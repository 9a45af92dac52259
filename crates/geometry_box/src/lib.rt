// Boxes: document 01, section "Boxes". Transforms and boxes are passed by value, and each operation on f64 rounds once, left to right.
#![tactic(auto)]

ghost use Rattle.std.specs.Prelude.{◌≡◌};
ghost use Rattle.geometry_box.specs.Boxes.{identity, product, image, box_of, apart, meet, finite_point, finite_points, box_of_points, least, greatest, least_of, greatest_of, with_plus_zero, overlap};

use geometry::{Affine, Rect};

// A point of the plane.
#[derive(Clone, Copy)]
pub struct Point {
    pub x: f64,
    pub y: f64,
}

// The box from (x0, y0) to (x1, y1), in the order x0, y0, x1, y1; or none. Not an Option: document 01 names this enum, and document 02, #102, gives
// it a third kind.
#[derive(Clone, Copy)]
pub enum BoundingBox {
    Box(f64, f64, f64, f64),
    None,
}

// The transform of a node that has none of its own.
pub fn identity() -> Affine
    ensures { result ≡ identity }
{
    Affine {
        a: 1.0,
        b: 0.0,
        c: 0.0,
        d: 1.0,
        e: 0.0,
        f: 0.0,
    }
}

// The product of two transforms: q is done first, and p, the parent's, stands on the left.
pub fn product(p: Affine, q: Affine) -> Affine
    ensures { result ≡ product p q }
{
    Affine {
        a: p.a * q.a + p.c * q.b,
        b: p.b * q.a + p.d * q.b,
        c: p.a * q.c + p.c * q.d,
        d: p.b * q.c + p.d * q.d,
        e: p.a * q.e + p.c * q.f + p.e,
        f: p.b * q.e + p.d * q.f + p.f,
    }
}

// Where t sends (x, y).
fn apply(t: Affine, x: f64, y: f64) -> Point
    ensures { result ≡ image t x y }
{
    Point {
        x: t.a * x + t.c * y + t.e,
        y: t.b * x + t.d * y + t.f,
    }
}

// The box of the bounds r under the transform t; none where a corner is not finite.
pub fn box_of(t: Affine, r: Rect) -> BoundingBox
    ensures { result ≡ box_of t r }
{
    let p = apply(t, r.x0, r.y0);
    let q = apply(t, r.x0, r.y1);
    let u = apply(t, r.x1, r.y0);
    let v = apply(t, r.x1, r.y1);
    if are_finite(p, q, u, v) {
        return box_of_points(p, q, u, v);
    }
    BoundingBox::None
}

// Whether both are boxes and their intersection is empty. Each kind has an arm, so that a third kind adds arms alone.
pub fn are_apart(b: BoundingBox, c: BoundingBox) -> bool
    ensures { result ≡ apart b c }
{
    match b {
        BoundingBox::Box(x0, y0, x1, y1) => match c {
            BoundingBox::Box(u0, v0, u1, v1) => {
                overlap(x0, x1, u0, u1) * overlap(y0, y1, v0, v1) == 0.0
            }
            BoundingBox::None => false,
        },
        BoundingBox::None => false,
    }
}

// Whether both are boxes and their intersection is not empty. An inner function that answers the shared area would be no plainer: it needs a
// definition of its own, and both functions a match on its answer.
pub fn do_meet(b: BoundingBox, c: BoundingBox) -> bool
    ensures { result ≡ meet b c }
{
    match b {
        BoundingBox::Box(x0, y0, x1, y1) => match c {
            BoundingBox::Box(u0, v0, u1, v1) => {
                !(overlap(x0, x1, u0, u1) * overlap(y0, y1, v0, v1) == 0.0)
            }
            BoundingBox::None => false,
        },
        BoundingBox::None => false,
    }
}

// Whether both coordinates are finite.
fn point_is_finite(p: Point) -> bool
    ensures { result ≡ finite_point p }
{
    geometry::is_finite(p.x) & geometry::is_finite(p.y)
}

// Whether all coordinates of four points are finite.
fn are_finite(p: Point, q: Point, r: Point, s: Point) -> bool
    ensures { result ≡ finite_points p q r s }
{
    point_is_finite(p) & point_is_finite(q) & point_is_finite(r) & point_is_finite(s)
}

// The box of four points: their least and greatest coordinates.
fn box_of_points(p: Point, q: Point, r: Point, s: Point) -> BoundingBox
    ensures { result ≡ box_of_points p q r s }
{
    BoundingBox::Box(
        least_of(p.x, q.x, r.x, s.x),
        least_of(p.y, q.y, r.y, s.y),
        greatest_of(p.x, q.x, r.x, s.x),
        greatest_of(p.y, q.y, r.y, s.y),
    )
}

// The least of four, a zero as +0.
fn least_of(p: f64, q: f64, r: f64, s: f64) -> f64
    ensures { result ≡ least_of p q r s }
{
    with_plus_zero(lesser(lesser(p, q), lesser(r, s)))
}

// The greatest of four, a zero as +0.
fn greatest_of(p: f64, q: f64, r: f64, s: f64) -> f64
    ensures { result ≡ greatest_of p q r s }
{
    with_plus_zero(greater(greater(p, q), greater(r, s)))
}

fn lesser(x: f64, y: f64) -> f64
    ensures { result ≡ least x y }
{
    if y < x { y } else { x }
}

fn greater(x: f64, y: f64) -> f64
    ensures { result ≡ greatest x y }
{
    if x < y { y } else { x }
}

// x, with +0 for either zero.
fn with_plus_zero(x: f64) -> f64
    ensures { result ≡ with_plus_zero x }
{
    if x == 0.0 { 0.0 } else { x }
}

// How far the intervals from a to b and from c to d overlap, cut at zero.
fn overlap(a: f64, b: f64, c: f64, d: f64) -> f64
    ensures { result ≡ overlap a b c d }
{
    let length = lesser(b, d) - greater(a, c);
    if 0.0 < length { length } else { 0.0 }
}
