// A point: four numbers carried together, axes x, y, z and w (time).
ghost use Rattle.std.specs.Prelude.{◌≡◌};
ghost use Rattle.numbers.specs.Binary32.{count};
ghost use Rattle.numbers.specs.Points4 as Points4;

use std::num::nearest_usize_to_f32;

#[derive(Clone, Copy)]
pub struct Vec4 {
    pub x: f32,
    pub y: f32,
    pub z: f32,
    pub w: f32,
}

#[tactic(auto, unfolding(crate::specs::Points4::sum, crate::specs::Points4::difference, crate::specs::Points4::scaled, crate::specs::Points4::quotient, crate::specs::Points4::dot))]
impl Vec4 {
    // +0 on every axis.
    pub fn zero() -> Vec4
        ensures { result ≡ Points4.origin }
    {
        Vec4 {
            x: 0.0,
            y: 0.0,
            z: 0.0,
            w: 0.0,
        }
    }

    pub fn add(self, other: Vec4) -> Vec4
        ensures { result ≡ Points4.sum self other }
    {
        Vec4 {
            x: self.x + other.x,
            y: self.y + other.y,
            z: self.z + other.z,
            w: self.w + other.w,
        }
    }

    pub fn sub(self, other: Vec4) -> Vec4
        ensures { result ≡ Points4.difference self other }
    {
        Vec4 {
            x: self.x - other.x,
            y: self.y - other.y,
            z: self.z - other.z,
            w: self.w - other.w,
        }
    }

    // k times each component.
    pub fn scale(self, k: f32) -> Vec4
        ensures { result ≡ Points4.scaled k self }
    {
        Vec4 {
            x: k * self.x,
            y: k * self.y,
            z: k * self.z,
            w: k * self.w,
        }
    }

    // Each component divided by k.
    pub fn over(self, k: f32) -> Vec4
        ensures { result ≡ Points4.quotient self k }
    {
        Vec4 {
            x: self.x / k,
            y: self.y / k,
            z: self.z / k,
            w: self.w / k,
        }
    }

    pub fn dot(self, other: Vec4) -> f32
        ensures { result ≡ Points4.dot self other }
    {
        self.x * other.x + self.y * other.y + self.z * other.z + self.w * other.w
    }

    pub fn midpoint(self, other: Vec4) -> Vec4
        ensures { result ≡ Points4.midpoint self other }
    {
        self.add(other).scale(0.5)
    }
}

// Up to here every whole number is a binary32 number.
const EXACT: usize = 16_777_216;

// n as a number. A few corners are cast, which costs nothing where n is a constant; the library rounds what has no number of its own.
fn count(n: usize) -> f32
    ensures { result ≡ count n }
{
    if n <= EXACT {
        return n as f32;
    }
    nearest_usize_to_f32(n)
}

// The corner sum of an element, divided by the number of corners, which is a constant in each instance.
pub fn mean<const N: usize>(corners: [Vec4; N]) -> Vec4
    ensures { result ≡ Points4.mean corners.entry }
{
    let mut sum = Vec4::zero();
    for i in 0..N {
        sum = sum.add(corners[i]);
    }
    sum.over(count(N))
}

// The matrix with the columns a, b, c and d times the column of weights.
#[tactic(auto, unfolding(crate::specs::Points4::columns))]
pub fn columns(a: Vec4, b: Vec4, c: Vec4, d: Vec4, weights: Vec4) -> Vec4
    ensures { result ≡ Points4.columns a b c d weights }
{
    let ab = a.scale(weights.x).add(b.scale(weights.y));
    ab.add(c.scale(weights.z)).add(d.scale(weights.w))
}
