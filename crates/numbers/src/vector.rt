// What a point of either size can do: be added to another, be taken k times, and be multiplied with another. What needs no more than that is
// written once, over both. Each type keeps the steps, which go by its axes as the definitions do (`Points3`, `Points4`); the impls hand them on.
ghost use Rattle.std.specs.Prelude.{◌≡◌, Float};
ghost use Rattle.numbers.specs.Points3 as Points3;
ghost use Rattle.numbers.specs.Points4 as Points4;

use crate::vec3::Vec3;
use crate::vec4::Vec4;

pub trait Vector: Copy {
    ghost sum: { Self → Self → Self };

    ghost scaled: { Float → Self → Self };

    ghost product: { Self → Self → Float };

    fn add(self, other: Self) -> Self
        ensures { result ≡ sum self other };

    // k times each component.
    fn scale(self, k: f32) -> Self
        ensures { result ≡ scaled k self };

    fn dot(self, other: Self) -> f32
        ensures { result ≡ product self other };
}

impl Vector for Vec3 {
    ghost sum = { Points3.sum };

    ghost scaled = { Points3.scaled };

    ghost product = { Points3.dot };

    fn add(self, other: Vec3) -> Vec3 {
        Vec3::add(self, other)
    }

    fn scale(self, k: f32) -> Vec3 {
        Vec3::scale(self, k)
    }

    fn dot(self, other: Vec3) -> f32 {
        Vec3::dot(self, other)
    }
}

impl Vector for Vec4 {
    ghost sum = { Points4.sum };

    ghost scaled = { Points4.scaled };

    ghost product = { Points4.dot };

    fn add(self, other: Vec4) -> Vec4 {
        Vec4::add(self, other)
    }

    fn scale(self, k: f32) -> Vec4 {
        Vec4::scale(self, k)
    }

    fn dot(self, other: Vec4) -> f32 {
        Vec4::dot(self, other)
    }
}
