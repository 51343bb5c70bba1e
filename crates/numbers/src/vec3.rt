// Three components, the axes x, y and z alone: what the normals in three dimensions are worked out with.
#![tactic(auto, unfolding(crate::specs::Points3::sum, crate::specs::Points3::difference, crate::specs::Points3::scaled, crate::specs::Points3::dot, crate::specs::Points3::cross))]

ghost use Rattle.std.specs.Prelude.{◌≡◌};
ghost use Rattle.numbers.specs.Points3 as Points3;

#[derive(Clone, Copy)]
pub struct Vec3 {
    pub x: f32,
    pub y: f32,
    pub z: f32,
}

impl Vec3 {
    pub fn add(self, other: Vec3) -> Vec3
        ensures { result ≡ Points3.sum self other }
    {
        Vec3 {
            x: self.x + other.x,
            y: self.y + other.y,
            z: self.z + other.z,
        }
    }

    pub fn sub(self, other: Vec3) -> Vec3
        ensures { result ≡ Points3.difference self other }
    {
        Vec3 {
            x: self.x - other.x,
            y: self.y - other.y,
            z: self.z - other.z,
        }
    }

    // k times each component.
    pub fn scale(self, k: f32) -> Vec3
        ensures { result ≡ Points3.scaled k self }
    {
        Vec3 {
            x: k * self.x,
            y: k * self.y,
            z: k * self.z,
        }
    }

    pub fn dot(self, other: Vec3) -> f32
        ensures { result ≡ Points3.dot self other }
    {
        self.x * other.x + self.y * other.y + self.z * other.z
    }

    pub fn cross(self, other: Vec3) -> Vec3
        ensures { result ≡ Points3.cross self other }
    {
        Vec3 {
            x: self.y * other.z - self.z * other.y,
            y: self.z * other.x - self.x * other.z,
            z: self.x * other.y - self.y * other.x,
        }
    }
}
