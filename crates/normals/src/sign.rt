// The sign that an element's normal has by its parity: an element of odd parity counts with the other sign, and so all normals turn round where
// every parity is changed.
ghost use Rattle.std.specs.Prelude.{◌≡◌, ◌≤◌};
ghost use Rattle.geom.specs.Memory.{parity_of};
ghost use Rattle.geom.specs.Normals as Normals;

// 1 minus twice the parity byte, which is 0 for even and 1 for odd. As an i32 it is converted where it lies, without a register for it.
pub fn sign(parity: u32) -> f32
    requires { parity ≤ 1 }
    ensures { result ≡ Normals.sign (parity_of parity) }
{
    1.0 - 2.0 * ((parity as i32) as f32)
}
