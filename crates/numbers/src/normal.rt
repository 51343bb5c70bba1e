// Normalising: a normal is a direction, Some with its components, or Flat, which is None.
ghost use Rattle.std.specs.Prelude.{◌≡◌};
ghost use Rattle.numbers.specs.Normal as Normal;

use crate::root::root;
use crate::vector::Vector;

// Whether v has no direction: its square rounds to 0.
pub fn is_flat<V: Vector>(v: V) -> bool
    ensures { result ≡ Normal.flat V.product v }
{
    v.dot(v) == 0.0
}

// r = 1 / root(dot(v, v)), each component times r.
pub fn unit<V: Vector>(v: V) -> V
    ensures { result ≡ Normal.unit V.product V.scaled v }
{
    v.scale(1.0 / root(v.dot(v)))
}

// The direction of v, or None, which is Flat.
pub fn normalise<V: Vector>(v: V) -> Option<V>
    ensures { result ≡ Normal.normalised V.product V.scaled v }
{
    if is_flat(v) {
        return None;
    }
    Some(unit(v))
}
