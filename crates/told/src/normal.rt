// Normalising, over three or four lent numbers.
ghost use Rattle.std.specs.Prelude.{◌≡◌, ◌≤◌, is_some, length};
ghost use Rattle.std.proofs.lemmas.List.Edits.{sets};
ghost use Rattle.numbers.specs.Normal.{normalised, cells};
ghost use Rattle.told.specs.Cells as Cells;

use normals::cells::Cell;
use numbers::normal::normalise;
use numbers::vec3::Vec3;
use numbers::vec4::Vec4;

// Replaces the first vector by its normal, or by what is said to be left of a Flat one, and says whether there is a direction.
fn normalise_first<V: Cell>(v: &mut [f32], flat: V) -> bool
    requires { V.WIDTH ≤ length v.old }
    ensures cells { v.new ≡ sets v.old 0 (cells V.words flat (normalised V.product V.scaled (V.in_row v.old 0))) }
    ensures direction { result ≡ is_some (normalised V.product V.scaled (V.in_row v.old 0)) }
{
    let normal = normalise(V::read(v, 0));
    normal.unwrap_or(flat).put(v, 0);
    normal.is_some()
}

// The normal of three lent numbers: of a Flat vector +0 in every place. C lends one width or the other, so there is an export for each.
pub fn normalise_3d(v: &mut [f32; 3]) -> bool
    ensures { Cells.Normalised3 v.old v.new result }
{
    let flat = Vec3 {
        x: 0.0,
        y: 0.0,
        z: 0.0,
    };
    normalise_first(v, flat)
}

// The same of four lent numbers.
pub fn normalise_4d(v: &mut [f32; 4]) -> bool
    ensures { Cells.Normalised4 v.old v.new result }
{
    let flat = Vec4 {
        x: 0.0,
        y: 0.0,
        z: 0.0,
        w: 0.0,
    };
    normalise_first(v, flat)
}
