// What other languages link: the entries of the engine, and the square root and normalising. The static library defines each
// function under its own name, which begins with the crate's. None has a `requires`: every input is answered.
#![tactic(auto)]

pub mod opening;
pub mod places;
pub mod refinement;
pub mod shading;
pub mod triangles;

ghost use Rattle.std.specs.Prelude.{◌≡◌};
ghost use Rattle.numbers.specs.Root as Root;
ghost use Rattle.told.specs.Cells as Cells;

// The IEEE 754 square root.
#[unsafe(no_mangle)]
pub extern "C" fn aljumeste_root(x: f32) -> f32
    ensures { result ≡ Root.root x }
{
    numbers::root::root(x)
}

// Replaces v by its normal, and says whether that is a direction. A Flat normal is +0 in every place.
#[unsafe(no_mangle)]
pub extern "C" fn aljumeste_normalise_3d(v: &mut [f32; 3]) -> bool
    ensures { Cells.Normalised3 v.old v.new result }
{
    told::normal::normalise_3d(v)
}

// The same of four components.
#[unsafe(no_mangle)]
pub extern "C" fn aljumeste_normalise_4d(v: &mut [f32; 4]) -> bool
    ensures { Cells.Normalised4 v.old v.new result }
{
    told::normal::normalise_4d(v)
}
