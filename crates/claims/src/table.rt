ghost use Rattle.std.specs.Prelude.{◌≡◌, ◌≤◌, length};
ghost use Rattle.claims.specs.Law.{total};
ghost use Rattle.units.specs.One.{one};

use units::Weight;

pub mod methods;

// A claim law over a borrowed list of weights.
#[derive(Clone, Copy)]
pub struct Table<'a> {
    list: &'a [Weight],
    ghost some: { 1 ≤ length list.now },
    ghost few: { length list.now ≤ 4096 },
    ghost whole: { total list.now ≡ one },
}
