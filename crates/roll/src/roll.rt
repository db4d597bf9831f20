ghost use Rattle.std.specs.Prelude.{◌≤◌, length};

pub mod methods;

// Slots of the caller's, the first `filled` of which hold items.
// No Model: behind a view, the lender would not learn what its slots hold once the roll has ended.
#[derive(Drop)]
pub struct Roll<'a, T: Copy> {
    slots: &'a mut [T],
    filled: usize,
    ghost fits: { filled ≤ length slots.now },
}
