ghost use Rattle.std.specs.Prelude.{◌*◌, ◌^◌, ◌≤◌};

pub mod advance;
pub mod calls;

// What is kept of a run between its calls; the pairs are on the caller's board. Before the first open there is nothing.
// Board and spare come with each call: a struct of both would have to promise each time that they are still the lent ones.
#[derive(Clone, Copy)]
pub struct Run {
    opened: Option<Opened>,
}

// The numbers of an open run.
#[derive(Clone, Copy)]
struct Opened {
    long: u16,
    known: u16,
    periods: u16,
    dropped: u32,
    ghost long_fits: { long ≤ 8192 },
    ghost known_fits: { known ≤ long },
    ghost periods_fit: { periods ≤ 4095 },
    ghost dropped_fits: { dropped ≤ periods * 2 ^ 20 },
}

// The levels known after a period was worked, and the weight that its cut left out.
#[derive(Clone, Copy)]
struct Worked {
    known: u16,
    dropped: u32,
}
