use units::Weight;

// One period as an advance takes it: how likely claims are, what becomes of the capital, what ruin costs, and how much
// weight the cut may leave out. No Model: a view needs a code, and a value with functions in it has none.
#[derive(Drop)]
pub struct Period<'a, L, R, P> {
    pub law: &'a L,
    pub rule: &'a R,
    pub penalty: &'a P,
    pub allowance: Weight,
}
