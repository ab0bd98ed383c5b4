// How far routing has come.
use rules::totals::Totals;

// The totals, and how many bits of the plan are written.
#[derive(Clone, Copy, Default)]
pub struct Routed {
    pub totals: Totals,
    pub bits: usize,
}
