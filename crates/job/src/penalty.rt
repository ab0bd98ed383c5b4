// A penalty, as the job prices it.
ghost use Rattle.std.specs.Prelude.{◌≡◌};
ghost use Rattle.job.specs.Structs.{penalty_of};

// No Option of a price: where there is none nothing would be owed, and a closed penalty forbids.
#[derive(Clone, Copy)]
pub enum Penalty {
    // It forbids what it prices.
    Closed,
    Price(usize),
}

impl Penalty {
    // The closed price.
    pub const CLOSED: usize = 65_535;

    pub fn from_field(field: usize) -> Penalty
        ensures { result ≡ penalty_of field }
    {
        if field == Penalty::CLOSED {
            Penalty::Closed
        } else {
            Penalty::Price(field)
        }
    }
}

impl From<usize> for Penalty {
    ghost from_gives = { λ field penalty. penalty ≡ penalty_of field };

    fn from(field: usize) -> Penalty {
        Penalty::from_field(field)
    }
}
