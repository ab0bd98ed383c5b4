// Why a job, a plan or a lent slice is refused, and where.
ghost use Rattle.std.specs.Prelude.{◌≡◌};
ghost use Rattle.job.specs.Refusals.{number_of};

// Each with the number that a call answers; 7 is retired.
#[derive(Clone, Copy, PartialEq, Eq, Debug)]
pub enum Refusal {
    TooManyBytes = 1,
    Cut = 2,
    Edition = 3,
    TooManyVertices = 4,
    Layer = 5,
    Obstacle = 6,
    Pin = 8,
    EarlierPin = 9,
    Box = 10,
    Tail = 11,
    ShortMap = 12,
    ShortWork = 13,
    ShortPlan = 14,
    PlanCut = 15,
    Start = 16,
    Move = 17,
    Cost = 18,
    Report = 19,
}

impl Refusal {
    pub fn number(self) -> usize
        ensures { result ≡ number_of self }
    {
        self as usize
    }

    // The refusal, with where the rule is broken.
    pub fn at(self, place: usize) -> Refused
        ensures { result ≡ record { refusal = self; place = place } }
    {
        Refused {
            refusal: self,
            place,
        }
    }
}

// The place is a bit of the job or the plan, a need, or a layer of the report.
#[derive(Clone, Copy, PartialEq, Eq, Debug)]
pub struct Refused {
    pub refusal: Refusal,
    pub place: usize,
}
