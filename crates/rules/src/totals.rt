// The running totals, lent from join to join.
ghost use Rattle.std.specs.Prelude.{◌≡◌, ◌+◌, ◌<◌, ◌^◌};

#[derive(Clone, Copy, Default)]
pub struct Totals {
    pub cost: usize,
    pub added: usize,
    pub penalties: usize,
    // Nets fully joined.
    pub joined: usize,
}

// The totals with one join more. They are lent by whoever keeps them.
pub fn add_join(totals: &mut Totals, cost: usize, added: usize, penalties: usize)
    requires { (totals.old.cost + cost < 2 ^ 63) × (totals.old.added + added < 2 ^ 63) × (totals.old.penalties + penalties < 2 ^ 63) }
    ensures { totals.new ≡ record { cost = totals.old.cost + cost; added = totals.old.added + added; penalties = totals.old.penalties + penalties; joined = totals.old.joined } }
{
    totals.cost += cost;
    totals.added += added;
    totals.penalties += penalties;
}

// The totals with one net more that is fully joined, lent as above.
pub fn add_net(totals: &mut Totals)
    requires { totals.old.joined < 2 ^ 62 }
    ensures { totals.new ≡ record { cost = totals.old.cost; added = totals.old.added; penalties = totals.old.penalties; joined = totals.old.joined + 1 } }
{
    totals.joined += 1;
}

// The same by value: a local is lent to the functions above.
impl Totals {
    // With one join more.
    pub fn with_join(self, cost: usize, added: usize, penalties: usize) -> Totals
        requires { (self.cost + cost < 2 ^ 63) × (self.added + added < 2 ^ 63) × (self.penalties + penalties < 2 ^ 63) }
        ensures { result ≡ record { cost = self.cost + cost; added = self.added + added; penalties = self.penalties + penalties; joined = self.joined } }
    {
        let mut totals = self;
        add_join(&mut totals, cost, added, penalties);
        totals
    }

    // With one net more that is fully joined.
    pub fn with_net(self) -> Totals
        requires { self.joined < 2 ^ 62 }
        ensures { result ≡ record { cost = self.cost; added = self.added; penalties = self.penalties; joined = self.joined + 1 } }
    {
        let mut totals = self;
        add_net(&mut totals);
        totals
    }
}
