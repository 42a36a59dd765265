ghost use Rattle.std.specs.Prelude.{◌≡◌, ◌+◌, ◌-◌, ◌≤◌};

/// How many schedules may be generated, and how many were.
#[derive(Clone, Copy, Debug)]
pub(crate) struct Budget {
    pub(crate) spent: u64,
    pub(crate) most: u64,
    ghost within: { spent ≤ most },
}

impl Budget {
    pub(crate) fn new(most: u64) -> Budget
        ensures spent { result.spent ≡ 0 }
        ensures most { result.most ≡ most }
    {
        Budget { spent: 0, most }
    }

    pub(crate) fn left(self) -> u64
        ensures { result ≡ self.most - self.spent }
    {
        self.most - self.spent
    }

    pub(crate) fn spend(&mut self, count: u64)
        requires { self.old.spent + count ≤ self.old.most }
        ensures spent { self.new.spent ≡ self.old.spent + count }
        ensures most { self.new.most ≡ self.old.most }
    {
        self.spent += count;
    }
}
