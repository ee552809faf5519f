ghost use Rattle.std.specs.Prelude.{◌≡◌};
ghost use Rattle.sr_gen.specs.Doing.{one_way};

/// Where the code of a statement goes on that doesn't end through: the addresses after the loop around, at the
/// loop's next turn, and after the service around.
#[derive(Clone, Copy)]
pub struct Ways {
    pub left: usize,
    pub turned: usize,
    pub returned: usize,
}

/// One way for every ending.
pub fn one_way(to: usize) -> Ways
    ensures { result ≡ one_way to }
{
    Ways {
        left: to,
        turned: to,
        returned: to,
    }
}
