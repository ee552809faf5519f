ghost use Rattle.std.specs.Prelude.{◌≡◌};
ghost use Rattle.sr_names.specs.Predefined.{spelling_of, predefined_named};

/// The predefined names. They aren't reserved: a declaration hides them.
#[derive(Clone, Copy, PartialEq, Eq)]
pub enum Predefined {
    Write,
    Writes,
    Read,
    P,
    V,
    Eof,
    Abs,
    Min,
    Max,
    Low,
    High,
    Lb,
    Ub,
    Length,
    Pred,
    Succ,
    MyResource,
    MyVm,
}

/// All predefined names.
const ALL: [Predefined; 18] = [
    Predefined::Write,
    Predefined::Writes,
    Predefined::Read,
    Predefined::P,
    Predefined::V,
    Predefined::Eof,
    Predefined::Abs,
    Predefined::Min,
    Predefined::Max,
    Predefined::Low,
    Predefined::High,
    Predefined::Lb,
    Predefined::Ub,
    Predefined::Length,
    Predefined::Pred,
    Predefined::Succ,
    Predefined::MyResource,
    Predefined::MyVm,
];

impl Predefined {
    /// The name as it is written.
    pub fn spelling(self) -> &'static [u8]
        ensures { result.now ≡ spelling_of self }
    {
        match self {
            Predefined::Write => b"write",
            Predefined::Writes => b"writes",
            Predefined::Read => b"read",
            Predefined::P => b"P",
            Predefined::V => b"V",
            Predefined::Eof => b"EOF",
            Predefined::Abs => b"abs",
            Predefined::Min => b"min",
            Predefined::Max => b"max",
            Predefined::Low => b"low",
            Predefined::High => b"high",
            Predefined::Lb => b"lb",
            Predefined::Ub => b"ub",
            Predefined::Length => b"length",
            Predefined::Pred => b"pred",
            Predefined::Succ => b"succ",
            Predefined::MyResource => b"myresource",
            Predefined::MyVm => b"myvm",
        }
    }

    /// The predefined name that is written so, where there is one.
    pub fn named(name: &[u8]) -> Option<Predefined>
        ensures { result ≡ predefined_named name.now }
    {
        ALL.iter()
            .copied()
            .find(|candidate| candidate.spelling() == name)
    }
}
