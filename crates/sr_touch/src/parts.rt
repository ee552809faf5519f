ghost use Rattle.std.specs.Prelude.{◌≡◌, ◌<◌, [], ◌∷◌, IfSome, option_map};
ghost use Rattle.sr_touch.specs.Orders.{IsAscending, adding, parts_in, up_to_three, with_part};

/// One to three parts of a world, in ascending order.
#[derive(Clone, Copy, Debug, PartialEq, Eq)]
pub enum Parts {
    One(usize),
    Two(usize, usize),
    Three(usize, usize, usize),
}

fn one_and(first: usize, part: usize) -> Parts
    ensures value { parts_in result ≡ with_part (first ∷ []) part }
    ensures ascending { IsAscending result }
{
    if part == first {
        Parts::One(first)
    } else if part < first {
        Parts::Two(part, first)
    } else {
        Parts::Two(first, part)
    }
}

fn two_and(first: usize, second: usize, part: usize) -> Parts
    requires { first < second }
    ensures value { parts_in result ≡ with_part (first ∷ second ∷ []) part }
    ensures ascending { IsAscending result }
{
    if part == first || part == second {
        Parts::Two(first, second)
    } else if part < first {
        Parts::Three(part, first, second)
    } else if part < second {
        Parts::Three(first, part, second)
    } else {
        Parts::Three(first, second, part)
    }
}

impl Parts {
    /// These parts and one more, unless they are more than three.
    pub fn with(self, part: usize) -> Option<Parts>
        requires { IsAscending self }
        ensures value { option_map parts_in result ≡ up_to_three (with_part (parts_in self) part) }
        ensures ascending { IfSome result IsAscending }
    {
        match self {
            Parts::One(first) => Some(one_and(first, part)),
            Parts::Two(first, second) => Some(two_and(first, second, part)),
            Parts::Three(first, second, third) => {
                if part == first || part == second || part == third {
                    Some(self)
                } else {
                    None
                }
            }
        }
    }
}

/// These parts and one more, as long as there are no more than three.
pub fn adding(parts: Option<Parts>, part: usize) -> Option<Parts>
    requires { IfSome parts IsAscending }
    ensures value { option_map parts_in result ≡ adding (option_map parts_in parts) part }
    ensures ascending { IfSome result IsAscending }
{
    match parts {
        Some(parts) => parts.with(part),
        None => None,
    }
}
