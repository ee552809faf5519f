ghost use Rattle.std.specs.Prelude.{◌≡◌, option_copied};
ghost use Rattle.sr_select.specs.Guards.{guard_block, home_seen, instance_of_cap, machine_of_cap, machine_seen, named_seen};

use sr_core::{Home, Me, Named};
use sr_value::{Cap, Fault, Value};

/// The value of an own variable among those that went with the `Select`.
pub fn own_in<'a>(names: &[Named], env: &'a [Value], var: u32) -> Option<&'a Value>
    ensures { option_copied result ≡ named_seen names.now env.now var }
{
    let mut rest = env;
    for name in names {
        match rest {
            [] => return None,
            [value, others @ ..] => {
                match name {
                    Named::Own(own) if *own == var => return Some(value),
                    _ => rest = others,
                }
            }
        }
    }
    None
}

fn instance_of(cap: Option<Cap>) -> Option<u32>
    ensures { result ≡ instance_of_cap cap }
{
    match cap {
        Some(Cap::Res(instance)) => Some(instance),
        _ => None,
    }
}

fn machine_of(cap: Option<Cap>) -> Option<u32>
    ensures { result ≡ machine_of_cap cap }
{
    match cap {
        Some(Cap::Vm(machine)) => Some(machine),
        _ => None,
    }
}

/// The instance of an imported global.
pub fn home_in(names: &[Named], env: &[Value], import: u32) -> Option<u32>
    ensures { result ≡ home_seen names.now env.now import }
{
    let mut rest = env;
    for name in names {
        match rest {
            [] => return None,
            [value, others @ ..] => {
                match name {
                    Named::Home(home) if *home == import => return instance_of(value.as_cap()),
                    _ => rest = others,
                }
            }
        }
    }
    None
}

/// The instance whose variables are meant.
pub fn block_of(me: Me, names: &[Named], env: &[Value], home: Home) -> Result<u32, Fault>
    ensures { result ≡ guard_block me (home_seen names.now env.now) home }
{
    match home {
        Home::Mine => Ok(me.instance),
        Home::Imported(import) => match home_in(names, env, import) {
            Some(instance) => Ok(instance),
            None => Err(Fault::Range),
        },
    }
}

/// The machine of the process.
pub fn machine_in(names: &[Named], env: &[Value]) -> Option<u32>
    ensures { result ≡ machine_seen names.now env.now }
{
    let mut rest = env;
    for name in names {
        match rest {
            [] => return None,
            [value, others @ ..] => {
                match name {
                    Named::Machine => return machine_of(value.as_cap()),
                    _ => rest = others,
                }
            }
        }
    }
    None
}
