ghost use Rattle.std.specs.Prelude.{◌≡◌, ◌++◌, IfOk};
ghost use Rattle.sr_check.specs.Results.{results_rule, result_types, returned_types, formal_results, are_equal};

use sr_types::{Mode, Param, Signature, Ty, fits};
use sr_value::{Duplicate, NoMemory, Row};
use std::alloc::Global;

/// Whether one operation may be answered by another: the types of their results are equal. Results are
/// what `var` and `res` formals bring back, and what is returned, in one row.
pub fn same_results(alloc: Global, own: &Signature, other: &Signature) -> Result<bool, NoMemory>
    ensures { IfOk result (λ equal. equal ≡ results_rule own.now other.now) }
{
    let mine = results(alloc, own)?;
    let theirs = results(alloc, other)?;
    Ok(all_equal(mine.as_slice(), theirs.as_slice()))
}

/// The types of the results of an operation.
fn results(alloc: Global, signature: &Signature) -> Result<Row<Ty>, NoMemory>
    ensures { IfOk result (λ types. types ≡ result_types signature.now) }
{
    let brought_back = results_of_formals(alloc, signature.params.as_slice())?;
    with_returned(alloc, brought_back, &signature.returns)
}

fn with_returned(alloc: Global, types: Row<Ty>, returns: &Option<Ty>) -> Result<Row<Ty>, NoMemory>
    ensures { IfOk result (λ all. all ≡ types ++ returned_types returns.now) }
{
    match returns {
        None => Ok(types),
        Some(ty) => {
            let mut all = types;
            all.push(ty.copy(alloc)?)?;
            Ok(all)
        }
    }
}

fn results_of_formals(alloc: Global, formals: &[Param]) -> Result<Row<Ty>, NoMemory>
    ensures { IfOk result (λ types. types ≡ formal_results formals.now) }
{
    let mut types = Row::new(alloc);
    for formal in formals {
        match formal.mode {
            Mode::Val => {}
            Mode::Var | Mode::Res => types.push(formal.ty.copy(alloc)?)?,
        }
    }
    Ok(types)
}

/// Whether the types are equal one by one.
fn all_equal(mine: &[Ty], theirs: &[Ty]) -> bool
    ensures { result ≡ are_equal mine.now theirs.now }
{
    let mut rest = theirs;
    for ty in mine {
        match rest {
            [] => return false,
            [first, others @ ..] => {
                if !fits(ty, first) {
                    return false;
                }
                rest = others;
            }
        }
    }
    rest.is_empty()
}
