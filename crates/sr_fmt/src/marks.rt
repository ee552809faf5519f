ghost use Rattle.std.specs.Prelude.{◌≡◌, length, IfOk};
ghost use Rattle.sr_fmt.specs.Marks.{AreMarked};

use sr_value::Span;
use std::alloc::{AllocError, Global};

/// A mark for each of so many bytes: whether one of the spans begins there.
pub(crate) fn marks_at(alloc: Global, spans: &[Span], len: usize) -> Result<Vec<bool>, AllocError>
    ensures len { IfOk result (λ marks. length marks.items ≡ len) }
    ensures marked { IfOk result (λ marks. AreMarked len spans.now marks.items) }
{
    let mut marks = vec![in alloc; false; len]?;
    for span in spans {
        let at = span.from as usize;
        if at < len {
            marks[at] = true;
        }
    }
    Ok(marks)
}
