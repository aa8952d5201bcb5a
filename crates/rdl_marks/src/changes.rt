//! What patches have made of a description, while they can be taken back.
ghost use Rattle.std.specs.Prelude.{◌≡◌, IfOk};
ghost use Rattle.rdl_tree.specs.Turned.{kept};
ghost use Rattle.rdl_marks.specs.Marks.{no_marks};
ghost use Rattle.rdl_marks.specs.Noted.{all_noted};

use crate::marks::BodyMarks;
use rdl_tree::patch::Patch;
use rdl_tree::turned::Turned;
use rdl_tree::way::WayBack;
use std::alloc::{AllocError, Global};

/// The marks of the patches that have changed the description, by those that lead back. They borrow what these hold of it.
pub fn marks_of<'a>(
    alloc: Global,
    turned: &'a Turned<'_, WayBack>,
) -> Result<BodyMarks<'a>, AllocError>
    ensures { IfOk result (λ marks. marks ≡ all_noted (kept turned.now) no_marks) }
{
    let mut marks = BodyMarks::new(alloc);
    let mut number = turned.back_len();
    'patches: while number > 0 {
        number -= 1;
        if let Some(back) = turned.back_patch(number) {
            marks.note(alloc, back)?;
        }
    }
    Ok(marks)
}

/// The marks of patches that these take back, of which the last one takes back the first patch. They borrow what these hold.
pub fn marks_along<'a>(alloc: Global, backs: &'a [Patch]) -> Result<BodyMarks<'a>, AllocError>
    ensures { IfOk result (λ marks. marks ≡ all_noted backs.now no_marks) }
{
    let mut marks = BodyMarks::new(alloc);
    let mut number = backs.len();
    'patches: while number > 0 {
        number -= 1;
        marks.note(alloc, &backs[number])?;
    }
    Ok(marks)
}
