//! The listing at a linear address.

ghost use Rattle.std.specs.Prelude.{◌≡◌, ◌≤◌, ◌+◌, ◌*◌, ◌++◌, length};
ghost use Rattle.arrayvec.specs.ArrayVec.{array_vec_len};
ghost use Rattle.monitor.specs.Reading.{GrowsByListing};

use crate::code::{code_at, is_wide, name_of};
use crate::target::Target;
use crate::texts::{ANSWER_ROOM, Text, push_line};
use reports::line_with;

/// The lines of the code at a linear address, so many of them, or up to where a byte has no page.
pub(crate) fn push_listing<T: Target>(text: &mut Text, target: &T, at: u32, count: u32)
    requires { array_vec_len text.old + 140 * count ≤ ANSWER_ROOM }
    ensures { GrowsByListing (T.machine target.now) count at text.old.items text.new.items }
{
    if count > 0 {
        let code = code_at(target, at);
        let named = name_of(code.as_slice(), is_wide(&target.regs()), at);
        match named.covered {
            Some(covered) => {
                let line = line_with(
                    at,
                    &code.as_slice()[..covered],
                    named.name.as_str().as_bytes(),
                );
                push_line(text, line.text.as_slice());
                push_listing(text, target, at.wrapping_add(covered as u32), count - 1);
            }
            None => push_line(text, b"no page\n"),
        }
    }
}
