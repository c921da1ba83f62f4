//! Changes the middle of a list of numbers, and counts places in a text from both of its ends.
ghost use Rattle.std.specs.Prelude.{ℕ, ◌≡◌, ◌+◌, ◌-◌, ◌<◌, ◌≤◌, ◌++◌, take, drop, length, slice_index, slice_range};
ghost use Rattle.std.specs.Prelude.{vec_len, vec_capacity, OnOk, OnErr, IsOk};
ghost use Rattle.typst_lines.specs.Seamed.{seamed};

use std::alloc::AllocError;

/// Moves the numbers from `from` up to `to` after all others.
fn move_to_end(numbers: &mut [usize], from: usize, to: usize)
    requires window { from ≤ to }
    requires inside { to ≤ length numbers.old }
    ensures { numbers.new ≡ take from numbers.old ++ (drop to numbers.old ++ slice_range numbers.old from to) }
{
    numbers[from..].rotate_left(to - from);
}

/// Moves the numbers from `at` on before those from `to` on.
fn move_from_end(numbers: &mut [usize], to: usize, at: usize)
    requires window { to ≤ at }
    requires inside { at ≤ length numbers.old }
    ensures { numbers.new ≡ take to numbers.old ++ (drop at numbers.old ++ slice_range numbers.old to at) }
{
    numbers[to..].rotate_left(at - to);
}

/// Makes room for `many` numbers where those from `from` up to `to` are. The numbers before and after them stay. The
/// capacity of the list suffices.
fn spread(numbers: &mut Vec<usize>, from: usize, to: usize, many: usize)
    requires window { from ≤ to }
    requires inside { to ≤ vec_len numbers.old }
    requires room { vec_len numbers.old + (many - (to - from)) ≤ vec_capacity numbers.old }
    ensures len { vec_len numbers.new + (to - from) ≡ vec_len numbers.old + many }
    ensures before { take from numbers.new.items ≡ take from numbers.old.items }
    ensures behind { drop (from + many) numbers.new.items ≡ drop to numbers.old.items }
    ensures capacity { vec_capacity numbers.old ≤ vec_capacity numbers.new }
{
    if many < to - from {
        let left = numbers.len() - (to - from - many);
        move_to_end(numbers, from + many, to);
        numbers.truncate(left);
    } else if many > to - from {
        let old = numbers.len();
        let _ = numbers.resize(old + (many - (to - from)), 0);
        move_from_end(numbers, to, old);
    }
}

/// Makes room for `many` numbers where those from `from` up to `to` are. The numbers before and after them stay. It
/// takes memory only if the list grows past its capacity, and leaves the list as it was if that is refused.
pub(crate) fn make_place(
    numbers: &mut Vec<usize>,
    from: usize,
    to: usize,
    many: usize,
) -> Result<(), AllocError>
    requires window { from ≤ to }
    requires inside { to ≤ vec_len numbers.old }
    ensures len { OnOk result (vec_len numbers.new + (to - from) ≡ vec_len numbers.old + many) }
    ensures before { OnOk result (take from numbers.new.items ≡ take from numbers.old.items) }
    ensures behind { OnOk result (drop (from + many) numbers.new.items ≡ drop to numbers.old.items) }
    ensures err { OnErr result (numbers.new.items ≡ numbers.old.items) }
    ensures capacity { vec_capacity numbers.old ≤ vec_capacity numbers.new }
    ensures succeeds { vec_len numbers.old + (many - (to - from)) ≤ vec_capacity numbers.old → IsOk result }
{
    numbers.reserve(many.saturating_sub(to - from))?;
    spread(numbers, from, to, many);
    Ok(())
}

/// Moves the seam, before which places are counted from the beginning of a text and after which back from its end, from
/// `seam` to `at`. It walks over the places between.
pub(crate) fn reseam(kept: &mut [usize], seam: usize, at: usize, end: usize)
    requires seam { seam ≤ length kept.old }
    requires inside { at ≤ length kept.old }
    ensures { ((k : ℕ) → k < length kept.old → slice_index (seamed seam end kept.old) k ≤ end)
        → seamed at end kept.new ≡ seamed seam end kept.old }
{
    for k in seam.min(at)..seam.max(at) {
        kept[k] = end.saturating_sub(kept[k]);
    }
}
