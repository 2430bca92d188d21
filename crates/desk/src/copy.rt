// CopyN in place: all is read before it is written, though nothing is lent to keep it in.
ghost use Rattle.std.specs.Prelude.{◌≡◌, ◌+◌, ◌<◌, ◌≤◌, length};
ghost use borrow.Rule.Slice.PartMut.{mid_of, put_mid};

// From the first word on: each word is read before it is written, since it is written further down.
fn copy_up(frame: &mut [u64], a: usize, b: usize, c: usize)
    requires order { a < b }
    requires read { b + c ≤ length frame.old }
    ensures frame { frame.new ≡ put_mid a c frame.old (mid_of b c frame.old) }
{
    for k in 0..c {
        frame[a + k] = frame[b + k];
    }
}

// From the last word on.
fn copy_down(frame: &mut [u64], a: usize, b: usize, c: usize)
    requires order { b ≤ a }
    requires written { a + c ≤ length frame.old }
    ensures frame { frame.new ≡ put_mid a c frame.old (mid_of b c frame.old) }
{
    for k in (0..c).rev() {
        frame[a + k] = frame[b + k];
    }
}

// The c words from b on go to a and on.
pub fn copy_words(frame: &mut [u64], a: usize, b: usize, c: usize)
    requires read { 0 < c → b + c ≤ length frame.old }
    requires written { 0 < c → a + c ≤ length frame.old }
    ensures frame { frame.new ≡ put_mid a c frame.old (mid_of b c frame.old) }
{
    if c == 0 {
        return;
    }
    // Not `copy_within`: the edit copy_up_always turns this choice, which that hides.
    if a < b {
        copy_up(frame, a, b, c);
    } else {
        copy_down(frame, a, b, c);
    }
}
