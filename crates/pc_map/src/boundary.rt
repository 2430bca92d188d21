// The boundary of each place: the number of retained instructions before it; and the list of the kept places.
ghost use Rattle.std.specs.Prelude.{◌≡◌, ◌+◌, ◌*◌, ◌≤◌, length};
ghost use borrow.Rule.Slice.PartMut.{mid_of, put_mid};
ghost use Rattle.words.specs.Lists.{tabulate};
ghost use Rattle.words.specs.laws.Regions.{Outside};
ghost use Rattle.unit.specs.Size.{max_instructions};
ghost use Rattle.flow.specs.laws.Flags.{Flags};
ghost use Rattle.pc_map.specs.Boundary.{boundary};
ghost use Rattle.pc_map.specs.laws.Listed.{kept_list};

// Stores the boundaries of the places 0 to n after the n flags. The result is the last, the number of retained instructions.
pub fn boundaries(work: &mut [u32], n: usize) -> u32
    requires { Flags (mid_of 0 n work.old) × (n ≤ max_instructions) × (2 * n + 1 ≤ length work.old) }
    ensures { (work.new ≡ put_mid n (n + 1) work.old (tabulate (n + 1) (boundary (mid_of 0 n work.old)))) × (result ≡ boundary (mid_of 0 n work.old) n) }
{
    let mut next: u32 = 0;
    for p in 0..n {
        work[n + p] = next;
        next += work[p];
    }
    work[n + n] = next;
    next
}

// Lists the kept places from `at` on, of the n flags. Every place is stored, and the next one takes its position unless it is
// kept: the processor has no branch to predict.
pub fn list_kept(work: &mut [u32], n: usize, at: usize)
    requires { Flags (mid_of 0 n work.old) × (n ≤ max_instructions) × (n ≤ at) × (at + n ≤ length work.old) }
    ensures { (mid_of at (boundary (mid_of 0 n work.old) n) work.new ≡ kept_list (mid_of 0 n work.old)) × Outside at n work.old work.new }
{
    let mut next: usize = 0;
    for p in 0..n {
        work[at + next] = p as u32;
        next += work[p] as usize;
    }
}
