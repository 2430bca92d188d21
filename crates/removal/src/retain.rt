// The places that a pass retains. The regions of the 32-bit work stand where `unit::region` says: leaders, blocks of
// places, starts of blocks, kept places, their boundaries, loop ends; the 64-bit work has the code at [0, n) and,
// behind what liveness takes, the list of the control places: `count` of them from `at` on.
ghost use Rattle.std.specs.Prelude.{◌≡◌, true, ◌+◌, ◌*◌, ◌≤◌, length, drop};
ghost use borrow.Rule.Slice.PartMut.{mid_of};
ghost use Rattle.unit.specs.laws.Region.{keep_at, list_in};
ghost use Rattle.unit.specs.Size.{metadata_size, max_instructions};
ghost use Rattle.unit.specs.Layout.{is_unit};
ghost use Rattle.flow.specs.laws.Control.{Controls};
ghost use Rattle.answer.specs.Answer.{sections_of};
ghost use Rattle.removal.specs.laws.KeptWork.{Retainable, Retains, Useful, Stored};

use crate::{jump, plain};
use effects::Tables;
use flow::{block, hint};
use liveness::stores;
use unit::{region, section};

// The loop ends, of the reached places; then plain hints are not kept. The work is that from the kept places on.
fn drop_hints(words: &[u64], list: &[u64], metadata: &[u8], work: &mut [u32])
    requires { (length words.now ≤ max_instructions) × (metadata_size * length words.now ≤ length metadata.now) × (list_in (length words.now) ≤ length work.old) × Controls words.now list.now (length words.now) }
    ensures { Useful words.now metadata.now work.old work.new }
{
    let n = words.len();
    hint::mark_anchors(words, list, metadata, work, region::loop_ends_in(n));
    plain::drop_hints(words, list, &mut work[0..n]);
}

// The blocks, then dead stores are not kept.
fn drop_stores(unit: &[u8], metadata: &[u8], work32: &mut [u32], work64: &mut [u64], n: usize)
    requires laid { is_unit unit.now ≡ true }
    requires given { Retainable (sections_of unit.now) n (mid_of 0 n work64.old) metadata.now
        (mid_of 0 n work32.old) (mid_of (keep_at n) n work32.old) (length work32.old) (length work64.old) }
    ensures stored { Stored (sections_of unit.now) n metadata.now
        work32.old work64.old work32.new work64.new }
{
    let at = region::keep_at(n);
    let count = block::number_blocks(&mut work32[0..at], n);
    stores::drop_dead_stores(
        work64,
        &mut work32[0..at + n],
        metadata,
        section::types(unit),
        Tables::of_unit(unit),
        n,
        count,
    );
}

// "In order: unreachable code ..; Hint with flags 0; dead pure stores ..; then up to 16 rounds dropping a Jump"
pub fn retain(
    unit: &[u8],
    metadata: &[u8],
    work32: &mut [u32],
    work64: &mut [u64],
    n: usize,
    at: usize,
    count: usize,
)
    requires laid { is_unit unit.now ≡ true }
    requires given { Retainable (sections_of unit.now) n (mid_of 0 n work64.old) metadata.now
        (mid_of 0 n work32.old) (mid_of (keep_at n) n work32.old) (length work32.old) at }
    requires within { at + count ≤ length work64.old }
    requires listed { Controls (mid_of 0 n work64.old) (mid_of at count work64.old) n }
    ensures retained { Retains (sections_of unit.now) n metadata.now
        work32.old work64.old work32.new work64.new }
    ensures behind { drop at work64.new ≡ drop at work64.old }
{
    let keep = region::keep_at(n);
    drop_hints(
        &work64[0..n],
        &work64[at..at + count],
        metadata,
        &mut work32[keep..],
    );
    drop_stores(unit, metadata, work32, &mut work64[0..at], n);
    jump::drop_jumps(&work64[0..n], &work64[at..at + count], &mut work32[keep..]);
}
