// Results in the spare buffers: their old places composed.
ghost use Rattle.std.specs.Prelude.{◌≡◌, ℕ, ◌+◌, ◌*◌, ◌≤◌, ◌<◌, length};
ghost use Rattle.words.specs.Le.{u32_at};
ghost use Rattle.unit.specs.Size.{max_instructions};
ghost use Rattle.unit.specs.Size.{place_size};
ghost use Rattle.clean.specs.laws.Placing.{composed};

use words::le;

// "with old places in the given unit": each of k places in the code before becomes that code's place there.
pub fn compose(from: &[u8], to: &mut [u8], k: usize)
    requires { (k ≤ max_instructions) × (length to.old ≡ place_size * k) × ((p : ℕ) → p < k → place_size * u32_at to.old (place_size * p) + place_size ≤ length from.now) }
    ensures { to.new ≡ composed from.now to.old k }
{
    for p in 0..k {
        let old = le::read_u32(&to[..], 4 * p) as usize;
        le::write_u32(to, 4 * p, le::read_u32(from, 4 * old));
    }
}
