// The smallest factor that gives a wanted product modulo 2^64.
ghost use Rattle.std.specs.Prelude.{◌≡◌, ℕ, ◌+◌, ◌%◌, ◌≤◌};
ghost use Rattle.operand.specs.Operand.{RightOperand};
ghost use Rattle.operand.specs.laws.Congruent.{Inverse};
ghost use Rattle.instruction.specs.Opcode as op;

// One step of Newton's: x(2 - odd x), which doubles the number of right low bits.
fn refine(odd: u64, x: u64) -> u64
    ensures { (k j : ℕ) → j ≤ k + k → j ≤ 64 → Inverse k odd x → Inverse j odd result }
{
    let rest = 2u64.wrapping_sub(odd.wrapping_mul(x));
    x.wrapping_mul(rest)
}

// The inverse of an odd word modulo 2^64. A word is its own inverse in its low 3 bits, and five steps make 96 of them.
fn inverse(odd: u64) -> u64
    ensures { odd % 2 ≡ 1 → Inverse 64 odd result }
{
    let six = refine(odd, odd);
    let twelve = refine(odd, six);
    let twenty_four = refine(odd, twelve);
    let forty_eight = refine(odd, twenty_four);
    refine(odd, forty_eight)
}

// "the answer hinges on trailing zeros of both words; a left of 0 has 0 for a wanted 0 and none otherwise": a product has the trailing
// zeros of both its factors. What is left of left is odd, and of the answer only the bits that the product keeps count.
pub fn factor(left: u64, wanted: u64) -> Option<u64>
    ensures { RightOperand op.MulI left wanted (Ok result) }
{
    let zeros = u64::trailing_zeros(left);
    if zeros > u64::trailing_zeros(wanted) {
        return None;
    }
    if left == 0 {
        return Some(0);
    }
    let k = zeros as u64;
    let product = (wanted >> k).wrapping_mul(inverse(left >> k));
    Some(product & (u64::MAX >> k))
}
