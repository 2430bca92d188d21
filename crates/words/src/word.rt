// 64-bit words: products and negation modulo 2^64, the order of signed readings, and sign extension.
ghost use Rattle.std.specs.Prelude.{◌≡◌, ◌-◌, ◌*◌, ◌%◌, ◌^◌, ◌<◌, ◌≤◌};
ghost use Rattle.words.specs.Word.{product_of_halves, signed_less, sign_extend};

// Over std's methods: document 01 asks for helpers that are proved modulo 2^64. The product is that of the halves too.
pub fn wrapping_mul(a: u64, b: u64) -> u64
    ensures product { result ≡ a * b % 2 ^ 64 }
    ensures halves { result ≡ product_of_halves a b }
{
    a.wrapping_mul(b)
}

pub fn wrapping_neg(a: u64) -> u64
    ensures { result ≡ (2 ^ 64 - a) % 2 ^ 64 }
{
    a.wrapping_neg()
}

// a before b in the order of signed readings.
pub fn signed_less(a: u64, b: u64) -> bool
    ensures { result ≡ signed_less a b }
{
    a.cast_signed() < b.cast_signed()
}

// The word with the signed reading of a number of so many bits.
pub fn sign_extend<const BITS: u32>(x: u64) -> u64
    requires some { 1 ≤ BITS }
    requires narrow { BITS < 64 }
    requires fits { x < 2 ^ BITS }
    ensures { result ≡ sign_extend BITS x }
{
    if x < 1 << (BITS - 1) {
        x
    } else {
        x.wrapping_sub(1 << BITS)
    }
}
