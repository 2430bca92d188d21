// The smallest words that make a comparison with a left word true or false, "unsigned" where its readings are signed too.
ghost use Rattle.std.specs.Prelude.{nat_eq, nat_le, nat_lt};
ghost use Rattle.words.specs.Word.{signed_less};
ghost use Rattle.operand.specs.laws.Candidate.{Tips};

// left == r
pub fn equal(left: u64, holds: bool) -> u64
    ensures { Tips (λ r. nat_eq left r) holds result }
{
    if holds {
        return left;
    }
    if left == 0 { 1 } else { 0 }
}

// left < r
pub fn less(left: u64, holds: bool) -> u64
    ensures { Tips (λ r. nat_lt left r) holds result }
{
    if holds {
        return left.wrapping_add(1);
    }
    0
}

// left <= r
pub fn at_most(left: u64, holds: bool) -> u64
    ensures { Tips (λ r. nat_le left r) holds result }
{
    if holds { left } else { 0 }
}

// left < r as signed readings: those from 2^63 on are negative.
pub fn signed_less(left: u64, holds: bool) -> u64
    ensures { Tips (λ r. signed_less left r) holds result }
{
    if left < 9223372036854775808 {
        if holds { left + 1 } else { 0 }
    } else {
        if holds { 0 } else { 9223372036854775808 }
    }
}

// left > r as signed readings.
pub fn signed_greater(left: u64, holds: bool) -> u64
    ensures { Tips (λ r. signed_less r left) holds result }
{
    if left < 9223372036854775808 {
        if !holds {
            return left;
        }
        if left == 0 { 9223372036854775808 } else { 0 }
    } else {
        if holds { 9223372036854775808 } else { 0 }
    }
}
