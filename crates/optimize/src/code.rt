// The code in lent memory, one word an instruction.
ghost use Rattle.std.specs.Prelude.{◌≡◌, ◌&&◌, ◌*◌, ◌≤◌, eqb, length};
ghost use Rattle.unit.specs.Size.{instruction_size};
ghost use Rattle.optimize.specs.laws.Given.{words_in, same_words};

// The words of the code's bytes.
pub fn load(code: &[u8], words: &mut [u64])
    requires { instruction_size * length words.old ≤ length code.now }
    ensures { words.new ≡ words_in (length words.old) code.now }
{
    for (p, word) in words.iter_mut().enumerate() {
        *word = instruction::read(code, p).word();
    }
}

// Are they still the words of the code's bytes?
fn is_same(code: &[u8], words: &[u64]) -> bool
    requires { instruction_size * length words.now ≤ length code.now }
    ensures { result ≡ same_words (words_in (length words.now) code.now) words.now }
{
    for (p, word) in words.iter().enumerate() {
        if instruction::read(code, p).word() != *word {
            return false;
        }
    }
    true
}

// Are all of them retained, and the same? Where some are not, nothing need be compared.
pub fn is_unchanged(code: &[u8], words: &[u64], retained: usize) -> bool
    requires { instruction_size * length words.now ≤ length code.now }
    ensures { result ≡ (eqb retained (length words.now) && same_words (words_in (length words.now) code.now) words.now) }
{
    if retained != words.len() {
        return false;
    }
    is_same(code, words)
}
