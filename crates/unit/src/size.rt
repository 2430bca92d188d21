// Sizes of the layout, limits, and the lengths of the buffers that a caller lends.
ghost use Rattle.std.specs.Prelude.{◌≡◌, ◌^◌, ◌≤◌, ◌<◌};
ghost use Rattle.unit.specs.Size.{output_room, work32_room, set_words, work64_room, max_local_slots};

// Bytes of the header and of one entry of each section.
pub const HEADER: usize = 72;

pub const INSTRUCTION: usize = 8;

pub const METADATA: usize = 16;

pub const TYPE: usize = 1;

pub const CONSTANT: usize = 16;

pub const FUNCTION: usize = 4;

pub const EXTERN: usize = 2;

pub const CASE: usize = 8;

pub const LINE: usize = 8;

// Bytes of the result's header, of one old place, and of all that a retained instruction takes.
pub const RESULT_HEADER: usize = 24;

pub const PLACE: usize = 4;

pub const RETAINED: usize = INSTRUCTION + METADATA + PLACE;

// The largest function that is worked on, the largest number of local slots, and the most words of sets over all blocks.
pub const MAX_INSTRUCTIONS: usize = 65536;

pub const MAX_LOCALS: usize = 65535;

pub const MAX_SET_WORDS: usize = 2097152;

// The most cases of a select.
pub const MAX_SELECT_CASES: u32 = 24;

// A result of n instructions and l lines, at most.
pub fn output_room(n: usize, l: usize) -> usize
    requires { (n < 2 ^ 32) × (l < 2 ^ 32) }
    ensures { result ≡ output_room n l }
{
    RESULT_HEADER + RETAINED * n + LINE * l
}

pub fn work32_room(n: usize) -> usize
    requires { n < 2 ^ 32 }
    ensures { result ≡ work32_room n }
{
    16 * n + 16
}

// The words of one set of local slots.
pub fn set_words(s: usize) -> usize
    requires { s ≤ max_local_slots }
    ensures { result ≡ set_words s }
{
    s.div_ceil(64)
}

// No set has a word where there are no local slots; a division by their number has no answer then.
pub fn work64_room(n: usize, s: usize) -> usize
    requires { (n < 2 ^ 32) × (s ≤ max_local_slots) }
    ensures { result ≡ work64_room n s }
{
    let w = set_words(s);
    if w == 0 {
        24 * n + 4 * s
    } else {
        24 * n + 4 * s + w + 3 * w * n.min(MAX_SET_WORDS / w)
    }
}
