// A table in one lent buffer `w`: `h` heads, then `count` entries of 4 words (a key of two, a value and two links of 32 bits). A key's
// bucket is its first word where that is below `h`, and a hash otherwise. Each bucket is a search tree: at an entry with another key,
// a look-up goes down to the side that the next bit of the key's first word names, the lowest bit first. So it passes at most 64
// entries with another first word, also where the keys were chosen to fall into one bucket. A head has the epoch in which it was set:
// to clear the table is to go on to the next epoch with no entries. It stands in for the `HashMap`s of `Values`.
ghost use Rattle.std.specs.Prelude.{◌≡◌, ◌+◌, ◌*◌, ◌<◌, ◌≤◌, length};
ghost use Rattle.values.specs.laws.Entries.{key, child_of, link_of, mixed, bucket_of, head_at, same_key, key_in, newest, Forward, Attached, Findable, Addable, Added};

// A sum of products by odd constants: its high bits depend on all bits of the key.
fn mix(left: u64, right: u64) -> u64
    ensures { result ≡ mixed (key left right) }
{
    let x = left.wrapping_mul(11400714819323198485);
    let y = right.wrapping_mul(14029467366897019727);
    x.wrapping_add(y)
}

// The bucket of a key: a small first word is its own, so that the heads of small constants, the most frequent ones, lie side by
// side; of others, by the high 32 bits of the mixed key.
pub fn bucket(h: usize, left: u64, right: u64) -> usize
    requires { (0 < h) × (h ≤ 65536) }
    ensures { (result ≡ bucket_of h (key left right)) × (result < h) }
{
    let high = (mix(left, right) / 4294967296) as usize;
    let mixed = high * h / 4294967296;
    if left < h as u64 {
        left as usize
    } else {
        mixed
    }
}

// The first entry of a bucket, counted from 1, or 0.
pub fn head(w: &[u64], epoch: u64, b: usize) -> u64
    requires { b < length w.now }
    ensures { result ≡ head_at w.now epoch b }
{
    let x = w[b];
    if x / 4294967296 == epoch {
        return x % 4294967296;
    }
    0
}

// Are the two words from `at` on the key?
fn holds(w: &[u64], at: usize, left: u64, right: u64) -> bool
    requires { at + 2 ≤ length w.now }
    ensures { result ≡ same_key (key_in w.now at) (key left right) }
{
    (w[at] == left) & (w[at + 1] == right)
}

// The link on the side that the lowest bit of the path names.
fn child(links: u64, path: u64) -> u64
    ensures { result ≡ child_of links path }
{
    (links >> (32 * (path % 2))) % 4294967296
}

// An entry's number as the link on that side.
fn link(entry: u64, path: u64) -> u64
    requires { entry < 4294967296 }
    ensures { result ≡ link_of entry path }
{
    entry << (32 * (path % 2))
}

// The entry with the key, whose bucket has the head `first`, counted from 1, or 0.
pub fn find(w: &[u64], h: usize, count: usize, first: u64, left: u64, right: u64) -> usize
    requires { Findable w.now h count first (key left right) }
    ensures { result ≡ newest w.now h count (key left right) }
{
    let mut path = left;
    let mut p = first as usize;
    // By `while`: from link to link.
    while p > 0 {
        let at = h + 4 * (p - 1);
        if holds(w, at, left, right) {
            return p;
        }
        p = child(w[at + 3], path) as usize;
        path = path / 2;
    }
    0
}

// Entry `count` goes below the one where the walk along the path from entry `first` ends.
fn attach(w: &mut [u64], h: usize, count: usize, first: usize, left: u64)
    requires { Forward w.old h count × (0 < first) × (first ≤ count) × (count < 65536) × (h + 4 * count ≤ length w.old) }
    ensures { Attached w.old w.new h count first left }
{
    let mut path = left;
    let mut p = first;
    // From link to link, until there is none.
    loop {
        let at = h + 4 * (p - 1) + 3;
        let links = w[at];
        let next = child(links, path);
        if next == 0 {
            w[at] = links + link((count + 1) as u64, path);
            return;
        }
        p = next as usize;
        path = path / 2;
    }
}

// One entry more, whose key has none yet. Its bucket has the head `first`, which the look-up before has read.
pub fn insert(
    w: &mut [u64],
    h: usize,
    epoch: u64,
    count: usize,
    b: usize,
    first: u64,
    left: u64,
    right: u64,
    v: u64,
)
    requires { Addable w.old h epoch count b first (key left right) }
    ensures { Added w.old w.new h epoch count (key left right) v }
{
    let at = h + 4 * count;
    w[at] = left;
    w[at + 1] = right;
    w[at + 2] = v;
    w[at + 3] = 0;
    if first == 0 {
        w[b] = 4294967296 * epoch + ((count + 1) as u64);
        return;
    }
    attach(w, h, count, first as usize, left);
}
