// Little-endian numbers of 16, 32 and 64 bits in a byte slice. Each of the six is one call of std, whose names go by the type: one
// form for all would be a trait with these six bodies behind it.
ghost use Rattle.std.specs.Prelude.{◌≡◌, ◌+◌, ◌≤◌, length};
ghost use borrow.Rule.Slice.PartMut.{put_mid};
ghost use Rattle.words.specs.Le.{u16_at, u32_at, u64_at, to_le};

pub fn read_u16(s: &[u8], at: usize) -> u16
    requires { at + 2 ≤ length s.now }
    ensures { result ≡ u16_at s.now at }
{
    u16::from_le_bytes([s[at], s[at + 1]])
}

pub fn read_u32(s: &[u8], at: usize) -> u32
    requires { at + 4 ≤ length s.now }
    ensures { result ≡ u32_at s.now at }
{
    u32::from_le_bytes(*s[at..at + 4].as_array().unwrap())
}

pub fn read_u64(s: &[u8], at: usize) -> u64
    requires { at + 8 ≤ length s.now }
    ensures { result ≡ u64_at s.now at }
{
    u64::from_le_bytes(*s[at..at + 8].as_array().unwrap())
}

pub fn write_u16(d: &mut [u8], at: usize, v: u16)
    requires { at + 2 ≤ length d.old }
    ensures { d.new ≡ put_mid at 2 d.old (to_le 2 v) }
{
    d[at..at + 2].copy_from_slice(&v.to_le_bytes());
}

pub fn write_u32(d: &mut [u8], at: usize, v: u32)
    requires { at + 4 ≤ length d.old }
    ensures { d.new ≡ put_mid at 4 d.old (to_le 4 v) }
{
    d[at..at + 4].copy_from_slice(&v.to_le_bytes());
}

pub fn write_u64(d: &mut [u8], at: usize, v: u64)
    requires { at + 8 ≤ length d.old }
    ensures { d.new ≡ put_mid at 8 d.old (to_le 8 v) }
{
    d[at..at + 8].copy_from_slice(&v.to_le_bytes());
}
