// Bytes, copied. By a loop, and not by std's `copy_from_slice`: where the length is not known before, that calls the C
// library's `memmove`, which the archive for C would then need from outside.
ghost use Rattle.std.specs.Prelude.{◌≡◌, length};

pub fn copy(from: &[u8], to: &mut [u8])
    requires { length to.old ≡ length from.now }
    ensures { to.new ≡ from.now }
{
    for (i, byte) in from.iter().enumerate() {
        to[i] = *byte;
    }
}
