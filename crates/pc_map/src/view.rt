// "The map is a small view over the lent boundary numbers".
ghost use Rattle.std.specs.Prelude.{◌≡◌, ◌<◌, length, slice_index};
ghost use Rattle.pc_map.specs.laws.View.{instruction_in};

#[derive(Clone, Copy)]
pub struct PcMap<'a> {
    pub boundaries: &'a [u32],
}

impl<'a> PcMap<'a> {
    // The number of retained instructions before old place pc.
    pub fn boundary(self, pc: usize) -> u32
        requires { pc < length self.boundaries.now }
        ensures { result ≡ slice_index self.entry.boundaries.now pc }
    {
        self.boundaries[pc]
    }

    // Where the instruction of old place pc went, if it is retained: it is where the next boundary is one more. The end is none.
    pub fn instruction(self, pc: usize) -> Option<u32>
        ensures { result ≡ instruction_in self.entry.boundaries.now pc }
    {
        if pc < self.boundaries.len() && pc + 1 < self.boundaries.len() {
            let to = self.boundaries[pc];
            if (to as u64) + 1 == (self.boundaries[pc + 1] as u64) {
                return Some(to);
            }
        }
        None
    }
}
