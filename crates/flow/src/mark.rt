// Marks of places in lent memory.
ghost use Rattle.std.specs.Prelude.{◌≡◌, [], ◌∷◌, if◌then◌else◌};
ghost use Rattle.flow.specs.Reach.{mark_all};

// Marks q, if it is to be marked and is a place.
pub fn mark_if(marks: &mut [u32], when: bool, q: u64)
    ensures { marks.new ≡ mark_all marks.old (if when then q ∷ [] else []) }
{
    if when {
        let at = q as usize;
        if at < marks.len() {
            marks[at] = 1;
        }
    }
}
