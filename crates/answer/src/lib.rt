// What one pass and the cleaning answer: definitions, and what the rows before the work come to.
#![tactic(auto)]

// Where nothing is refused: the function is worked on, or stays as it is.
#[derive(Clone, Copy)]
pub enum Admission {
    Admitted,
    Unchanged,
}
