// Terms and equations written to lent output, as document 01's listing has them.
#![tactic(auto)]

pub mod equations;
pub mod terms;

// Where the next byte goes, and the node that comes next.
#[derive(Clone, Copy)]
pub struct Printed {
    pub at: usize,
    pub next: usize,
}
