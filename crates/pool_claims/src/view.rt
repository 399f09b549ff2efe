// What a pass knows. No value of `Drawn` and `View` is made.

use std::collections::LinkedList;

/// How many numbers there are to claim, and how many passes.
#[derive(Clone, Copy, Debug)]
pub struct Size {
    pub numbers: u32,
    pub passes: u32,
}

/// One pass: how many numbers there are, what it has drawn, in order, and 1 where a claim of it had none.
pub struct Drawn {
    pub below: u32,
    pub numbers: LinkedList<u32>,
    pub ended: u32,
}

/// The passes that a seat stands for, which is one but while the claims are opened or closed.
pub struct View {
    pub passes: LinkedList<Drawn>,
}
