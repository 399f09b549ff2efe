// Items that hold nothing.

use lists::NoMemory;
use pool_lock::Growing;

/// Items that hold nothing, as the numbers of those who appended them.
#[derive(Drop)]
pub struct Row {
    pub by: Vec<u32>,
}

impl Growing for Row {
    ghost use Rattle.std.specs.Prelude.{◌≡◌, length};
    ghost use Rattle.pool_bench.specs.Rows.{items_by};

    type Item = ();

    type Root = ();

    // How many items were seen.
    type Copies = u64;

    ghost root = { λ r. tt };

    ghost list = { λ r. items_by r.by.items };

    ghost fits = { λ r xs item. Unit {0} };

    ghost copied = { λ r xs n. n ≡ length xs };

    #[tactic(auto, using(crate::proofs::Counting::counts))]
    fn len(&self) -> u64 {
        self.by.len() as u64
    }

    #[tactic(auto, using(crate::proofs::Counting::counts))]
    fn append(&mut self, by: u32, item: ()) -> Result<(), ((), NoMemory)> {
        match self.by.push(by) {
            Ok(()) => {
                let _count = self.by.len();
                Ok(())
            }
            Err(_) => Err((item, NoMemory)),
        }
    }

    #[tactic(auto, using(crate::proofs::Counting::counts))]
    fn copy(&self, have: &mut u64) -> Result<(), NoMemory> {
        *have = self.by.len() as u64;
        Ok(())
    }

    ghost lasting = { λ r front more item h. h };
}
