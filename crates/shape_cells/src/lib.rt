// Whether an entry of a table of numbers is well shaped, as model/specs/Shape defines it. `which` is the index of the table: it says how
// the entry is tested.
#![tactic(auto)]

ghost use Rattle.std.specs.Prelude.{◌≡◌};
ghost use Rattle.shape_cells.specs.Cells.{cell_shaped};

use rig::Rig;
use rig_reads::{both_tied, is_number, tied};

// The entry n in row a and column b: 0, an heir, or a number, of a site and an arbiter in its set.
#[tactic(auto, using(crate::proofs::Cells::cell_tests))]
pub fn cell_shaped(which: usize, sets: &[u64; Rig::SITES], a: u64, b: u64, n: u64) -> bool
    ensures { result ≡ cell_shaped which sets.now a b n }
{
    n == 0
        || match which {
            Rig::HEIR => both_tied(sets, a, n, b),
            Rig::QUEUED => is_number(n) && tied(sets, b, a),
            _ => is_number(n) && tied(sets, a, b),
        }
}
