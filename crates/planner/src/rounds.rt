// The search at one modulus: whether it has an admissible vector, and the gentlest one. A first round in dictionary order tries all values
// with every prune and says whether the modulus fails. Each later round tries only values below the largest component of the vector
// found last, until nothing is found: that vector is the gentlest. Scaling does not hold below such a bound; the other prunes do. Nothing
// admissible comes before the vector found last in dictionary order, so the first component goes on from there.

ghost use Rattle.std.specs.Prelude.{◌≡◌, length};
ghost use Rattle.rank1.specs.Valid.{ValidModulus};
ghost use Rattle.planner.specs.Stage.{rule_of, Tabled, Blank, Decided, Lowerable, Lowered};

use crate::listing::Task;
use crate::search::Search;
use crate::sieve::set_modulus;
use crate::sizes::AXES;
use crate::tables::{ModulusTables, Work};
use crate::vectors::largest_of;

// The rounds below the largest component of the vector found last, which stands in z at first and in `best` at the end.
// kept: z and work stand one by one as they do in `Search::complete`.
fn lower(s: &Search, z: &mut [u16], work: &mut Work, best: &mut [u16])
    requires { Lowerable s.now z.old work.old best.old }
    ensures { Lowered s.now work.new best.new }
{
    // kept: each round starts from what the one before found, so there is no range or slice to pass over.
    loop {
        best.copy_from_slice(z);
        let round = s.below(largest_of(z), z[0]);
        if !round.complete(0, z, work) {
            return;
        }
    }
}

// The gentlest vector at n in `best`, or n fails with every vector: first all n values are tried, with every prune. Rows that end early
// are left to the sieve where no difference was turned away and every last component has its solutions.
// kept: a bool beside `best`, for the reason at `first_modulus`.
pub(crate) fn gentlest_vector(
    task: &Task,
    n: u16,
    modulus: &mut ModulusTables,
    work: &mut Work,
    best: &mut [u16],
) -> bool
    requires tabled { Tabled task.now }
    requires valid_modulus { ValidModulus n × (length best.old ≡ task.now.rows.d) × Blank work.old }
    ensures decided { Decided (rule_of task.now.rows) task.now.rows.d n best.new result }
    ensures blank { Blank work.new }
{
    let told = task.listing;
    let solved = set_modulus(n, task.rows.d, told.tail, task.list, modulus);
    let s = Search {
        task: *task,
        modulus,
        n,
        values: n,
        start: 0,
        sieved: told.whole & solved,
    };
    let mut places = [0u16; AXES];
    let z = &mut places[..task.rows.d];
    if !s.complete(0, z, work) {
        return false;
    }
    lower(&s, z, work, best);
    true
}
