// What the search reads and writes beside the rows and the vector, put together by how long it holds: for a list, for a modulus, or for
// one step of the recursion. One function owns each of these structs, since they are large; all others have them lent.

ghost use Rattle.planner.specs.Runs.{Bounds};

use crate::sizes::{AXES, LARGEST_MODULUS, LASTS, LEVEL_ROOM, PRODUCT_ROOM, ROOM, SOLUTION_ROOM};

// The tables of a list: the rows that end by each axis and how many numbers they are, the marks of the pairs of axes that can change
// places and of the axes whose sign can change, the differences by the axis where they end, and where their runs begin: these bounds
// rise, up to the room for differences.
// kept: how many rows a level has is known only when there is a list, so its size stands beside it: a `Vec` asks for the heap, and the kit's arrayvec
// would be one more library that the gate takes as built (docs/DECISIONS.md, "No heap").
#[derive(Drop)]
pub(crate) struct ListTables {
    pub(crate) levels: [i16; (AXES + 1) * LEVEL_ROOM],
    pub(crate) sizes: [usize; AXES + 1],
    pub(crate) swaps: [bool; AXES * AXES],
    pub(crate) flips: [bool; AXES],
    pub(crate) components: [i16; AXES * ROOM],
    pub(crate) bounds: [u16; AXES * LASTS + 1],
    ghost bounded: { Bounds bounds },
}

// The solutions for a last component: where they begin among all, and how far apart they are.
#[derive(Clone, Copy)]
pub(crate) struct Solved {
    pub(crate) start: usize,
    pub(crate) step: u16,
}

// The tables of a modulus: for the last components of the differences the solutions, where there is room for them.
// kept: n stands for no solution. An Option has four bytes in place of two: 512 KiB more beside the 1,170 KiB of stack that `plan` needs, where less
// than 1.5 MiB are promised; and the sieve's inner loop would test it, which sets mark n without a test.
#[derive(Drop)]
pub(crate) struct ModulusTables {
    pub(crate) solutions: [u16; SOLUTION_ROOM],
    pub(crate) solved: [Option<Solved>; LASTS],
}

// What the recursion writes beside the vector: the sums of the differences' parts, the products of the axes, the struck values, the row
// that owns a residue and the residues that are taken.
#[derive(Drop)]
pub(crate) struct Work {
    pub(crate) sums: [u16; AXES * ROOM],
    pub(crate) products: [u16; PRODUCT_ROOM],
    pub(crate) struck: [bool; AXES * LARGEST_MODULUS + 1],
    pub(crate) owners: [Option<u16>; LARGEST_MODULUS],
    pub(crate) taken: [bool; LARGEST_MODULUS],
}
