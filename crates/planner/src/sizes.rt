// The sizes of the tables, by name; specs/Sizes.antt gives them the names that contracts have, and has the numbers that are this crate's own, so
// that a wrong one is refused.
// kept: a table of several axes is one run, at axis * SIZE + place, and no array of arrays: what clauses say of each of its numbers, as that it is
// small or still 0, they say of one list. And no array of arrays holds `bounds`, where the last run of an axis ends at the number where the first
// of the next begins, nor `struck`, where mark n of an axis can be mark 0 of the next.

// The limits of document 01.
pub(crate) const AXES: usize = rank1::MOST_AXES;

pub(crate) const MOST_ROWS: usize = rank1::MOST_ROWS;

// kept: `as`, since the value of a constant calls no `from`.
pub(crate) const LARGEST_MODULUS: usize = rank1::LARGEST_MODULUS as usize;

// The mirrors of a row: 2 to the number of axes.
pub(crate) const MOST_MIRRORS: usize = rank1::MOST_MIRRORS;

// A component of a row or of a difference has at most 510 in size; the product of x stands at place MIDDLE + x of its axis.
pub(crate) const MIDDLE: usize = 511;

pub(crate) const PLACES: usize = 1024;

pub(crate) const PRODUCT_ROOM: usize = AXES * PLACES;

// The rows that end by an axis: so many numbers for each axis.
pub(crate) const LEVEL_ROOM: usize = MOST_ROWS * AXES;

// How many members pairs are made of, how many differences there is room for, and the slots of their hash.
pub(crate) const MOST_MEMBERS: usize = 4096;

pub(crate) const ROOM: usize = 12288;

pub(crate) const SLOTS: usize = 32768;

// The last components that a difference can have: one run for each of them on each axis.
pub(crate) const LASTS: usize = 512;

// Numbers in the tables of solutions, n for each last component.
pub(crate) const SOLUTION_ROOM: usize = 262144;
