// Which of two vectors is the gentler (document 02, f), and what the search asks of a vector.

ghost use Rattle.std.specs.Prelude.{◌≡◌, length};
ghost use Rattle.rank1.specs.Tests.{Decides};
ghost use Rattle.rank1.specs.Search.{Before, largest, Gentler};

// The largest component, and 0 of none, as in the definition.
// kept: one name for the library's chain, so that it is proved once that it is the definition's.
pub(crate) fn largest_of(z: &[u16]) -> u16
    ensures { result ≡ largest z.now }
{
    z.iter().copied().max().unwrap_or(0)
}

// Whether y comes before z in dictionary order; z has as many components.
// kept: by hand, since `<` of slices asks three times at each pair of components: with it the gentler of two vectors of 8,192 components
// takes 1.7 times the time.
fn comes_before(y: &[u16], z: &[u16]) -> bool
    requires { length y.now ≡ length z.now }
    ensures { Decides result (Before y.now z.now) }
{
    for (a, b) in y.iter().zip(z) {
        if a < b {
            return true;
        }
        if b < a {
            return false;
        }
    }
    false
}

// Whether y is gentler than z: the largest components are compared first, and then the vectors in dictionary order. z has as many
// components.
// kept: a name for the order that document 02 defines: `left_wins` asks for no more.
pub(crate) fn is_gentler(y: &[u16], z: &[u16]) -> bool
    requires { length y.now ≡ length z.now }
    ensures { Decides result (Gentler y.now z.now) }
{
    let a = largest_of(y);
    let b = largest_of(z);
    if a != b {
        return a < b;
    }
    comes_before(y, z)
}
