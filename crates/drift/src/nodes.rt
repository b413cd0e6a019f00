// The bytes of a node in a block.
ghost use Rattle.std.specs.Prelude.{◌≡◌, ◌+◌, ◌*◌, ◌/◌, ◌%◌, ◌<◌, eqb};
ghost use Rattle.drift.specs.Tree.{Ordered};
ghost use Rattle.drift.specs.Tree.{kind_at, first_at, second_at, third_at};
ghost use Rattle.drift.specs.Decoded.{IsKind};

use endian::number16;
use token::Kind;

// By the node's first byte.
pub fn kind_at(nodes: &[u8], k: usize) -> Kind
    requires { Ordered nodes.now (k + 1) }
    ensures { IsKind result (kind_at nodes.now k) }
{
    Kind::of_byte(nodes[4 * k])
}

// Whether a count's number is a percentage. Asked of the node again: handed on from the match in clause_judged, leaf_judged and asked_at would each have a
// parameter more and require what it is, no plainer.
pub fn percent_at(nodes: &[u8], k: usize) -> bool
    requires { Ordered nodes.now (k + 1) }
    ensures { result ≡ eqb (kind_at nodes.now k) 11 }
{
    match kind_at(nodes, k) {
        Kind::Count { percent } => percent,
        _ => false,
    }
}

// first_at and second_at differ in a constant: by a parameter they would say less.
pub fn first_at(nodes: &[u8], k: usize) -> usize
    requires { Ordered nodes.now (k + 1) }
    ensures { result ≡ first_at nodes.now k }
{
    usize::from(nodes[4 * k + 1])
}

pub fn second_at(nodes: &[u8], k: usize) -> usize
    requires { Ordered nodes.now (k + 1) }
    ensures { result ≡ second_at nodes.now k }
{
    usize::from(nodes[4 * k + 2])
}

// A count's number.
pub fn number_at(nodes: &[u8], k: usize) -> usize
    requires { Ordered nodes.now (k + 1) }
    ensures { (result ≡ second_at nodes.now k + 256 * (third_at nodes.now k % 4)) × (result < 65536) }
{
    usize::from(number16(nodes[4 * k + 2], nodes[4 * k + 3] % 4))
}

// Which carts a count is over: 0 for all, one more than its number for a group. No Option: `over_of`, `who_of` and marks' words of the carts are by this code,
// and it is the place of the word behind the bits.
pub fn over_at(nodes: &[u8], k: usize) -> usize
    requires { Ordered nodes.now (k + 1) }
    ensures { (result ≡ third_at nodes.now k / 4) × (result < 256) }
{
    usize::from(nodes[4 * k + 3] / 4)
}
