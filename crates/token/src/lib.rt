// Tokens read where they stand: spaces, numbers, operators, leaves, the ends of counts; and nodes put into the block.
#![tactic(auto)]

ghost use Rattle.std.specs.Prelude.{◌≡◌};
ghost use Rattle.token.specs.Block.{kind_byte, kind_of};

mod counts;
mod leaves;
mod nodes;
mod tokens;

pub use counts::count_end;
pub use leaves::{expect, mark, operator_at, reach_at, word};
pub use nodes::{refused, with_one, with_two};
pub use tokens::spaces;

// How far reading has come: an offset, the nodes still allowed, and how many nodes stand in the block, a lent array, as there is no heap. Behind a part
// that was read, its own node is the last of them. That left and n make at most 128 stands with the functions that need it: as a ghost field
// it would ask more of those who call `expect`, `with_one`, `with_two` or `count_end`.
#[derive(Clone, Copy)]
pub struct Part {
    pub at: usize,
    pub left: usize,
    pub n: usize,
}

// A refusal's number, and the refused offset. The number stays one: the definition's readers refuse by it (`no 13`), and C gets it.
#[derive(Clone, Copy)]
pub struct Fault {
    pub number: u32,
    pub at: usize,
}

// A number that was read: its value, or 1,000 if it is more, and the offset behind it. No Option for more: `NumIs` says `min k 1000`, and the amounts'
// bounds are told by that number.
#[derive(Clone, Copy)]
pub struct Num {
    pub value: usize,
    pub at: usize,
}

// An amount that was read: the offset behind it, its number, whether it is a percentage, and the group of its carts, or none for
// the whole fleet. The flag is the number's unit, which its node's kind says in the same way.
#[derive(Clone, Copy)]
pub struct Amount {
    pub at: usize,
    pub value: usize,
    pub percent: bool,
    pub over: Option<usize>,
}

// `U` or `R` behind a part: its offset and its operator.
#[derive(Clone, Copy)]
pub struct ReachAt {
    pub at: usize,
    pub operator: Binary,
}

// An operator with one operand: !, X, F or G.
#[derive(Clone, Copy)]
pub enum Unary {
    Not,
    Next,
    Finally,
    Globally,
}

// An operator with two operands: &, |, U or R.
#[derive(Clone, Copy)]
pub enum Binary {
    And,
    Or,
    Until,
    Release,
}

// What a node is: "true", a mark, an operator, or a count, by a number of carts or by a percentage.
#[derive(Clone, Copy)]
pub enum Kind {
    Top,
    Mark,
    Unary(Unary),
    Binary(Binary),
    Count { percent: bool },
}

impl Kind {
    // The first byte of such a node.
    pub fn byte(self) -> u8
        ensures { result ≡ kind_byte self }
    {
        match self {
            Kind::Top => 0,
            Kind::Mark => 1,
            Kind::Unary(Unary::Not) => 2,
            Kind::Unary(Unary::Next) => 3,
            Kind::Unary(Unary::Finally) => 4,
            Kind::Unary(Unary::Globally) => 5,
            Kind::Binary(Binary::And) => 6,
            Kind::Binary(Binary::Or) => 7,
            Kind::Binary(Binary::Until) => 8,
            Kind::Binary(Binary::Release) => 9,
            Kind::Count { percent: false } => 10,
            Kind::Count { percent: true } => 11,
        }
    }

    // By a node's first byte; any above 11 is taken for a count by number.
    pub fn of_byte(b: u8) -> Kind
        ensures { result ≡ kind_of b }
    {
        match b {
            0 => Kind::Top,
            1 => Kind::Mark,
            2 => Kind::Unary(Unary::Not),
            3 => Kind::Unary(Unary::Next),
            4 => Kind::Unary(Unary::Finally),
            5 => Kind::Unary(Unary::Globally),
            6 => Kind::Binary(Binary::And),
            7 => Kind::Binary(Binary::Or),
            8 => Kind::Binary(Binary::Until),
            9 => Kind::Binary(Binary::Release),
            n => Kind::Count { percent: n == 11 },
        }
    }
}
