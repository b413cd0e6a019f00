// One word: a truth of each cart.
ghost use Rattle.std.specs.Prelude.{not};
ghost use Rattle.cltl.specs.Rules.{join, mix};
ghost use Rattle.mask.specs.Mask.{on};
ghost use Rattle.table.specs.Table.{Word};

// The same for every cart.
pub(crate) fn same_word(p: bool) -> u32
    ensures { Word (λ i. p) result }
{
    if p { u32::MAX } else { 0 }
}

// What a word is turned over by: nothing for the text itself (p), every bit for its negation.
pub fn flip(p: bool) -> u32
    ensures { Word (λ i. not p) result }
{
    same_word(!p)
}

// "and" (p) or "or": mask::join_row is the same of rows of 64 bits; one for both would ask for a trait that says what & and | do to bits, no plainer.
pub(crate) fn join_word(p: bool, a: u32, b: u32) -> u32
    ensures { Word (λ i. join p (on a i) (on b i)) result }
{
    if p { a & b } else { a | b }
}

// One step of "until" (p) or of "release", with what is true behind it.
pub(crate) fn mix_word(p: bool, a: u32, b: u32, rest: u32) -> u32
    ensures { Word (λ i. mix p (on a i) (on b i) (on rest i)) result }
{
    if p { b | (a & rest) } else { b & (a | rest) }
}
