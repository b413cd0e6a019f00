// The part of a sheet that a verdict picks.
#![tactic(auto)]

ghost use Rattle.std.specs.Prelude.{◌≡◌, ◌+◌, ◌-◌, ◌≤◌, ◌<◌, cond, length, drop};
ghost use Rattle.refusal.specs.Codes.{word_at};
ghost use Rattle.clause.specs.Clause.{names_clause, picks, is_end, line_start, line_length, empty_span, clause_in};
ghost use Rattle.clause.specs.Promises.{Picked, Shown};

// A part of a sheet: where it begins, and how many bytes it has.
#[repr(C)]
#[derive(Clone, Copy)]
pub struct Span {
    pub offset: usize,
    pub length: usize,
}

// The empty part at offset 0.
fn empty_span() -> Span
    ensures { result ≡ empty_span }
{
    Span {
        offset: 0,
        length: 0,
    }
}

// The number in the four bytes from an offset on. By `as`: std has no From from u32 to usize.
fn word_at(s: &[u8], at: usize) -> usize
    requires { at + 4 ≤ length s.now }
    ensures { result ≡ word_at at s.now }
{
    endian::number32(s[at], s[at + 1], s[at + 2], s[at + 3]) as usize
}

// Whether a refusal's number is one that comes with a clause's number.
fn names_clause(number: usize) -> bool
    ensures { result ≡ names_clause number }
{
    number == 16 || (number == 17 || number == 21)
}

// Whether a verdict's bytes pick a clause. They are C's, so the file (3) and the refusal stand in them as numbers.
fn picks_clause(verdict: &[u8]) -> bool
    ensures { result ≡ picks verdict.now }
{
    if verdict.len() != 16 {
        return false;
    }
    if word_at(verdict, 0) != 3 {
        return false;
    }
    names_clause(word_at(verdict, 4))
}

// How many line ends are still to pass behind a byte.
fn ends_left(b: u8, left: usize) -> usize
    requires { 0 < left }
    ensures { result ≡ cond (is_end b) (left - 1) left }
{
    if b == 10 { left - 1 } else { left }
}

// Where the line with a number begins; the text's length where there are fewer lines, as the definition of that name says it. A loop, since each byte changes
// what is left to pass: an adapter that carries it and stops at the first find would be no plainer.
fn line_start(s: &[u8], k: usize) -> usize
    ensures { result ≡ line_start k s.now }
{
    let mut left = k;
    for (i, b) in s.iter().enumerate() {
        if left == 0 {
            return i;
        }
        left = ends_left(*b, left);
    }
    s.len()
}

// Where the line that begins at an offset ends: at its byte 10, or at the text's end where none follows. By indices: the offset may lie past the text's end,
// where there is no slice to search.
fn line_end(s: &[u8], at: usize) -> usize
    ensures { result ≡ at + line_length (drop at s.now) }
{
    for i in at..s.len() {
        if s[i] == 10 {
            return i;
        }
    }
    at.max(s.len())
}

// The clause with a number. A line that byte 10 does not end is none. No Option: C wants the empty part at offset 0, and `clause_in` gives that.
fn find_clause(s: &[u8], k: usize) -> Span
    ensures { result ≡ clause_in k s.now }
{
    let start = line_start(s, k);
    let end = line_end(s, start);
    if end < s.len() {
        Span {
            offset: start,
            length: end - start,
        }
    } else {
        empty_span()
    }
}

// Where the part lies that a verdict's bytes pick.
pub fn find_span(sheet: &[u8], verdict: &[u8]) -> Span
    ensures { Picked sheet.now verdict.now result }
{
    if !picks_clause(verdict) {
        return empty_span();
    }
    find_clause(sheet, word_at(verdict, 8))
}

// The part that a verdict's bytes pick, lent by the sheet alone.
pub fn clause_part<'a, 'b>(sheet: &'a [u8], verdict: &'b [u8]) -> &'a [u8]
    ensures { Shown sheet.now verdict.now result.now }
{
    let p = find_span(sheet, verdict);
    let from = p.offset;
    let end = p.offset + p.length;
    &sheet[from..end]
}
