// The line that document 01's program prints for a verdict. Printed by hand, into fixed memory: there is no heap for a String, from an InlineText the bytes
// would be copied into the lent buffer as well, and `verdict_line` promises every byte of that.
#![tactic(auto)]

ghost use Rattle.std.specs.Prelude.{◌≡◌, ◌+◌, ◌≤◌, ◌<◌, ◌∷◌, length};
ghost use Rattle.line.specs.Decimal.{digit_byte, decimal};
ghost use Rattle.line.specs.Line.{ascii, spaced, file_name, line_of, done_line, answer_line};
ghost use Rattle.line.specs.Promises.{LaidOut, PutAt};

use refusal::Code;

// Puts bytes into the buffer from an offset on, and returns where they end.
fn put_bytes(out: &mut [u8], at: usize, s: &[u8]) -> usize
    requires { at + length s.now ≤ length out.old }
    ensures { PutAt s.now out.old at result out.new }
{
    record::copy_at(out, at, s);
    at + s.len()
}

// A digit's byte. The cast is proved to fit: TryFrom would add an error that never comes.
fn digit_byte(d: u32) -> u8
    requires { d < 10 }
    ensures { result ≡ digit_byte d }
{
    b'0' + d as u8
}

// Puts a number's digits.
fn put_decimal(out: &mut [u8], at: usize, n: u32) -> usize
    requires { at + length (decimal n) ≤ length out.old }
    ensures { PutAt (decimal n) out.old at result out.new }
{
    if n < 10 {
        return put_bytes(out, at, &[digit_byte(n)]);
    }
    let end = put_decimal(out, at, n / 10);
    put_bytes(out, end, &[digit_byte(n % 10)])
}

// Puts a space and a number.
fn put_number(out: &mut [u8], at: usize, n: u32) -> usize
    requires { at + 11 ≤ length out.old }
    ensures put_at { PutAt (32 ∷ decimal n) out.old at result out.new }
    ensures upper_bound { result ≤ at + 11 }
{
    let from = put_bytes(out, at, b" ");
    put_decimal(out, from, n)
}

// Puts the word `refused` and the name of the file, if there is one. The file is C's number, as in `Code`: `line_of` is of any code.
fn put_refused(out: &mut [u8], about: u32) -> usize
    requires { 13 ≤ length out.old }
    ensures put_at { PutAt (spaced (ascii "refused") (file_name about)) out.old 0 result out.new }
    ensures upper_bound { result ≤ 13 }
{
    match about {
        1 => put_bytes(out, 0, b"refused floor"),
        2 => put_bytes(out, 0, b"refused plan"),
        3 => put_bytes(out, 0, b"refused rules"),
        _ => put_bytes(out, 0, b"refused"),
    }
}

// Lays out the line of a verdict, byte 10 included, and returns its length: at most 47 bytes, three numbers of ten digits being the longest.
pub fn verdict_line(c: Code, out: &mut [u8; 48]) -> usize
    ensures { LaidOut (line_of c) out.old result out.new }
{
    if c.number == 0 {
        return put_bytes(out, 0, b"accepted\n");
    }
    let file = put_refused(out, c.about);
    let number = put_number(out, file, c.number);
    let first = put_number(out, number, c.first);
    let second = put_number(out, first, c.second);
    put_bytes(out, second, b"\n")
}

// Lays out the line that says how many bytes were written, and returns its length.
fn done_line(n: u32, out: &mut [u8; 48]) -> usize
    ensures { LaidOut (done_line n) out.old result out.new }
{
    let word = put_bytes(out, 0, b"done");
    let end = put_number(out, word, n);
    put_bytes(out, end, b"\n")
}

// Lays out the line of any operation's answer, and returns its length.
pub fn answer_line(c: Code, out: &mut [u8; 48]) -> usize
    ensures { LaidOut (answer_line c) out.old result out.new }
{
    if c.number != 0 {
        return verdict_line(c, out);
    }
    if c.first == 0 {
        return verdict_line(c, out);
    }
    done_line(c.first, out)
}
