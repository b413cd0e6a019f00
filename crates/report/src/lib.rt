// What the programs read and print.
#![tactic(auto)]

ghost use Rattle.std.specs.Counts.{IsPrefixLen};

use refusal::Verdict;
use std::io::Read;
use std::rt::Files;
use std::{fs, io};

// Reads until the buffer is full, the file ends or a read fails, and returns how many bytes it put at the start of the buffer. A read says itself how far it
// came; the range only bounds how often one is tried.
fn fill(file: &mut impl Read, buf: &mut [u8]) -> usize
    ensures { IsPrefixLen result buf.new }
{
    let mut done: usize = 0;
    for _ in 0..buf.len() {
        if done == buf.len() {
            break;
        }
        match file.read(&mut buf[done..]) {
            Ok(0) => break,
            Ok(n) => done += n,
            Err(_) => break,
        }
    }
    done
}

// Reads the file, or nothing where it can't be opened. A path is text: any other bytes name no file that can be.
pub fn load(rt: &impl Files, path: &[u8], buf: &mut [u8]) -> usize
    ensures { IsPrefixLen result buf.new }
{
    let Ok(name) = str::from_utf8(path) else {
        return 0;
    };
    match fs::open(rt, name) {
        Ok(mut file) => fill(&mut file, buf),
        Err(_) => 0,
    }
}

// Prints document 01's line for a verdict.
pub fn print_line(rt: &impl Print, v: Verdict) -> io::Result<()> {
    let mut out = [0u8; 48];
    let n = line::verdict_line(refusal::code_of(v), &mut out);
    rt.write_all(&out[..n])
}

// Prints the line of an operation's answer but for its byte 10, since what was written or picked follows. Another line than in print_line, and
// one byte fewer: a function over both would take these two as parameters, no plainer.
pub fn print_answer(rt: &impl Print, v: Verdict) -> io::Result<()> {
    let mut out = [0u8; 48];
    let n = line::answer_line(refusal::code_of(v), &mut out);
    rt.write_all(&out[..n - 1])
}

// Prints a part of a sheet, in quotation marks.
pub fn print_part(rt: &impl Print, s: &[u8]) -> io::Result<()> {
    rt.write_all(b": \"")?;
    rt.write_all(s)?;
    rt.write_all(b"\"")
}

fn print_byte(rt: &impl Print, b: u8) -> io::Result<()> {
    print!(rt; " {b}")
}

// Prints a lent buffer as it is left, byte by byte.
pub fn print_bytes(rt: &impl Print, s: &[u8]) -> io::Result<()> {
    print!(rt; ":")?;
    for b in s {
        print_byte(rt, *b)?;
    }
    Ok(())
}

// Ends the line.
pub fn end_line(rt: &impl Print) -> io::Result<()> {
    println!(rt;)
}
