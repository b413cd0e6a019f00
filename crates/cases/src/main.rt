// Does what each data set asks for, and prints the verdicts and the buffers written to.
#![tactic(auto)]

mod tasks;

use std::io;
use std::rt::Files;

// How many data sets are run: tests/make-cases.py writes them. Those of moving on added up follow them in data/.
const CASES: usize = 1125;

// A digit as a byte of text. The cast is proved to fit: TryFrom would add an error that never comes.
fn digit(n: usize) -> u8 {
    b'0' + (n % 10) as u8
}

// Runs the data set in the folder whose name is n in four digits. Paths byte by byte: a String would be on the heap.
fn run_case(rt: &(impl Files + Print), n: usize) -> io::Result<()> {
    let mut floor = [0u8; 65537];
    let mut plan = [0u8; 65537];
    let mut rules = [0u8; 16385];
    let mut task = [0u8; 128];
    let mut out = [0u8; 4096];
    let a = digit(n / 1000);
    let b = digit(n / 100);
    let c = digit(n / 10);
    let d = digit(n);
    let f = report::load(
        rt,
        &[a, b, c, d, b'/', b'f', b'l', b'o', b'o', b'r'],
        &mut floor,
    );
    let p = report::load(rt, &[a, b, c, d, b'/', b'p', b'l', b'a', b'n'], &mut plan);
    let r = report::load(
        rt,
        &[a, b, c, d, b'/', b'r', b'u', b'l', b'e', b's'],
        &mut rules,
    );
    let t = report::load(rt, &[a, b, c, d, b'/', b't', b'a', b's', b'k'], &mut task);
    let o = report::load(rt, &[a, b, c, d, b'/', b'o', b'u', b't'], &mut out);
    rt.write_all(&[a, b, c, d, b' '])?;
    tasks::run(
        rt,
        &floor[..f],
        &mut plan[..p],
        &rules[..r],
        &task[..t],
        &mut out[..o],
    )?;
    report::end_line(rt)
}

fn main(rt: HostRuntime) -> io::Result<()> {
    for n in 0..CASES {
        run_case(&rt, n)?;
    }
    Ok(())
}
