// Checks the plan of this folder: reads the files floor, plan and rules, and prints the verdict's line.
#![tactic(auto)]

use std::io;

fn main(rt: HostRuntime) -> io::Result<()> {
    // One byte more than a file may have, so that a longer one is seen.
    let mut floor = [0u8; 65537];
    let mut plan = [0u8; 65537];
    let mut rules = [0u8; 16385];
    let f = report::load(&rt, b"floor", &mut floor);
    let p = report::load(&rt, b"plan", &mut plan);
    let r = report::load(&rt, b"rules", &mut rules);
    report::print_line(
        &rt,
        plancheck::check(&floor[..f], &plan[..p], &rules[..r]).into(),
    )
}
