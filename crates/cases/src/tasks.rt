// What a data set asks for: its file `task` names an operation and holds what that takes besides the files.

use refusal::Verdict;
use std::io;

// Moves the plan on by the number behind the first byte.
fn move_on(
    rt: &impl Print,
    floor: &[u8],
    plan: &[u8],
    task: &[u8],
    out: &mut [u8],
) -> io::Result<()> {
    if task.len() < 3 {
        return Ok(());
    }
    let s = endian::number16(task[1], task[2]);
    report::print_answer(rt, edit::move_on(floor, plan, s, out).into())?;
    report::print_bytes(rt, out)
}

// Replaces the row of the cart named by four bytes.
fn replace_row(rt: &impl Print, floor: &[u8], plan: &mut [u8], task: &[u8]) -> io::Result<()> {
    if task.len() < 5 {
        return Ok(());
    }
    let cart = endian::number32(task[1], task[2], task[3], task[4]);
    report::print_answer(rt, edit::replace_row(floor, plan, cart, &task[5..]).into())?;
    report::print_bytes(rt, plan)
}

// Checks the plan, and shows the clause that the verdict's bytes pick.
fn check_and_show(rt: &impl Print, floor: &[u8], plan: &[u8], rules: &[u8]) -> io::Result<()> {
    let v = Verdict::from(plancheck::check(floor, plan, rules));
    report::print_answer(rt, v)?;
    let bytes = refusal::verdict_bytes(v);
    report::print_part(rt, clause::clause_part(rules, &bytes))
}

// Does what is asked for, reading the plan where nothing is, and prints what comes of it. What is asked for is the data set's own byte.
pub(crate) fn run(
    rt: &impl Print,
    floor: &[u8],
    plan: &mut [u8],
    rules: &[u8],
    task: &[u8],
    out: &mut [u8],
) -> io::Result<()> {
    if task.is_empty() {
        return report::print_answer(rt, plan::read(floor, plan).map(|_| ()).into());
    }
    match task[0] {
        1 => report::print_answer(rt, moves::check(floor, plan).into()),
        2 => move_on(rt, floor, plan, task, out),
        3 => replace_row(rt, floor, plan, task),
        5 => check_and_show(rt, floor, plan, rules),
        _ => report::print_answer(rt, plancheck::check(floor, plan, rules).into()),
    }
}
