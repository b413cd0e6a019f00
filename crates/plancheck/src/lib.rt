// Checking a plan.
#![tactic(auto)]

mod clauses;

ghost use Rattle.std.specs.Prelude.{◌≡◌, ◌≤◌, leb};
ghost use Rattle.refusal.specs.Results.{checked};
ghost use Rattle.refusal.specs.declared.Verdict.TheVariants.{Accepted};
ghost use Rattle.sheet.specs.Rules.{rules_verdict};
ghost use Rattle.marks.specs.Bears.{Borne};
ghost use Rattle.drift.specs.Places.{pairs_end};
ghost use Rattle.plancheck.specs.Check.{stages};
ghost use Rattle.plancheck.specs.Readable.{held, Readable, clauses_read};
ghost use Rattle.plancheck.specs.Promises.{PlanChecked};

use clauses::judge_lines;
use plan::PlanRead;
use refusal::Refused;

// Judges the clauses in a block of N words. floor, r and rules stay three parameters down to judge_lines: the crates below take them one by one, and a struct
// of them would be taken apart at each call.
fn judge_in<const N: usize>(
    floor: &[u8],
    r: &PlanRead,
    rules: &[u8],
    marks: usize,
) -> Result<(), Refused>
    requires readable { Readable floor.now r.now }
    requires rules_value { rules_verdict rules.now ≡ Accepted }
    requires borne { Borne floor.now r.now.floor.places marks × (pairs_end marks r.now.plan.head.steps ≤ N) × (N ≤ 2944) }
    ensures { checked result ≡ clauses_read floor.now r.now rules.now }
{
    let mut t = [0u32; N];
    judge_lines(floor, r, rules, marks, &mut t)
}

// Whether so many words have room for the tables of all marks at all steps, of all and of none, and for six pairs of places.
fn fits(marks: usize, steps: usize, words: usize) -> bool
    requires { (marks ≤ 32) × (steps ≤ 64) }
    ensures { result ≡ leb (pairs_end marks steps) words }
{
    (marks + 14) * steps <= words
}

// Judges the clauses of an accepted sheet, in the smallest block that has room for the tables of all marks at all steps, of all and of none, and for six
// pairs of places: a large one costs more to clear than a small floor to check.
fn judge_clauses(floor: &[u8], r: &PlanRead, rules: &[u8]) -> Result<(), Refused>
    requires readable { Readable floor.now r.now }
    requires rules_value { rules_verdict rules.now ≡ Accepted }
    ensures { checked result ≡ clauses_read floor.now r.now rules.now }
{
    let marks = marks::borne(floor, r.floor.places);
    let steps = r.plan.head.steps;
    if fits(marks, steps, 500) {
        return judge_in::<500>(floor, r, rules, marks);
    }
    if fits(marks, steps, 1000) {
        return judge_in::<1000>(floor, r, rules, marks);
    }
    judge_in::<2944>(floor, r, rules, marks)
}

// Judges a plan that was read: moves, narrow places, sheet, and then its clauses.
fn judge(floor: &[u8], r: &PlanRead, rules: &[u8]) -> Result<(), Refused>
    requires { Readable floor.now r.now }
    ensures { checked result ≡ stages floor.now rules.now r.now.floor (held r.now) }
{
    moves::judge_plan(floor, r.floor, r.plan.head, &r.plan.block)?;
    conflict::judge_plan(floor, r.floor, r.plan.head, &r.plan.block)?;
    sheet::read(rules)?;
    judge_clauses(floor, r, rules)
}

// Checks a plan.
pub fn check(floor: &[u8], plan: &[u8], rules: &[u8]) -> Result<(), Refused>
    ensures { PlanChecked floor.now plan.now rules.now (checked result) }
{
    let r = plan::read(floor, plan)?;
    judge(floor, &r, rules)
}
