// The functions that the table controllers call from C: include/cartplan.h.
#![tactic(auto)]

ghost use Rattle.floor.specs.Numbers.{numbers};
ghost use Rattle.plan.specs.Numbers.{head_of};
ghost use Rattle.clause.specs.Promises.{Picked};
ghost use Rattle.controller.specs.Edge.{FloorReadCode, PlanReadCode, FloorWrittenCode, PlanWrittenCode, RulesReadCode, MovesCheckedCode, PlanCheckedCode, MovedOnCode, MovesAddUpCode, RowReplacedCode};

use clause::Span;
use refusal::Code;

// Reads a floor.
#[unsafe(no_mangle)]
pub extern "C" fn cartplan_read_floor(floor: &[u8]) -> Code
    ensures { FloorReadCode floor.now result }
{
    refusal::code_of(floor::verdict_of(floor::read(floor)))
}

// Reads a floor, and a plan for it.
#[unsafe(no_mangle)]
pub extern "C" fn cartplan_read_plan(floor: &[u8], plan: &[u8]) -> Code
    ensures { PlanReadCode floor.now plan.now result }
{
    refusal::code_of(plan::read(floor, plan).map(|_| ()).into())
}

// Writes a floor.
#[unsafe(no_mangle)]
pub extern "C" fn cartplan_write_floor(
    places: &[u32],
    lanes: &[u8],
    carts: &[u8],
    narrow: &[u8],
    groups: &[u32],
    out: &mut [u8],
) -> Code
    ensures { FloorWrittenCode (numbers places.now lanes.now carts.now narrow.now groups.now)
        out.old result out.new }
{
    refusal::code_of(floor::write(places, lanes, carts, narrow, groups, out).into())
}

// Writes a plan for a floor.
#[unsafe(no_mangle)]
pub extern "C" fn cartplan_write_plan(
    floor: &[u8],
    h: u16,
    l: u16,
    d: u16,
    rows: &[u8],
    out: &mut [u8],
) -> Code
    ensures { PlanWrittenCode floor.now (head_of h l d) rows.now out.old result out.new }
{
    refusal::code_of(plan::write(floor, h, l, d, rows, out).into())
}

// Reads a rule sheet.
#[unsafe(no_mangle)]
pub extern "C" fn cartplan_read_rules(rules: &[u8]) -> Code
    ensures { RulesReadCode rules.now result }
{
    refusal::code_of(sheet::read(rules).into())
}

// Checks the moves of a plan.
#[unsafe(no_mangle)]
pub extern "C" fn cartplan_check_moves(floor: &[u8], plan: &[u8]) -> Code
    ensures { MovesCheckedCode floor.now plan.now result }
{
    refusal::code_of(moves::check(floor, plan).into())
}

// Checks a plan.
#[unsafe(no_mangle)]
pub extern "C" fn cartplan_check(floor: &[u8], plan: &[u8], rules: &[u8]) -> Code
    ensures { PlanCheckedCode floor.now plan.now rules.now result }
{
    refusal::code_of(plancheck::check(floor, plan, rules).into())
}

// Moves a plan on by s steps.
#[unsafe(no_mangle)]
pub extern "C" fn cartplan_move_on(floor: &[u8], plan: &[u8], s: u16, out: &mut [u8]) -> Code
    ensures moved { MovedOnCode floor.now plan.now s out.old result out.new }
    ensures added_up { MovesAddUpCode floor.now plan.now s out.old result out.new }
{
    refusal::code_of(edit::move_on(floor, plan, s, out).into())
}

// Replaces a cart's row in a plan.
#[unsafe(no_mangle)]
pub extern "C" fn cartplan_replace_row(floor: &[u8], plan: &mut [u8], cart: u32, row: &[u8]) -> Code
    ensures { RowReplacedCode floor.now plan.old cart row.now result plan.new }
{
    refusal::code_of(edit::replace_row(floor, plan, cart, row).into())
}

// Where the clause that a verdict picks lies in a sheet.
#[unsafe(no_mangle)]
pub extern "C" fn cartplan_clause(rules: &[u8], verdict: &[u8]) -> Span
    ensures { Picked rules.now verdict.now result }
{
    clause::find_span(rules, verdict)
}
