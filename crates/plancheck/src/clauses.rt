// The clauses of an accepted sheet in one pass: 21 wherever it stands, else 16 wherever it stands, else the first 17.
// `as u32` for what a refusal names: it is proved to fit, and TryFrom would add an error that never comes.
ghost use Rattle.std.specs.Prelude.{◌≡◌, Bool, ℕ, ◌+◌, ◌≤◌, ◌<◌, length};
ghost use Rattle.refusal.specs.Results.{checked};
ghost use Rattle.refusal.specs.Stages.{and_then};
ghost use Rattle.refusal.specs.declared.Verdict.TheVariants.{Accepted};
ghost use Rattle.plan.specs.Valid.{HeadInRange};
ghost use Rattle.sheet.specs.Rules.{rules_verdict};
ghost use Rattle.cltl.specs.Rules.{has_next};
ghost use Rattle.table.specs.Table.{Kept};
ghost use Rattle.table.specs.Layout.{pairs_at, Shown};
ghost use Rattle.marks.specs.Bears.{Borne};
ghost use Rattle.drift.specs.Tree.{Ordered, clause_tree};
ghost use Rattle.drift.specs.Need.{SixPairsDo};
ghost use Rattle.drift.specs.Places.{pairs_end};
ghost use Rattle.drift.specs.Lent.{Lent};
ghost use Rattle.drift.specs.Tallies.{Tallies};
ghost use Rattle.drift.specs.Answer.{rows_on};
ghost use Rattle.plancheck.specs.Check.{clause_verdict};
ghost use Rattle.plancheck.specs.Turns.{next_of};
ghost use Rattle.plancheck.specs.Readable.{Readable, clauses_read};

use drift::{Clause, Ground};
use floor::Floor;
use mask::Lasso;
use plan::{Head, PlanRead};
use refusal::Refused;

// A 16 that was found before clause n, or that of clause n, if it looks one tick on although there is drift.
fn first_next(
    next: Result<(), Refused>,
    nodes: &[u8],
    k: usize,
    d: usize,
    n: u32,
) -> Result<(), Refused>
    requires { Ordered nodes.now (k + 1) }
    ensures { (m : ℕ) → k < m → checked result ≡ and_then (checked next) (next_of d n (clause_tree nodes.now m k)) }
{
    next?;
    if 0 < d && drift::has_next(nodes, k) {
        return Err(Refused::Rules(refusal::refuse(16, n, 0)));
    }
    Ok(())
}

// What was found before clause n, or the verdict on clause n.
fn first_found(
    found: Result<(), Refused>,
    nodes: &[u8],
    t: &mut [u32],
    w: &mut [u32; 81],
    tallies: &mut [u8; 2048],
    bits: &[u32; 41],
    g: Ground,
    k: usize,
    n: u32,
) -> Result<(), Refused>
    requires lent { Lent g t.old bits.now }
    requires ordered { Ordered nodes.now (k + 1) × (k < 128) × SixPairsDo nodes.now k }
    requires tallies { Tallies g t.old tallies.old }
    ensures kept { Kept (pairs_at g.marks g.lasso.h) t.old t.new × Tallies g t.new tallies.new }
    ensures by_index { (bears : ℕ → ℕ → ℕ → Bool) → Shown g.marks g.carts g.lasso.h bears t.old → (m : ℕ) → k < m → checked result ≡ and_then (checked found)
        (clause_verdict (rows_on g.carts g.lasso.h g.lasso.l bears bits.now) g.drift n (clause_tree nodes.now m k)) }
{
    found?;
    let mut needs = [0u8; 128];
    drift::fill_needs(nodes, k + 1, &mut needs);
    let c = Clause {
        nodes,
        needs: &needs,
    };
    let row = drift::clause_row(c, t, w, tallies, bits, g, true, k);
    if row % 2 == 1 {
        return Ok(());
    }
    let step = drift::failing_step(c, t, w, tallies, bits, g, k);
    Err(Refused::Rules(refusal::refuse(17, n, step as u32)))
}

// What the clauses on a plan with this head are judged on.
fn ground_of(f: Floor, h: Head, marks: usize) -> Ground
    requires head_in_range { HeadInRange h }
    requires carts_bound { (0 < f.carts) × (f.carts ≤ 32) × (marks ≤ 32) }
    ensures { (result.carts ≡ f.carts) × (result.lasso.h ≡ h.steps) × (result.lasso.l ≡ h.stem) × (result.drift ≡ h.drift) × (result.marks ≡ marks) }
{
    let lasso = Lasso {
        h: h.steps,
        l: h.stem,
    };
    Ground {
        carts: f.carts,
        lasso,
        drift: h.drift,
        marks,
    }
}

// Fills the tables of the marks, and judges clause after clause.
pub fn judge_lines(
    floor: &[u8],
    r: &PlanRead,
    rules: &[u8],
    marks: usize,
    t: &mut [u32],
) -> Result<(), Refused>
    requires readable { Readable floor.now r.now }
    requires rules_value { rules_verdict rules.now ≡ Accepted }
    requires borne { Borne floor.now r.now.floor.places marks × (pairs_end marks r.now.plan.head.steps ≤ length t.old) }
    ensures { checked result ≡ clauses_read floor.now r.now rules.now }
{
    let f = r.floor;
    let h = r.plan.head;
    marks::fill(floor, &r.plan.block, f.carts, h.steps, marks, t);
    let g = ground_of(f, h, marks);
    let mut bits = [0u32; 41];
    quorum::fill_bits(&mut bits);
    marks::fill_groups(floor, f, quorum::lowest(f.carts), &mut bits);
    let mut w = [0u32; 81];
    let mut tallies = [255u8; 2048];
    let mut nodes = [0u8; 512];
    let mut next = Ok(());
    let mut found = Ok(());
    let mut at = 0;
    let mut n = 0;
    // No range: where the next clause begins is known once this one is read.
    while at < rules.len() {
        // It never fails: a sheet that was accepted has a clause wherever one ended and bytes are left (proved: `line_reads`).
        let part = sheet::read_clause(rules, at, &mut nodes).unwrap();
        let last = part.n - 1;
        if let Some(group) = drift::lacking_group(&nodes, part.n, f.groups) {
            return Err(Refused::Rules(refusal::refuse(21, n, group as u32)));
        }
        next = first_next(next, &nodes, last, h.drift, n);
        found = first_found(
            next.and(found),
            &nodes,
            t,
            &mut w,
            &mut tallies,
            &bits,
            g,
            last,
            n,
        );
        at = part.at;
        n += 1;
    }
    next.and(found)
}
