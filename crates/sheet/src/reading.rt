// Reading a rule sheet line by line.
ghost use Rattle.std.specs.Prelude.{◌≡◌, ◌≤◌, ◌<◌, length, drop, IfErr};
ghost use Rattle.grammar.specs.Limits.{count_nodes};
ghost use Rattle.grammar.specs.Nodes.{flat_count};
ghost use Rattle.grammar.specs.Reader.{clause_line};
ghost use Rattle.refusal.specs.Results.{checked};
ghost use Rattle.token.specs.Parts.{PartIs};
ghost use Rattle.sheet.specs.Promises.{RulesRead};
ghost use Rattle.sheet.specs.Rules.{rules_verdict, told_verdict};

use crate::parts::or_part;
use refusal::Refused;
use token::{Fault, Part, expect, refused};

// A line: a clause and byte 10. The clause's nodes are put into the block, its own the last.
pub fn read_clause(s: &[u8], at: usize, nodes: &mut [u8; 512]) -> Result<Part, Fault>
    requires { (at ≤ length s.now) × (length s.now ≤ 16384) }
    ensures { PartIs count_nodes flat_count s.now 0 128 nodes.old result nodes.new
        (clause_line 128 (drop at s.now)) }
{
    let start = Part {
        at,
        left: 128,
        n: 0,
    };
    let r = or_part(s, start, 32, false, nodes);
    expect(s, r, 10)
}

// Reads line after line, at most 32 of them.
fn read_lines(s: &[u8]) -> Result<(), Fault>
    ensures answer { told_verdict result ≡ rules_verdict s.now }
    ensures inside { IfErr result (λ f. f.at ≤ 16384) }
{
    if 16384 < s.len() {
        return Err(refused(12, 0));
    }
    if s.is_empty() {
        return Err(refused(7, 0));
    }
    let mut nodes = [0u8; 512];
    let mut at = 0;
    for _line in 0..32u32 {
        if s.len() <= at {
            return Ok(());
        }
        let r = read_clause(s, at, &mut nodes)?;
        at = r.at;
    }
    if at < s.len() {
        return Err(refused(14, at));
    }
    Ok(())
}

// Reads a rule sheet. An offset is at most 16,384, so `as` keeps it, and `try_from` would bring an error that never comes.
pub fn read(s: &[u8]) -> Result<(), Refused>
    ensures { RulesRead s.now (checked result) }
{
    read_lines(s).map_err(|f| Refused::Rules(refusal::at_offset(f.number, f.at as u32)))
}
