// The head of a plan.
ghost use Rattle.std.specs.Prelude.{◌≡◌};
ghost use Rattle.plan.specs.Plan.{out_of_range, judged_head};

use crate::Head;
use refusal::Refusal;

pub(crate) fn out_of_range(h: Head) -> bool
    ensures { result ≡ out_of_range h }
{
    h.steps == 0 || 64 < h.steps || h.steps <= h.stem || 16 < h.drift
}

// Judges the first record by its kind and body. The kind is the file's number: any may stand there.
#[tactic(auto, unfolding(crate::specs::Plan::judged_head))]
pub(crate) fn judge_head(kind: u16, body: &[u8]) -> Result<Head, Refusal>
    ensures { result ≡ judged_head kind body.now }
{
    if kind != 4 {
        return Err(refusal::at_offset(3, 0));
    }
    if body.len() != 6 {
        return Err(refusal::at_offset(4, 0));
    }
    let h = Head {
        steps: usize::from(endian::number16(body[0], body[1])),
        stem: usize::from(endian::number16(body[2], body[3])),
        drift: usize::from(endian::number16(body[4], body[5])),
    };
    if out_of_range(h) {
        return Err(refusal::at_offset(8, 0));
    }
    Ok(h)
}
