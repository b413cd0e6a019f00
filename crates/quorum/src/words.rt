// The words of a text, one a step.
ghost use Rattle.std.specs.Prelude.{◌+◌, ◌-◌, ◌^◌, ◌≤◌, ◌<◌, ◌≡◌, length};
ghost use Rattle.mask.specs.Mask.{signed};
ghost use Rattle.table.specs.Table.{told, Stored};
ghost use Rattle.quorum.specs.Words.{Of};

// The n lowest bits: of as many carts, one each.
pub fn lowest(n: usize) -> u32
    requires { n ≤ 32 }
    ensures { result ≡ 2 ^ n - 1 }
{
    ((1u64 << n) - 1) as u32
}

// The words of the steps: of the carts that have their bit in `who`, those that satisfy the text (p) or its negation.
pub(crate) fn unroll(t: &[u32], at: usize, p: bool, who: u32, h: usize, w: &mut [u32; 81])
    requires h_bound { h ≤ 64 }
    requires h_in_bounds { at + h ≤ length t.now }
    ensures { Stored (Of who (λ i s. signed p (told t.now at i s))) 0 0 h w.old w.new }
{
    let flip = table::flip(p);
    for s in 0..h {
        w[s] = (t[at + s] ^ flip) & who;
    }
}
