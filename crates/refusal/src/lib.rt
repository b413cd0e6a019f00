// Refusals and verdicts, and document 01's numbers of each.
#![tactic(auto)]

ghost use Rattle.std.specs.Prelude.{◌≡◌};
ghost use Rattle.refusal.specs.Codes.{refused, at_offset, code_about, code_of, bytes_of};
ghost use Rattle.refusal.specs.Stages.{is_accepted};
ghost use Rattle.refusal.specs.Results.{told, checked, wrote};

// A refusal's number and its two further numbers. A number, not an enum: `refuse` and `at_offset` promise their answer for any, and C gets it.
#[derive(Clone, Copy)]
pub struct Refusal {
    pub number: u32,
    pub first: u32,
    pub second: u32,
}

// A refusal and the file that it is about.
#[derive(Clone, Copy)]
pub enum Refused {
    Floor(Refusal),
    Plan(Refusal),
    Rules(Refusal),
}

// What any operation answers, as its four numbers tell it: accepted, or a result of so many bytes written, or refused. Operations themselves give results.
// Kept: `code_of`, `verdict_bytes` and the theorems on `Given` and `Answered` are of every verdict.
#[derive(Clone, Copy)]
pub enum Verdict {
    Accepted,
    Written(u32),
    Floor(Refusal),
    Plan(Refusal),
    Rules(Refusal),
}

// A verdict as four numbers, in C's layout.
#[repr(C)]
#[derive(Clone, Copy)]
pub struct Code {
    pub about: u32,
    pub number: u32,
    pub first: u32,
    pub second: u32,
}

// A refusal with its number and two further numbers.
pub fn refuse(number: u32, first: u32, second: u32) -> Refusal
    ensures { result ≡ refused number first second }
{
    Refusal {
        number,
        first,
        second,
    }
}

// The refusal of a file or sheet at a byte offset.
pub fn at_offset(number: u32, at: u32) -> Refusal
    ensures { result ≡ at_offset number at }
{
    Refusal {
        number,
        first: at,
        second: 0,
    }
}

fn code_about(file: u32, r: Refusal) -> Code
    ensures { result ≡ code_about file r }
{
    Code {
        about: file,
        number: r.number,
        first: r.first,
        second: r.second,
    }
}

// The verdict's four numbers.
pub fn code_of(v: Verdict) -> Code
    ensures { result ≡ code_of v }
{
    match v {
        Verdict::Accepted => Code {
            about: 0,
            number: 0,
            first: 0,
            second: 0,
        },
        Verdict::Written(n) => Code {
            about: 0,
            number: 0,
            first: n,
            second: 0,
        },
        Verdict::Floor(r) => code_about(1, r),
        Verdict::Plan(r) => code_about(2, r),
        Verdict::Rules(r) => code_about(3, r),
    }
}

// The verdict's 16 bytes.
pub fn verdict_bytes(v: Verdict) -> [u8; 16]
    ensures { result ≡ bytes_of (code_of v) }
{
    let c = code_of(v);
    let a = endian::bytes32(c.about);
    let n = endian::bytes32(c.number);
    let f = endian::bytes32(c.first);
    let s = endian::bytes32(c.second);
    [
        a[0], a[1], a[2], a[3], n[0], n[1], n[2], n[3], f[0], f[1], f[2], f[3], s[0], s[1], s[2],
        s[3],
    ]
}

// Whether a verdict accepts. Kept, though no function calls it now: it is public, and the definition `is_accepted`, of which laws speak, is what it gives.
pub fn accepts(v: Verdict) -> bool
    ensures { result ≡ is_accepted v }
{
    matches!(v, Verdict::Accepted)
}

impl From<Refused> for Verdict {
    ghost from_gives = { λ e v. v ≡ told e };

    fn from(e: Refused) -> Verdict {
        match e {
            Refused::Floor(r) => Verdict::Floor(r),
            Refused::Plan(r) => Verdict::Plan(r),
            Refused::Rules(r) => Verdict::Rules(r),
        }
    }
}

// What a check answers: nothing, or a refusal.
impl From<Result<(), Refused>> for Verdict {
    ghost from_gives = { λ r v. v ≡ checked r };

    fn from(r: Result<(), Refused>) -> Verdict {
        match r {
            Ok(()) => Verdict::Accepted,
            Err(e) => e.into(),
        }
    }
}

// What writing answers: how many bytes it wrote, or a refusal.
impl From<Result<u32, Refused>> for Verdict {
    ghost from_gives = { λ r v. v ≡ wrote r };

    fn from(r: Result<u32, Refused>) -> Verdict {
        match r {
            Ok(n) => Verdict::Written(n),
            Err(e) => e.into(),
        }
    }
}
