// Records of a file: a two-byte body length, a two-byte kind and the body.
#![tactic(auto)]

ghost use Rattle.std.specs.Prelude.{◌≡◌, ◌+◌, ◌-◌, ◌≤◌, ◌<◌, min, length};
ghost use Rattle.record.specs.Record.{encoded};
ghost use Rattle.record.specs.Parts.{of_kind, laid};
ghost use Rattle.record.specs.Found.{found_at};
ghost use Rattle.record.specs.Buffer.{stored};

// What stands at an offset of a file: nothing more, less than a record, or a record and where its body lies. Kept: `found_at` and the theorems on it
// are of these three cases. The end of a file is no fault and no body, and `Cut` is a fault only to whoever reads on.
// A record's kind stays the file's number: any may stand there, and `found_at` gives it.
#[derive(Clone, Copy)]
pub enum Found {
    End,
    Cut,
    Whole { kind: u16, start: usize, end: usize },
}

// The record at an offset.
pub fn find(s: &[u8], at: usize) -> Found
    ensures { result ≡ found_at s.now at }
{
    if s.len() <= at {
        return Found::End;
    }
    let left = s.len() - at;
    if left < 4 {
        return Found::Cut;
    }
    let size = usize::from(endian::number16(s[at], s[at + 1]));
    if left - 4 < size {
        return Found::Cut;
    }
    let kind = endian::number16(s[at + 2], s[at + 3]);
    let start = at + 4;
    Found::Whole {
        kind,
        start,
        end: start + size,
    }
}

// Copies bytes to an offset of a buffer. Every other byte stays.
pub fn copy_at(out: &mut [u8], at: usize, src: &[u8])
    requires { at + length src.now ≤ length out.old }
    ensures { out.new ≡ stored out.old at src.now }
{
    out[at..at + src.len()].copy_from_slice(src);
}

// Writes a record at an offset. Every other byte stays. Its cast by `as` is proved to fit: TryFrom would add an error that never comes.
pub fn put(out: &mut [u8], at: usize, kind: u16, body: &[u8])
    requires { (length body.now < 65536) × (at + 4 + length body.now ≤ length out.old) }
    ensures { out.new ≡ stored out.old at (encoded (of_kind kind body.now)) }
{
    let size = endian::bytes16(body.len() as u16);
    let tag = endian::bytes16(kind);
    copy_at(out, at, &[size[0], size[1], tag[0], tag[1]]);
    copy_at(out, at + 4, body);
}

// Where the part of so many bytes that begins at an offset ends: the last part is shorter where bytes are left over. Nothing of this repository calls it now,
// since `chunks` cuts the parts; it stays for whoever does.
pub fn part_end(from: usize, size: usize, len: usize) -> usize
    ensures { result ≡ from + min size (len - from) }
{
    if len <= from {
        return from;
    }
    if len - from < size { len } else { from + size }
}

// Writes records of one kind, so many bytes of the bodies to each, one after the other from an offset on, and returns where
// they end. Every other byte stays.
pub fn put_parts(out: &mut [u8], at: usize, kind: u16, size: usize, bodies: &[u8]) -> usize
    requires { (0 < size) × (size < 65536) × (at + length (laid kind size bodies.now) ≤ length out.old) }
    ensures value { result ≡ at + length (laid kind size bodies.now) }
    ensures out_after { out.new ≡ stored out.old at (laid kind size bodies.now) }
{
    let mut next = at;
    for body in bodies.chunks(size) {
        put(out, next, kind, body);
        next += 4 + body.len();
    }
    next
}
