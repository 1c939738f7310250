// A whole script to its whole listing.
#![tactic(auto)]

mod first;

ghost use Rattle.std.specs.Prelude.{◌≡◌, ◌≤◌, length};
ghost use Rattle.std.proofs.lemmas.List.Edits.{sets};
ghost use Rattle.rules.specs.Listing.{listing};

use rules::Refusal;
use rules::script::MOST_BYTES;
use script_lines::LINE_MOST;

// The bytes of the header, and the fewest of a record.
const HEADER_BYTES: usize = 20;

const RECORD_LEAST: usize = 3;

// The most bytes that a listing takes: the header, and a line for each record that the longest script has room for and for one that is cut.
pub const LISTING_MOST: usize = HEADER_BYTES + LINE_MOST * (MOST_BYTES / RECORD_LEAST + 1);

// Writes the listing of a script, whatever its bytes, and answers how many bytes it has.
pub fn list_script(script: &[u8], out: &mut [u8; LISTING_MOST]) -> usize
    ensures { (out.new ≡ sets out.old 0 (listing script.now)) × (result ≡ length (listing script.now)) × (result ≤ length out.new) }
{
    let end = script_lines::put_header(out);
    if script.is_empty() {
        return script_lines::put_line(out, end, 0, 0, Err(Refusal::BadRecord(0)));
    }
    if MOST_BYTES < script.len() {
        return script_lines::put_line(out, end, 0, 0, Err(Refusal::BadRecord(MOST_BYTES)));
    }
    first::run_first(script, out, end)
}
