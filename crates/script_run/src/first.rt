// A script from its first record on: its shape, the tables that it needs, and the records behind it.
ghost use Rattle.rules.specs.Tables.{state, fresh};
ghost use Rattle.script_run.specs.Listed.{Begun, Listed, Titled, Headed, Lent, AllListed};

use rules::script::Record;
use rules::{Answer, CELLS, Device, Refusal};
use script_turn::turn;
use shape::Shape;

// The lengths of the lists, the calls and the queue of the largest shape.
const MOST_LISTS: usize = Shape::MOST_LEVELS + Shape::MOST_BLOCKS;

const MOST_CALLS: usize = CELLS * Shape::MOST_THREADS;

const MOST_QUEUE: usize = Shape::MOST_THREADS + 1;

// The tables of a script, lent to be written.
#[derive(Drop)]
struct Tables<'a> {
    states: &'a mut [u8],
    owners: &'a mut [u8],
    lists: &'a mut [u16],
    calls: &'a mut [u64],
    queue: &'a mut [u8],
}

// Runs the records from an offset on, one after the other, and writes the line of each; a bad one is the last.
// Answers the place behind the lines.
fn run_rest(
    script: &[u8],
    from: usize,
    d: Device,
    s: Shape,
    out: &mut [u8],
    start: usize,
    tables: &mut Tables,
) -> usize
    requires { Begun script.now 1 from s (state tables.old.states.now tables.old.owners.now tables.old.lists.now tables.old.calls.now tables.old.queue.now d) out.old start }
    ensures { Listed script.now 1 from s (state tables.old.states.now tables.old.owners.now tables.old.lists.now tables.old.calls.now tables.old.queue.now d) out.old start out.new result }
{
    let mut device = d;
    let mut n = 1;
    let mut at = from;
    let mut end = start;
    // A `while`: how far the next record stands is told by the one before it.
    while at < script.len() {
        let tag = script[at];
        let Some((step, next)) = script_reader::read(script, at) else {
            return script_lines::put_line(out, end, n, tag, Err(Refusal::BadRecord(at)));
        };
        let answered = turn(
            step,
            &mut device,
            s,
            tables.states,
            tables.owners,
            tables.lists,
            tables.calls,
            tables.queue,
        );
        end = script_lines::put_line(out, end, n, tag, answered);
        at = next;
        n += 1;
    }
    end
}

// Runs a script on lent tables of the lengths of its shape: made fresh, then the records behind the shape.
fn run_built(
    script: &[u8],
    next: usize,
    s: Shape,
    out: &mut [u8],
    end: usize,
    tables: &mut Tables,
) -> usize
    requires { Lent script.now next s (state tables.old.states.now tables.old.owners.now tables.old.lists.now tables.old.calls.now tables.old.queue.now (fresh s).threads.device) out.old end }
    ensures { AllListed script.now out.old end out.new result }
{
    let tag = script[0];
    tables_fresh::make_fresh(
        s,
        tables.states,
        tables.owners,
        tables.lists,
        tables.calls,
        tables.queue,
    );
    let first = script_lines::put_line(out, end, 0, tag, Ok(Answer::Built));
    let d = Device {
        clock: 0,
        running: 0,
    };
    run_rest(script, next, d, s, out, first, tables)
}

// Runs a script whose first record is this shape, on tables of its own: the parts of the longest that the shape needs.
#[tactic(auto, using(crate::proofs::Lends::lends))]
fn run_shape(script: &[u8], next: usize, s: Shape, out: &mut [u8], end: usize) -> usize
    requires { Headed script.now next s out.old end }
    ensures { AllListed script.now out.old end out.new result }
{
    if !s.allowed() {
        let tag = script[0];
        return script_lines::put_line(out, end, 0, tag, Err(Refusal::ShapeNotAllowed));
    }
    let lengths = rules::lengths::lengths_of(s);
    let mut states = [0u8; Shape::MOST_BLOCKS];
    let mut owners = [0u8; Shape::MOST_BLOCKS];
    let mut lists = [0u16; MOST_LISTS];
    let mut calls = [0u64; MOST_CALLS];
    let mut queue = [0u8; MOST_QUEUE];
    let mut tables = Tables {
        states: &mut states[..lengths.states],
        owners: &mut owners[..lengths.owners],
        lists: &mut lists[..lengths.lists],
        calls: &mut calls[..lengths.calls],
        queue: &mut queue[..lengths.queue],
    };
    run_built(script, next, s, out, end, &mut tables)
}

// Runs a script that is not empty. Its first record is bad, or the shape; no other is found there.
pub fn run_first(script: &[u8], out: &mut [u8], end: usize) -> usize
    requires { Titled script.now out.old end }
    ensures { AllListed script.now out.old end out.new result }
{
    let Some((Record::Pool(s), next)) = script_reader::read(script, 0) else {
        let tag = script[0];
        return script_lines::put_line(out, end, 0, tag, Err(Refusal::BadRecord(0)));
    };
    run_shape(script, next, s, out, end)
}
