// A level's section of the lists: n members in front, zeros behind them.
ghost use Rattle.std.specs.Prelude.{◌≡◌, ◌<◌, length, take, drop};
ghost use Rattle.laws.specs.Lists.{pad, keep};
ghost use Rattle.tables_pool.specs.Row.{Ended, elsewhere};

// Moves every member but the first one place forward, and clears the last one's place.
pub fn drop_first(row: &mut [u16], n: usize)
    requires { Ended row.old n × (0 < n) }
    ensures { row.new ≡ pad (length row.old) (drop 1 (take n row.old)) }
{
    row.copy_within(1..n, 0);
    row[n - 1] = 0;
}

// Keeps the members that are no parts of this block, in their order, and clears the places behind them; answers how many stay.
// By index, since it reads and writes one row. One function for this and for the queue's `keep_waiting` would take cells, place and test.
pub fn remove_parts(row: &mut [u16], n: usize, parts: usize, parent: usize) -> usize
    requires { Ended row.old n × (0 < parts) }
    ensures { (result ≡ length (keep (elsewhere parts parent) (take n row.old)))
        × (row.new ≡ pad (length row.old) (keep (elsewhere parts parent) (take n row.old))) }
{
    let mut kept = 0;
    for i in 0..n {
        let b = row[i];
        row[i] = 0;
        if b as usize / parts != parent {
            row[kept] = b;
            kept += 1;
        }
    }
    kept
}
