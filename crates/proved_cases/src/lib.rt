// Theorems about the rules alone: the paper's cases, and the moves of the six states. The only code is the table of moves.
#![tactic(auto)]

ghost use Rattle.std.specs.Prelude.{◌≡◌, ◌<◌};
ghost use Rattle.rules.specs.Moves.{may_move};

// A row for each state that is left, a column for each that is reached: 1 where the move happens. Document 01 names the table, and 0 and 1 are read against it.
const MOVES: [[u8; 6]; 6] = [
    [0, 0, 0, 0, 1, 0],
    [0, 0, 0, 1, 0, 1],
    [0, 0, 0, 0, 1, 0],
    [0, 1, 0, 0, 0, 1],
    [0, 1, 0, 1, 0, 0],
    [1, 0, 1, 0, 0, 0],
];

// Whether a block moves from this state to that one.
pub fn may_move(from: usize, to: usize) -> bool
    requires { (from < 6) × (to < 6) }
    ensures { result ≡ may_move from to }
{
    MOVES[from][to] == 1
}
