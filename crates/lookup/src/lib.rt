// A look-up of N(t, s) in the table of counts that a program makes once and lends on, so that it is one load. The
// contracts cite specs/Lent. [P1]
#![tactic(auto)]

ghost use Rattle.std.specs.Prelude.{[], ◌≡◌, ◌≤◌};
ghost use Rattle.triangle.specs.Count.{N, largest};
ghost use Rattle.lookup.specs.Lent.{Counts};

use triangle::SIDE;

// The rows of the table that a program lends on, as far as they go: they have the counts.
#[derive(Clone, Copy)]
pub struct Table<'a> {
    rows: &'a [[u64; SIDE]],
    ghost counted: { Counts rows.now },
}

impl<'a> Table<'a> {
    // Rows that the caller keeps from call to call. [P13]
    pub fn lent(rows: &'a [[u64; SIDE]]) -> Table<'a>
        requires { Counts rows.now }
        ensures { result.rows.now ≡ rows.now }
    {
        Table { rows }
    }

    // No rows: what a call lends that keeps none.
    pub fn none() -> Table<'a>
        ensures { result.rows.now ≡ [] }
    {
        Table { rows: &[] }
    }

    // N(t, s) of allowed counts: by one load where the lent rows have it, else by the matches of `triangle`, which
    // are proved to be the table. The matches are called in two places, so that they stay a call and the load does not
    // become one. [N7] [P13] [F2]
    pub fn look(self, t: u64, s: u64) -> u64
        requires { (t ≤ largest) × (s ≤ t) }
        ensures { result ≡ N t s }
    {
        if self.rows.len() == 0 {
            return triangle::inside(t, s);
        }
        let row = t as usize;
        if row < self.rows.len() {
            return self.rows[row][s as usize];
        }
        triangle::inside(t, s)
    }
}
