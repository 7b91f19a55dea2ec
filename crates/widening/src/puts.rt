// The rows of an old store put into the target, and their count.
ghost use Rattle.std.specs.Prelude.{◌≡◌};
ghost use Rattle.std.proofs.lemmas.List.Edits.{sets};
ghost use Rattle.store.specs.Layout.{row_word};
ghost use Rattle.store.specs.Rows.{RowThere, row_of, words_of_row};
ghost use Rattle.widens.specs.Widened.{rows_widened, widened};
ghost use Rattle.widening.specs.Steps.{BothThere, Fitting};

use store::count::write_count;
use store::row::{put_row, read_row};

// Row n of the old store, at its number.
fn widen_row(old: &[u32], from: usize, target: &mut [u32], to: usize, n: usize)
    requires { RowThere from old.now n × RowThere to target.old n }
    ensures { target.new ≡ sets target.old (row_word to n) (words_of_row to (row_of from old.now n)) }
{
    let row = read_row(old, from, n);
    put_row(target, to, n, row);
}

// The first rows, each at its number.
fn widen_rows(old: &[u32], from: usize, target: &mut [u32], to: usize, rows: usize)
    requires { BothThere from to old.now target.old rows }
    ensures { target.new ≡ rows_widened from to old.now target.old rows }
{
    for n in 0..rows {
        widen_row(old, from, target, to, n);
    }
}

// Asks: a sound old store, and room for its rows in the target. The operation has tested both.
pub fn put_all(old: &[u32], from: usize, target: &mut [u32], to: usize, rows: usize)
    requires { Fitting from to old.now target.old rows }
    ensures { target.new ≡ widened from to old.now target.old }
{
    widen_rows(old, from, target, to, rows);
    write_count(target, rows);
}
