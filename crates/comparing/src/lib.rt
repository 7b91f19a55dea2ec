// Comparing a row of one store with a row of another: both are walked, and the walks' rows are compared place by place.
#![tactic(auto)]

ghost use Rattle.std.specs.Prelude.{◌≡◌, ◌≤◌, ◌<◌, length, get_or};
ghost use Rattle.rules.specs.Answers.{Says};
ghost use Rattle.trees.specs.Agreement.{SameTree};
ghost use Rattle.store.specs.Layout.{count_of, input_of, store_graph, room};
ghost use Rattle.checking.specs.Checked.{SoundStore};
ghost use Rattle.checking.specs.Answers.{AnswerSays};
ghost use Rattle.comparing.specs.Refused.{compare_refusals};
ghost use Rattle.comparing.specs.Rows.{RowMarked, RowsMarked, SamePlaces, SameRow, SameRows};

use checking::{Answer, look_over};
use rows::entry;
use store::row::{ROOM, count_of, input_of, label_of};
use walker::walk_from;

// The place of input j of a row, in the walk that left these marks.
fn place_of(store: &[u32], marks: &[u16], row: usize, j: usize) -> usize
    requires { RowMarked store.now marks.now row × (j < count_of room store.now row) }
    ensures { result ≡ get_or marks.now (input_of room store.now row j) 0 }
{
    entry(marks, input_of(store, ROOM, row, j) as usize)
}

fn same_places(
    first: &[u32],
    marks: &[u16],
    a: usize,
    second: &[u32],
    others: &[u16],
    b: usize,
    count: usize,
) -> bool
    requires row_marked { RowMarked first.now marks.now a × RowMarked second.now others.now b }
    requires count_value { (count ≡ count_of room first.now a) × (count ≡ count_of room second.now b) }
    ensures { Says (SamePlaces first.now marks.now a second.now others.now b count) result }
{
    (0..count).all(|j| place_of(first, marks, a, j) == place_of(second, others, b, j))
}

fn same_row(
    first: &[u32],
    marks: &[u16],
    a: usize,
    second: &[u32],
    others: &[u16],
    b: usize,
) -> bool
    requires { RowMarked first.now marks.now a × RowMarked second.now others.now b }
    ensures { Says (SameRow first.now marks.now a second.now others.now b) result }
{
    if label_of(first, ROOM, a) != label_of(second, ROOM, b) {
        return false;
    }
    let count = count_of(first, ROOM, a);
    if count != count_of(second, ROOM, b) {
        return false;
    }
    same_places(first, marks, a, second, others, b, count as usize)
}

fn same_rows(
    first: &[u32],
    marks: &[u16],
    queue: &[u16],
    second: &[u32],
    others: &[u16],
    line: &[u16],
    n: usize,
) -> bool
    requires { RowsMarked first.now marks.now queue.now n × RowsMarked second.now others.now line.now n }
    ensures { Says
        (SameRows first.now marks.now queue.now second.now others.now
        line.now n)
        result }
{
    (0..n).all(|k| same_row(
        first,
        marks,
        entry(queue, k),
        second,
        others,
        entry(line, k),
    ))
}

// The walks from both rows, and then their rows compared.
fn same_tree_with(
    first: &[u32],
    n: usize,
    row: usize,
    second: &[u32],
    m: usize,
    other: usize,
    queue: &mut [u16],
    marks: &mut [u16],
    line: &mut [u16],
    others: &mut [u16],
) -> bool
    requires sound_store { SoundStore first.now n × (row < n) × SoundStore second.now m × (other < m) }
    requires queue_len { (length queue.old ≡ 1024) × (length marks.old ≡ 1024) × (length line.old ≡ 1024) × (length others.old ≡ 1024) }
    ensures { Says (SameTree (store_graph room first.now) row (store_graph room second.now) other) result }
{
    let filled = walk_from(first, ROOM, n, row, queue, marks);
    let met = walk_from(second, ROOM, m, other, line, others);
    if filled != met {
        return false;
    }
    same_rows(first, marks, queue, second, others, line, filled)
}

fn same_tree(first: &[u32], n: usize, row: usize, second: &[u32], m: usize, other: usize) -> bool
    requires { SoundStore first.now n × (row < n) × SoundStore second.now m × (other < m) }
    ensures { Says (SameTree (store_graph room first.now) row (store_graph room second.now) other) result }
{
    let mut queue = [0u16; 1024];
    let mut marks = [0u16; 1024];
    let mut line = [0u16; 1024];
    let mut others = [0u16; 1024];
    same_tree_with(
        first,
        n,
        row,
        second,
        m,
        other,
        &mut queue,
        &mut marks,
        &mut line,
        &mut others,
    )
}

// Both stores are sound: 9, or the answer.
fn compare_rows(
    first: &[u32],
    n: usize,
    row: usize,
    second: &[u32],
    m: usize,
    other: usize,
) -> Answer
    requires { SoundStore first.now n × SoundStore second.now m }
    ensures { AnswerSays (compare_refusals first.now row second.now other)
        (SameTree (store_graph room first.now) row (store_graph room second.now) other) result }
{
    if n <= row {
        return Answer::refused(9);
    }
    if m <= other {
        return Answer::refused(9);
    }
    Answer {
        number: 0,
        yes: same_tree(first, n, row, second, m, other),
    }
}

// The first store is sound: 1 and 2 for the second.
fn compare_second(first: &[u32], n: usize, row: usize, second: &[u32], other: usize) -> Answer
    requires { SoundStore first.now n }
    ensures { AnswerSays (compare_refusals first.now row second.now other)
        (SameTree (store_graph room first.now) row (store_graph room second.now) other) result }
{
    match look_over(second) {
        Err(flaw) => Answer::refused(flaw.number()),
        Ok(m) => compare_rows(first, n, row, second, m, other),
    }
}

// 1 and 2 for the first store, 1 and 2 for the second, then 9 for either number; or yes exactly when the rows have the same tree.
pub fn compare(first: &[u32], row: u32, second: &[u32], other: u32) -> Answer
    ensures { AnswerSays (compare_refusals first.now row second.now other)
        (SameTree (store_graph room first.now) row (store_graph room second.now) other) result }
{
    match look_over(first) {
        Err(flaw) => Answer::refused(flaw.number()),
        Ok(n) => compare_second(first, n, row as usize, second, other as usize),
    }
}
