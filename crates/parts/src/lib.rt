// Whether one tree is a part of another: both are rows of one store.
#![tactic(auto)]

ghost use Rattle.std.specs.Prelude.{◌≡◌, ◌<◌, length};
ghost use Rattle.rules.specs.Answers.{Says};
ghost use Rattle.trees.specs.Paths.{Leads};
ghost use Rattle.store.specs.Layout.{store_graph, room};
ghost use Rattle.checking.specs.Checked.{SoundStore};
ghost use Rattle.checking.specs.Answers.{AnswerSays};
ghost use Rattle.parts.specs.Parts.{part_refusals};

use checking::{Answer, look_over};
use store::row::ROOM;
use walker::{met, walk_from};

// Whether the walk from the whole meets the part.
fn leads_with(
    store: &[u32],
    n: usize,
    whole: usize,
    part: usize,
    queue: &mut [u16],
    marks: &mut [u16],
) -> bool
    requires sound_store { SoundStore store.now n × (whole < n) × (part < n) }
    requires queue_len { (length queue.old ≡ 1024) × (length marks.old ≡ 1024) }
    ensures { Says (Leads (store_graph room store.now) whole part) result }
{
    let filled = walk_from(store, ROOM, n, whole, queue, marks);
    met(queue, marks, n, filled, part)
}

fn leads(store: &[u32], n: usize, whole: usize, part: usize) -> bool
    requires { SoundStore store.now n × (whole < n) × (part < n) }
    ensures { Says (Leads (store_graph room store.now) whole part) result }
{
    let mut queue = [0u16; 1024];
    let mut marks = [0u16; 1024];
    leads_with(store, n, whole, part, &mut queue, &mut marks)
}

fn part_in(store: &[u32], n: usize, part: usize, whole: usize) -> Answer
    requires { SoundStore store.now n }
    ensures { AnswerSays (part_refusals store.now part whole) (Leads (store_graph room store.now) whole part) result }
{
    if n <= part {
        return Answer::refused(9);
    }
    if n <= whole {
        return Answer::refused(9);
    }
    Answer {
        number: 0,
        yes: leads(store, n, whole, part),
    }
}

// 1, 2, 9; or yes exactly when some path, the empty one too, leads from the whole to the part.
pub fn part_of(store: &[u32], part: u32, whole: u32) -> Answer
    ensures { AnswerSays (part_refusals store.now part whole) (Leads (store_graph room store.now) whole part) result }
{
    match look_over(store) {
        Err(flaw) => Answer::refused(flaw.number()),
        Ok(n) => part_in(store, n, part as usize, whole as usize),
    }
}
