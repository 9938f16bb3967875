// Pending marks of a core's tasks, gathered eight to a word, and the search for the first that is set (docs/SHEET.md, section 6).
#![tactic(auto)]

ghost use Rattle.std.specs.Prelude.{◌≡◌, ◌<◌, take};
ghost use Rattle.fit.specs.Lists.{place_of};
ghost use Rattle.marks.specs.Words.{mark as mark_of, marked, word_at};

use timing::Task;

// The mark of a task: 1 where it is pending, else 0.
#[tactic(auto, unfolding(crate::specs::Words::mark, timing::specs::Tasks::pending))]
pub fn mark(t: Task) -> u8
    ensures { result ≡ mark_of t }
{
    u8::from(0 < t.left)
}

// Word g of the marks: the mark at place 8g + k is byte k.
#[tactic(auto, using(crate::proofs::Gathering::gathered_is))]
fn gathered(marks: &[u8; 64], g: usize) -> u64
    requires { g < 8 }
    ensures { result ≡ word_at marks.now g }
{
    let (groups, _) = marks.as_chunks::<8>();
    u64::from_le_bytes(groups[g])
}

// The place of the first mark that is set among the first `count`, or how many there are: a word that is zero is passed over, else its lowest
// mark is the first.
pub fn first_marked(marks: &[u8; 64], count: usize) -> usize
    ensures { result ≡ place_of marked (take count marks.now) }
{
    let most = count.min(64);
    for g in 0..most.div_ceil(8) {
        let word = gathered(marks, g);
        if word != 0 {
            return (8 * g + word.trailing_zeros() as usize / 8).min(most);
        }
    }
    most
}
