// Marked numbers: the next one, how many, and all of them stored in a lent list.
#![tactic(auto)]

ghost use Rattle.std.specs.Prelude.{◌≡◌, ◌++◌, ◌-◌, ◌≤◌, length, drop};
ghost use Rattle.meaning.specs.Reading.{Accepted};
ghost use Rattle.meaning.specs.Walk.{pick};
ghost use Rattle.meaning.specs.Answer.{storing, lent_after};
ghost use Rattle.marks.specs.Marks.{marked, after};

use meaning::Refusal;

// The lowest marked number from `from` on, or `to` where none below it is. Cost: a look at each number passed over.
fn next_marked(marks: &[u8], from: usize, to: usize) -> usize
    requires { to ≤ length marks.now }
    ensures { result ≡ after (marked marks.now) from to }
{
    for i in from..to {
        if marks[i] == 1 {
            return i;
        }
    }
    to
}

// How many numbers from `from` on and below `to` are marked. Cost: a look at each.
fn count_marked(marks: &[u8], from: usize, to: usize) -> usize
    requires { (to ≤ length marks.now) × (from ≤ to) }
    ensures { result ≡ length (pick (marked marks.now) from (to - from)) }
{
    let mut n: usize = 0;
    let mut i = next_marked(marks, from, to);
    // a while: it goes from one marked number to the next
    while i < to {
        n += 1;
        i = next_marked(marks, i + 1, to);
    }
    n
}

// Stores the marked numbers from `from` on and below `to`, ascending, at the front of a list that has room. Cost: a look at each number.
fn list_marked(marks: &[u8], from: usize, to: usize, out: &mut [u16])
    requires { (to ≤ length marks.now) × (to ≤ 65536) × (from ≤ to) × (length (pick (marked marks.now) from (to - from)) ≤ length out.old) }
    ensures { out.new ≡ pick (marked marks.now) from (to - from) ++ drop (length (pick (marked marks.now) from (to - from))) out.old }
{
    let mut k: usize = 0;
    let mut i = next_marked(marks, from, to);
    // a while: it goes from one marked number to the next
    while i < to {
        out[k] = i as u16;
        k += 1;
        i = next_marked(marks, i + 1, to);
    }
}

// The same into a list of any length: 12 where it is too short, and then nothing is stored. Cost: two looks at each number.
pub fn store_marked(marks: &[u8], from: usize, to: usize, out: &mut [u16]) -> Result<usize, Refusal>
    requires { (to ≤ length marks.now) × (to ≤ 65536) × (from ≤ to) }
    ensures answer { result ≡ storing Accepted (pick (marked marks.now) from (to - from)) out.old }
    ensures lent { out.new ≡ lent_after result (pick (marked marks.now) from (to - from)) out.old }
{
    let n = count_marked(marks, from, to);
    if out.len() < n {
        return Err(Refusal {
            number: 12,
            place: 0,
        });
    }
    list_marked(marks, from, to, out);
    Ok(n)
}
