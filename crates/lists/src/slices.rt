// The slice of a day: the versions alive on it, marked and stored.
ghost use Rattle.std.specs.Prelude.{◌≡◌, ◌-◌, ◌≤◌, length, take};
ghost use Rattle.meaning.specs.Reading.{Accepted};
ghost use Rattle.meaning.specs.Block.{limit};
ghost use Rattle.meaning.specs.Walk.{pick};
ghost use Rattle.meaning.specs.Document.{Doc};
ghost use Rattle.meaning.specs.Day.{alive};
ghost use Rattle.meaning.specs.Answer.{storing, lent_after};
ghost use Rattle.columns.specs.Lent.{Lends, PeriodsOf};
ghost use Rattle.marks.specs.Marks.{Marks};
ghost use Rattle.lists.specs.Lending.{LivingIn, PeriodsFront};

use columns::{LIMIT, Records};
use meaning::Refusal;

// Marks the versions alive on day d. Cost: a look at each record.
fn mark_alive(records: Records<'_>, d: u16, marks: &mut [u8])
    requires { LivingIn records (length marks.old) }
    ensures { (doc : Doc) → Lends doc.size doc.kind 0 records.entry.kind.now → PeriodsOf doc records.entry → Marks (alive doc d) doc.size marks.new }
{
    for i in 0..records.kind.len() {
        marks[i] = u8::from(
            (records.kind[i] == 2) & (records.begin[i] <= d) & (d < records.end[i]),
        );
    }
}

// The versions alive on day d, into a lent list. Cost: three looks at each record.
fn slice_columns(records: Records<'_>, d: u16, out: &mut [u16]) -> Result<usize, Refusal>
    requires { LivingIn records limit }
    ensures answer { (doc : Doc) → Lends doc.size doc.kind 0 records.entry.kind.now → PeriodsOf doc records.entry → result ≡ storing Accepted (pick (alive doc d) 0 doc.size) out.old }
    ensures lent { (doc : Doc) → Lends doc.size doc.kind 0 records.entry.kind.now → PeriodsOf doc records.entry → out.new ≡ lent_after result (pick (alive doc d) 0 doc.size) out.old }
{
    let mut marks = [0u8; LIMIT];
    mark_alive(records, d, &mut marks);
    marks::store_marked(&marks, 0, records.kind.len(), out)
}

// The same over the first n entries of the columns.
pub fn slice_front(
    n: usize,
    records: Records<'_>,
    d: u16,
    out: &mut [u16],
) -> Result<usize, Refusal>
    requires { (n ≤ limit) × (n ≤ length records.kind.now) × (n ≤ length records.begin.now) × (n ≤ length records.end.now) }
    ensures answer { (doc : Doc) → Lends doc.size doc.kind 0 (take (n - 0) records.entry.kind.now) → PeriodsFront doc n records.entry → result ≡ storing Accepted (pick (alive doc d) 0 doc.size) out.old }
    ensures lent { (doc : Doc) → Lends doc.size doc.kind 0 (take (n - 0) records.entry.kind.now) → PeriodsFront doc n records.entry → out.new ≡ lent_after result (pick (alive doc d) 0 doc.size) out.old }
{
    let front = Records {
        kind: &records.kind[..n],
        begin: &records.begin[..n],
        end: &records.end[..n],
        ..records
    };
    slice_columns(front, d, out)
}
