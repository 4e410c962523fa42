// Whether a day is a change day: the period's first day, or one on which a version that is read begins or ends.
ghost use Rattle.std.specs.Prelude.{◌≡◌, ◌≤◌, length};
ghost use Rattle.meaning.specs.Document.{Doc};
ghost use Rattle.meaning.specs.declared.Rule.{Rule};
ghost use Rattle.meaning.specs.Select.{reads};
ghost use Rattle.meaning.specs.Day.{is_change};
ghost use Rattle.columns.specs.Lent.{Periods};
ghost use Rattle.marks.specs.Marks.{Marks};

// Whether day d is a change day of a period with this first day, from the marks of the versions that are read. Cost: at most one pass
// over the records, of three looks each.
pub fn is_change(read: &[u8], begin: &[u16], end: &[u16], first: u16, d: u16) -> bool
    requires { (length end.now ≡ length begin.now) × (length begin.now ≤ length read.now) }
    ensures { (doc : Doc) (q r : Rule) → Periods doc begin.now end.now → Marks (reads doc q r) doc.size read.now → r.begin ≡ first → result ≡ is_change doc q r d }
{
    if first == d {
        return true;
    }
    for i in 0..begin.len() {
        if (read[i] == 1) & ((begin[i] == d) | (end[i] == d)) {
            return true;
        }
    }
    false
}
