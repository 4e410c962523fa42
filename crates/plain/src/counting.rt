// The change days of a rule, counted plainly: each day is asked.
ghost use Rattle.std.specs.Prelude.{◌≡◌, ◌-◌, ◌≤◌, length};
ghost use Rattle.meaning.specs.declared.Rule.{Rule};
ghost use Rattle.meaning.specs.Walk.{pick};
ghost use Rattle.meaning.specs.Document.{Doc};
ghost use Rattle.meaning.specs.Select.{reads};
ghost use Rattle.meaning.specs.Day.{is_change};
ghost use Rattle.columns.specs.Lent.{Periods};
ghost use Rattle.marks.specs.Marks.{Marks};

// How many change days a rule has from its period's first day on and before day `past`. Cost: for each day a look at the records.
pub fn count_changes(read: &[u8], begin: &[u16], end: &[u16], first: u16, past: u16) -> usize
    requires { (length end.now ≡ length begin.now) × (length begin.now ≤ length read.now) × (first ≤ past) }
    ensures { (doc : Doc) (q r : Rule) → Periods doc begin.now end.now → Marks (reads doc q r) doc.size read.now → r.begin ≡ first → result ≡ length (pick (is_change doc q r) first (past - first)) }
{
    let mut n: usize = 0;
    for d in first..past {
        if paths::turning::is_change(read, begin, end, first, d) {
            n += 1;
        }
    }
    n
}
