// How a rule of each kind counts: what becomes of a row with one value, and how many wanted field versions a row may have.
ghost use Rattle.std.specs.Prelude.{◌≡◌, true};
ghost use Rattle.meaning.specs.Rules.{rule_fields};
ghost use Rattle.day.specs.Ready.{Terms};

use meaning::Rule;

// A mode, and the bounds of a count.
#[derive(Clone, Copy)]
pub struct Bounds {
    pub mode: u8,
    pub low: usize,
    pub high: usize,
}

// The bounds of a cardinality: its own.
fn own_bounds(rule: Rule) -> Bounds
    requires { (rule_fields rule ≡ true) × (rule.kind ≡ 4) }
    ensures { Terms rule result.mode result.low result.high }
{
    let low = numbers::magnitude(rule.low);
    let high = numbers::magnitude(rule.high);
    Bounds {
        mode: 0,
        low: low as usize,
        high: high as usize,
    }
}

// The kinds are told apart here.
pub fn terms(rule: Rule) -> Bounds
    requires { rule_fields rule ≡ true }
    ensures { Terms rule result.mode result.low result.high }
{
    if rule.kind == 1 {
        return Bounds {
            mode: 1,
            low: 1,
            high: 1,
        };
    }
    if rule.kind == 2 {
        return Bounds {
            mode: 1,
            low: 0,
            high: 1,
        };
    }
    if rule.kind == 3 {
        return Bounds {
            mode: 2,
            low: 0,
            high: 1,
        };
    }
    if rule.kind == 4 {
        return own_bounds(rule);
    }
    Bounds {
        mode: 0,
        low: 0,
        high: 0,
    }
}
