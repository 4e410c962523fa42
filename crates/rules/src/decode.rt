// A rule record's 50 bytes: the rule that they hold, and whether they decode. Each costs a fixed number of reads, in place.
ghost use Rattle.std.specs.Prelude.{◌≡◌, ◌+◌, ◌*◌, length};
ghost use Rattle.meaning.specs.Walk.{listed};
ghost use Rattle.meaning.specs.Bytes.{two};
ghost use Rattle.meaning.specs.Rules.{rule_in, spare_in};
ghost use Rattle.rules.specs.Decoding.{numbers_of, decoded_in};

use crate::fields::rule_fields;
use meaning::Rule;
use numbers::{signed_at, two_at};

// The numbers of a rule apart from its path, which is an array: to prove a function over an enum that holds one is dear.
#[derive(Clone, Copy)]
pub struct Numbers {
    pub kind: u8,
    pub windowed: u8,
    pub steps: u8,
    pub distinct: u8,
    pub field: u16,
    pub referred: u16,
    pub low: i32,
    pub high: i32,
    pub begin: u16,
    pub end: u16,
    pub span: u16,
    pub unit: u8,
    pub slide: u16,
}

// The eight names of a path.
fn path_in(part: &[u8]) -> [u16; 8]
    requires { length part.now ≡ 50 }
    ensures { result ≡ listed (λ k. two part.now (2 + 2 * k)) 0 8 }
{
    [
        two_at(part, 2),
        two_at(part, 4),
        two_at(part, 6),
        two_at(part, 8),
        two_at(part, 10),
        two_at(part, 12),
        two_at(part, 14),
        two_at(part, 16),
    ]
}

// The fields of a record, whatever they are.
pub fn rule_in(part: &[u8]) -> Rule
    requires { length part.now ≡ 50 }
    ensures { result ≡ rule_in part.now }
{
    let path = path_in(part);
    Rule {
        kind: part[0],
        windowed: part[1],
        path,
        steps: part[18],
        distinct: part[19],
        field: two_at(part, 20),
        referred: two_at(part, 22),
        low: signed_at(part, 24),
        high: signed_at(part, 28),
        begin: two_at(part, 32),
        end: two_at(part, 34),
        span: two_at(part, 36),
        unit: part[38],
        slide: two_at(part, 40),
    }
}

// Byte 39 and bytes 42 to 49 are zeros.
fn spare_in(part: &[u8]) -> bool
    requires { length part.now ≡ 50 }
    ensures { result ≡ spare_in part.now }
{
    (part[39] == 0) & block::all_zero(&part[42..50])
}

// A rule's numbers.
fn numbers_of(rule: Rule) -> Numbers
    ensures { result ≡ numbers_of rule }
{
    Numbers {
        kind: rule.kind,
        windowed: rule.windowed,
        steps: rule.steps,
        distinct: rule.distinct,
        field: rule.field,
        referred: rule.referred,
        low: rule.low,
        high: rule.high,
        begin: rule.begin,
        end: rule.end,
        span: rule.span,
        unit: rule.unit,
        slide: rule.slide,
    }
}

// What comes of one record by itself: its numbers, or the number of the test that it fails, its zeros (24), then its table (25).
pub fn decode(part: &[u8]) -> Result<Numbers, usize>
    requires { length part.now ≡ 50 }
    ensures { result ≡ decoded_in part.now }
{
    if !spare_in(part) {
        return Err(24);
    }
    let rule = rule_in(part);
    if !rule_fields(rule) {
        return Err(25);
    }
    Ok(numbers_of(rule))
}
