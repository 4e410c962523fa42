// How far apart the numbers in a rule's rows lie: where no two of them are a wrong step apart, no step has to be looked for.
ghost use Rattle.std.specs.Prelude.{◌≡◌, true, ◌&&◌, ◌+◌, ◌<◌, ◌≤◌, leb, length};
ghost use Rattle.steps.specs.Levels.{raised};
ghost use Rattle.steps.specs.Calm.{Widened, Spanned, Calm};

use crate::levels::raised;
use numbers::index;

// The least and the greatest of some numbers, moved up.
#[derive(Clone, Copy)]
struct Span {
    least: u64,
    most: u64,
}

// The span widened to the value of a record with this key, of n, where it is a number with a row. Cost: four tests.
fn widened(span: Span, key: u16, n: usize, vkind: u8, value: i32) -> Span
    ensures { Widened span.least span.most key n vkind value result.least result.most }
{
    if vkind != 1 {
        return span;
    }
    if n <= index(key) {
        return span;
    }
    let x = raised(value);
    Span {
        least: span.least.min(x),
        most: span.most.max(x),
    }
}

// The span of the numbers with a row. Cost: one pass over the records.
fn span_of(key: &[u16], vkind: &[u8], value: &[i32]) -> Span
    requires { (length vkind.now ≤ length key.now) × (length vkind.now ≤ length value.now) }
    ensures { Spanned key.now vkind.now value.now (length vkind.now) result.least result.most }
{
    let mut span = Span {
        least: 4294967295,
        most: 0,
    };
    for f in 0..vkind.len() {
        span = widened(span, key[f], vkind.len(), vkind[f], value[f]);
    }
    span
}

// Whether the step from the least to the greatest of a span, and the step back, lie in low..high. Cost: two tests.
fn is_narrow(least: u64, most: u64, low: i32, high: i32) -> bool
    requires { (least < 4294967296) × (most < 4294967296) }
    ensures { result ≡ (leb (most + 2147483648) (raised high + least) && leb (raised low + 2147483647 + most) (4294967295 + least)) }
{
    let top = raised(high);
    let bottom = raised(low);
    (most + 2147483648 <= top + least) & (bottom + 2147483647 + most <= 4294967295 + least)
}

// Whether it is plain that the step between any two numbers with a row lies in low..high. Cost: one pass over the records.
pub fn calm(key: &[u16], vkind: &[u8], value: &[i32], low: i32, high: i32) -> bool
    requires { (length vkind.now ≤ length key.now) × (length vkind.now ≤ length value.now) }
    ensures { result ≡ true → Calm key.now vkind.now value.now low high }
{
    let span = span_of(key, vkind, value);
    is_narrow(span.least, span.most, low, high)
}
