// 26: whether each reference of a table refers to a key or a unique rule of it, by two columns: of each rule its kind, and the
// number that it refers to. One look at each rule, and one more at what a reference refers to.
ghost use Rattle.std.specs.Prelude.{◌≡◌, ◌<◌, ◌≤◌, length};
ghost use Rattle.meaning.specs.Order.{need, earliest};
ghost use Rattle.rules.specs.Table.{refers_in};

use meaning::Refusal;
use numbers::index;

// Whether rule k, if it is a reference, refers to a key or a unique of the n rules.
fn refers_well(kind: &[u8], referred: &[u16], n: usize, k: usize) -> bool
    requires { (k < n) × (n ≤ length kind.now) × (n ≤ length referred.now) }
    ensures { result ≡ refers_in kind.now referred.now n k }
{
    if kind[k] != 3 {
        return true;
    }
    let to = index(referred[k]);
    if n <= to {
        return false;
    }
    let other = kind[to];
    (other == 1) | (other == 2)
}

// 26, at its lowest record.
pub fn read_references(kind: &[u8], referred: &[u16], n: usize) -> Result<(), Refusal>
    requires { (n ≤ length kind.now) × (n ≤ length referred.now) }
    ensures { result ≡ earliest (λ k. need (refers_in kind.now referred.now n k) 26 k) 0 n }
{
    for k in 0..n {
        if !refers_well(kind, referred, n, k) {
            return Err(Refusal {
                number: 26,
                place: k,
            });
        }
    }
    Ok(())
}
