// A table in which the keys of names are marked, so that most names are known to be new without being compared.
ghost use Rattle.std.specs.Prelude.{◌≡◌, ◌≤◌, length, replicate};
ghost use Rattle.selectors.specs.Sieve.{key_of, holds, with_key};

// Keys lie below this prime.
const KEYS: usize = 2147483647;

// The key of a name: the same for the same bytes.
pub fn key_of(name: &[u8]) -> usize
    ensures { result ≡ key_of name.now }
{
    let mut key = 1000000007;
    for x in name {
        key = (742938285 * key + usize::from(*x)) % KEYS;
    }
    key
}

// Whether all four places of a key are marked.
pub fn holds(sieve: &[u8], key: usize) -> bool
    requires { 64 ≤ length sieve.now }
    ensures { result ≡ holds sieve.now key }
{
    let n = sieve.len();
    (sieve[key % n] == 1)
        & (sieve[key % (n - 5)] == 1)
        & (sieve[key % (n - 11)] == 1)
        & (sieve[key % (n - 23)] == 1)
}

// Marks the four places of a key.
pub fn put(sieve: &mut [u8], key: usize)
    requires { 64 ≤ length sieve.old }
    ensures { sieve.new ≡ with_key sieve.old key }
{
    let n = sieve.len();
    sieve[key % n] = 1;
    sieve[key % (n - 5)] = 1;
    sieve[key % (n - 11)] = 1;
    sieve[key % (n - 23)] = 1;
}

// Wipes out all marks.
pub fn clear(sieve: &mut [u8])
    ensures { sieve.new ≡ replicate (length sieve.old) 0 }
{
    sieve.fill(0);
}
