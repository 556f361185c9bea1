// Changes in a pool of bytes.
ghost use Rattle.std.specs.Prelude.{◌≡◌, ◌+◌, ◌-◌, ◌≤◌, length, take, drop};

// Moves what lies from `from` to `end` to begin at `to`.
fn shift(pool: &mut [u8], from: usize, end: usize, to: usize)
    requires { (from ≤ end) × (end ≤ length pool.old) × (to + (end - from) ≤ length pool.old) }
    ensures before { take to pool.new ≡ take to pool.old }
    ensures moved { take (end - from) (drop to pool.new) ≡ take (end - from) (drop from pool.old) }
{
    if to != from {
        pool.copy_within(from..end, to);
    }
}

// Writes `bytes` in the place of what lies from `from` to `to`, and moves what lies behind it, to `end`, behind them.
pub(crate) fn splice(pool: &mut [u8], from: usize, to: usize, end: usize, bytes: &[u8])
    requires order { (from ≤ to) × (to ≤ end) × (end ≤ length pool.old) }
    requires fits { from + length bytes.now + (end - to) ≤ length pool.old }
    ensures before { take from pool.new ≡ take from pool.old }
    ensures here { take (length bytes.now) (drop from pool.new) ≡ bytes.now }
    ensures behind { take (end - to) (drop (from + length bytes.now) pool.new) ≡ take (end - to) (drop to pool.old) }
{
    let behind = from + bytes.len();
    shift(pool, to, end, behind);
    pool[from..behind].copy_from_slice(bytes);
}
