ghost use Rattle.std.specs.Prelude.{◌≡◌, ◌+◌, ◌≤◌, ◌<◌, ◌^◌, ◌++◌, [], ◌∷◌, vec_len, vec_capacity, length, sum, take};
ghost use Rattle.wal_roll.specs.Kept.{whole};

// One more length, for which there is room.
pub fn pend(lengths: &mut Vec<u32>, used: &mut u32, need: u32)
    requires room { vec_len lengths.old + 1 ≤ vec_capacity lengths.old }
    requires fits { used.old + need < 2 ^ 32 }
    ensures items { lengths.new.items ≡ lengths.old.items ++ need ∷ [] }
    ensures used { used.new ≡ used.old + need }
{
    let Ok(()) = lengths.push(need) else {
        unreachable!()
    };
    *used += need;
}

// How many pieces of these lengths stand whole in so many bytes.
pub fn whole_count(lengths: &[u32], bytes: u64) -> u32
    requires { length lengths.now < 2 ^ 32 }
    ensures value { result ≡ whole bytes lengths.now }
    ensures most { result ≤ length lengths.now }
{
    let mut left = bytes;
    let mut count = 0;
    for length in lengths {
        if *length as u64 > left {
            return count;
        }
        left -= *length as u64;
        count += 1;
    }
    count
}

// The sum of the first of these lengths.
pub fn sum_of_first(lengths: &[u32], count: u32) -> u32
    requires few { count ≤ length lengths.now }
    requires fits { sum lengths.now < 2 ^ 32 }
    ensures value { result ≡ sum (take count lengths.now) }
    ensures most { result ≤ sum lengths.now }
{
    let mut total = 0;
    for length in &lengths[..count as usize] {
        total += *length;
    }
    total
}
