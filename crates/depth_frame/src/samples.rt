ghost use Rattle.std.specs.Prelude.{◌≡◌, ◌<◌, ◌≤◌, ◌+◌, ◌-◌, ◌*◌, length, take, drop, slice_index, vec_len, vec_capacity};
ghost use Rattle.depth_frame.specs.Runs.{HasNoSample, IsRun};

/// Appends the samples at the front of the bytes, at most `limit`, up to one that is above the maxval or is not whole,
/// and returns their length in bytes.
pub fn push_samples(raw: &mut Vec<u16>, bytes: &[u8], maxval: u32, limit: usize) -> usize
    requires room { vec_len raw.old + limit ≤ vec_capacity raw.old }
    ensures run { IsRun maxval (vec_len raw.new - vec_len raw.old) (take result bytes.now) raw.old.items raw.new.items }
    ensures used { result ≤ length bytes.now }
    ensures least { vec_len raw.old ≤ vec_len raw.new }
    ensures greatest { vec_len raw.new ≤ vec_len raw.old + limit }
    ensures all { vec_len raw.new < vec_len raw.old + limit → HasNoSample maxval (drop result bytes.now) }
    ensures room { vec_capacity raw.new ≡ vec_capacity raw.old }
{
    if maxval < 256 {
        return push_narrow(raw, bytes, maxval, limit.min(bytes.len()));
    }
    2 * push_wide(raw, bytes, maxval, limit.min(bytes.len() / 2))
}

// Appends `count` samples of one byte, or those up to one that is above the maxval, and returns their number.
fn push_narrow(raw: &mut Vec<u16>, bytes: &[u8], maxval: u32, count: usize) -> usize
    requires narrow { maxval < 256 }
    requires whole { count ≤ length bytes.now }
    requires room { vec_len raw.old + count ≤ vec_capacity raw.old }
    ensures run { IsRun maxval result (take result bytes.now) raw.old.items raw.new.items }
    ensures bound { result ≤ count }
    ensures all { result < count → maxval < slice_index bytes.now result }
    ensures len { vec_len raw.new ≡ vec_len raw.old + result }
    ensures room { vec_capacity raw.new ≡ vec_capacity raw.old }
{
    for i in 0..count {
        let sample = bytes[i] as u16;
        if sample as u32 > maxval {
            return i;
        }
        raw.push_reserved(sample);
    }
    count
}

// Appends `count` samples of two bytes, or those up to one that is above the maxval, and returns their number.
fn push_wide(raw: &mut Vec<u16>, bytes: &[u8], maxval: u32, count: usize) -> usize
    requires wide { 256 ≤ maxval }
    requires whole { 2 * count ≤ length bytes.now }
    requires room { vec_len raw.old + count ≤ vec_capacity raw.old }
    ensures run { IsRun maxval result (take (2 * result) bytes.now) raw.old.items raw.new.items }
    ensures bound { result ≤ count }
    ensures all { result < count → maxval < 256 * slice_index bytes.now (2 * result) + slice_index bytes.now (2 * result + 1) }
    ensures len { vec_len raw.new ≡ vec_len raw.old + result }
    ensures room { vec_capacity raw.new ≡ vec_capacity raw.old }
{
    for i in 0..count {
        let sample = 256 * bytes[2 * i] as u16 + bytes[2 * i + 1] as u16;
        if sample as u32 > maxval {
            return i;
        }
        raw.push_reserved(sample);
    }
    count
}
