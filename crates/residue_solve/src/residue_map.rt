//! Maps of the residues of a cycle of 146097 days, in 2283 words of 64 bits.
ghost use Rattle.std.specs.Prelude.{◌≡◌, ℕ, ◌+◌, ◌-◌, ◌*◌, ◌/◌, ◌%◌, ◌<◌, ◌≤◌, ◌==◌, Bool, false, length, slice_index, replicate};
ghost use Rattle.std.specs.Int.{bit_at};
ghost use Rattle.residue_solve.specs.ResidueMap.{as_bit, map_bit, IsMap, IsPutAt, shifted, joined_bit, met_bit, AreWords};

/// Residues of a cycle that pass a test.
pub trait Residues {
    /// The residue passes.
    ghost has: { Self → ℕ → Bool };

    /// Whether the residue passes.
    fn is_in(&self, residue: u32) -> bool
        requires { residue < 146097 }
        ensures { result ≡ has self.now residue };

    /// How many residues from one on surely don't pass.
    fn absent(&self, residue: u32) -> u32
        requires { residue < 146097 }
        ensures absent { (i : ℕ) → i < result → has self.now (residue + i) ≡ false }
        ensures near { result ≤ 367 };
}

// Sets a bit that isn't set, where it is to be.
fn put(words: &mut [u64], r: u32, is_in: bool)
    requires words { length words.old ≡ 2283 }
    requires r { r < 146097 }
    requires clear { map_bit words.old r ≡ 0 }
    ensures { IsPutAt words.old r is_in words.new }
{
    if is_in {
        words[r as usize / 64] |= 1 << (r % 64);
    }
}

// How far the next residue is that may pass.
fn step_from<T: Residues>(days: &T, r: u32, is_in: bool) -> u32
    requires { r < 146097 }
    ensures some { 1 ≤ result }
    ensures near { result ≤ 367 }
    ensures absent { (i : ℕ) → 0 < i → i < result → T.has days.now (r + i) ≡ false }
{
    if is_in {
        return 1;
    }
    let absent = days.absent(r);
    if absent == 0 { 1 } else { absent }
}

/// Fills a map with the answers of a test. Takes no memory.
pub fn fill<T: Residues>(words: &mut [u64], days: &T)
    requires { words.old ≡ replicate 2283 0 }
    ensures { IsMap (T.has days.now) words.new }
{
    let mut r: u32 = 0;
    while r < 146_097 {
        let is_in = days.is_in(r);
        put(words, r, is_in);
        r += step_from(days, r, is_in);
    }
}

/// Whether the bit of a residue is set. Takes no memory.
pub fn has_bit(words: &[u64], r: u32) -> bool
    requires words { length words.now ≡ 2283 }
    requires r { r < 146097 }
    ensures { result ≡ (map_bit words.now r == 1) }
{
    (words[r as usize / 64] >> (r % 64)) & 1 == 1
}

// How many of the lowest bits are zeros.
fn lowest(word: u64) -> u32
    ensures zeros { (i : ℕ) → i < result → bit_at word i ≡ 0 }
    ensures bound { result ≤ 64 }
{
    if word == 0 {
        return 64;
    }
    word.trailing_zeros()
}

// The 64 bits from bit `p` of a map on.
fn window(words: &[u64], p: usize) -> u64
    requires { p + 64 < 64 * length words.now }
    ensures { (i : ℕ) → i < 64 → bit_at result i ≡ map_bit words.now (p + i) }
{
    let w = p / 64;
    let s = (p % 64) as u32;
    if s == 0 {
        return words[w];
    }
    (words[w] >> s) | (words[w + 1] << (64 - s))
}

// The residue s - 8 days after one.
fn shifted_at(w: usize, i: u32, s: u32) -> u32
    requires w { w < 2283 }
    requires i { i < 64 }
    requires s { s ≤ 16 }
    ensures value { result ≡ shifted (64 * w + i) s }
    ensures bound { result < 146097 }
{
    (64 * w as u32 + i + (146_089 + s)) % 146_097
}

// The bits of a word, each s - 8 days later, one by one.
fn word_by_bits(words: &[u64], w: usize, s: u32) -> u64
    requires words { length words.now ≡ 2283 }
    requires w { w < 2283 }
    requires s { s ≤ 16 }
    ensures { (i : ℕ) → i < 64 → bit_at result i ≡ map_bit words.now (shifted (64 * w + i) s) }
{
    let mut word: u64 = 0;
    for i in 0..64u32 {
        if has_bit(words, shifted_at(w, i, s)) {
            word |= 1 << i;
        }
    }
    word
}

// The bits of a word, each s - 8 days later.
fn shifted_word(words: &[u64], w: usize, s: u32) -> u64
    requires words { length words.now ≡ 2283 }
    requires w { w < 2283 }
    requires s { s ≤ 16 }
    ensures { (i : ℕ) → i < 64 → bit_at result i ≡ map_bit words.now (shifted (64 * w + i) s) }
{
    if w == 0 || w == 2282 {
        return word_by_bits(words, w, s);
    }
    window(words, 64 * w + s as usize - 8)
}

/// The residues of a word that are in the one map, and s - 8 days later in the other. Takes no memory.
pub fn joined(a: &[u64], b: &[u64], w: usize, s: u32) -> u64
    requires a { length a.now ≡ 2283 }
    requires b { length b.now ≡ 2283 }
    requires w { w < 2283 }
    requires s { s ≤ 16 }
    ensures { (i : ℕ) → i < 64 → bit_at result i ≡ joined_bit a.now b.now s (64 * w + i) }
{
    a[w] & shifted_word(b, w, s)
}

// The same where there may be no other map, which then has all.
fn met(a: &[u64], b: Option<&[u64]>, w: usize, s: u32) -> u64
    requires a { length a.now ≡ 2283 }
    requires b { AreWords b }
    requires w { w < 2283 }
    requires s { s ≤ 16 }
    ensures { (i : ℕ) → i < 64 → bit_at result i ≡ met_bit a.now b.entry s (64 * w + i) }
{
    match b {
        Some(b) => joined(a, b, w, s),
        None => a[w],
    }
}

// The residues of a word that are so met at some of these shifts.
fn any_met(a: &[u64], b: Option<&[u64]>, w: usize, low: u32, high: u32) -> u64
    requires a { length a.now ≡ 2283 }
    requires b { AreWords b }
    requires w { w < 2283 }
    requires high { high ≤ 17 }
    ensures { (s i : ℕ) → low ≤ s → s < high → i < 64 → bit_at result i ≡ 0 → met_bit a.now b.entry s (64 * w + i) ≡ 0 }
{
    let mut found = 0;
    for s in low..high {
        found |= met(a, b, w, s);
    }
    found
}

// The lower of two numbers.
fn lower_of(a: u32, b: u32) -> u32
    ensures a { result ≤ a }
    ensures b { result ≤ b }
{
    if a < b { a } else { b }
}

// How many residues from r on are not met, where so many bits from a later one on are not.
fn run_to(r: u32, from: u32, zeros: u32) -> u32
    requires r { r < 146097 }
    requires from { (r ≤ from) × (from < 146112) }
    requires zeros { zeros ≤ 64 }
    ensures within { r + result ≤ 146097 }
    ensures run { r + result ≤ from + zeros }
{
    let end = from + zeros;
    if end < 146_097 { end - r } else { 146_097 - r }
}

/// How many residues from one on surely are not in the one map and, at any of some shifts, in the other, up to the end of the
/// cycle. Shift s is one of s - 8 days; where there is no other map, it has all. Takes no memory.
pub fn unmet_from(a: &[u64], b: Option<&[u64]>, r: u32, low: u32, high: u32) -> u32
    requires a { length a.now ≡ 2283 }
    requires b { AreWords b }
    requires r { r < 146097 }
    requires high { high ≤ 17 }
    ensures unmet { (s i : ℕ) → low ≤ s → s < high → i < result → met_bit a.now b.entry s (r + i) ≡ 0 }
    ensures within { r + result ≤ 146097 }
{
    let first = r as usize / 64;
    let rest = any_met(a, b, first, low, high) >> (r % 64);
    if rest != 0 {
        return run_to(r, r, lower_of(lowest(rest), 64 - r % 64));
    }
    for w in first + 1..2283 {
        // Most words of most maps are empty.
        if a[w] == 0 {
            continue;
        }
        let word = any_met(a, b, w, low, high);
        if word != 0 {
            return run_to(r, 64 * w as u32, lowest(word));
        }
    }
    146_097 - r
}
