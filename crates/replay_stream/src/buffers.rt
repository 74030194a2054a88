// A case's buffer of bytes, of places or of 64-bit places: filled with a pattern before, and told by its sums and by the places that still
// hold the pattern.
ghost use Rattle.std.specs.Prelude.{◌≡◌, ℕ, ◌+◌, ◌*◌, ◌%◌, ◌^◌, ◌<◌, length, slice_get, slice_index, EachIndex};

use super::lines;
use console::say;
use replay_case::{Number, Sums};

// Zeros. At a length that is a parameter the check need not count them; `whole` is what lending the array as a slice needs.
pub fn bytes_space<const N: usize>() -> [u8; N]
    ensures whole { N ≡ length result }
    ensures zeros { EachIndex result (λ i. slice_index result i ≡ 0) }
{
    [0u8; N]
}

pub fn places_space<const N: usize>() -> [u32; N]
    ensures whole { N ≡ length result }
    ensures zeros { EachIndex result (λ i. slice_index result i ≡ 0) }
{
    [0u32; N]
}

// What a place holds before, one number after another. A pattern may say what holds of the number at each place; of one that says nothing,
// nothing is known.
pub trait Pattern: Number + PartialEq {
    ghost holds: { ℕ → Self → Type 0 } = { λ i x. Unit {0} };

    fn first() -> Self
        ensures { holds 0 result };

    fn next(self) -> Self
        ensures { (i : ℕ) → holds i self → holds (i + 1) result };
}

// A pattern whose number at each place is known. (Its functions have names of their own, so that `first` and `next` are those of
// `Pattern` alone, whatever is imported.)
pub trait KnownPattern: Number + PartialEq {
    ghost pattern: { ℕ → Self };

    fn known_first() -> Self
        ensures { result ≡ pattern 0 };

    fn known_next(self) -> Self
        ensures { (i : ℕ) → self ≡ pattern i → result ≡ pattern (i + 1) };
}

// A known pattern is a pattern, and says of each place which number stands there.
impl<T: KnownPattern> Pattern for T {
    ghost holds = { λ i x. x ≡ T.pattern i };

    fn first() -> T {
        T::known_first()
    }

    fn next(self) -> T {
        self.known_next()
    }
}

// Place i of bytes, of places and of 64-bit places holds i + 1 times a number, in the width of the places.
impl KnownPattern for u8 {
    ghost pattern = { λ i. (i + 1) * 177 % 2 ^ 8 };

    fn known_first() -> u8 {
        177
    }

    fn known_next(self) -> u8 {
        self.wrapping_add(177)
    }
}

impl KnownPattern for u32 {
    ghost pattern = { λ i. (i + 1) * 2654435761 % 2 ^ 32 };

    fn known_first() -> u32 {
        2654435761
    }

    fn known_next(self) -> u32 {
        self.wrapping_add(2654435761)
    }
}

impl KnownPattern for u64 {
    ghost pattern = { λ i. (i + 1) * 2654435761 % 2 ^ 64 };

    fn known_first() -> u64 {
        2654435761
    }

    fn known_next(self) -> u64 {
        self.wrapping_add(2654435761)
    }
}

// Fills a buffer with a pattern: what it says of a place holds of the number that stands there then.
pub fn prefill<T: Pattern>(out: &mut [T])
    ensures { (i : ℕ) (x : T) → slice_get out.new i ≡ Some x → T.holds i x }
{
    let mut x = T::first();
    for place in out.iter_mut() {
        *place = x;
        x = x.next();
    }
}

// Fills a buffer with a known pattern, so that the number at each place is known.
pub fn prefill_known<T: KnownPattern>(out: &mut [T])
    ensures { (i : ℕ) → i < length out.new → slice_get out.new i ≡ Some (T.pattern i) }
{
    prefill(out);
}

// How many places from `from` on hold the pattern.
pub fn untouched<T: Pattern>(out: &[T], from: usize) {
    let mut x = T::first();
    let mut count: usize = 0;
    for (i, place) in out.iter().enumerate() {
        if from <= i && *place == x {
            count = count.wrapping_add(1);
        }
        x = x.next();
    }
    say!(" {count}");
}

// The sums of the places written, and the count of those untouched behind them.
pub fn written<T: Pattern>(out: &[T], n: usize) {
    if n <= out.len() {
        lines::summed(Sums::of_row(&out[..n]));
    }
    untouched(out, n);
}

// The row of a whole buffer of bytes, and the count of the places untouched in it.
pub fn told(out: &[u8]) {
    lines::row(out);
    untouched(out, 0);
}
