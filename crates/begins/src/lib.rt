// How far a list begins as some list of a set does, by a test of its first elements; the laws of it.

#![tactic(auto)]

ghost use Rattle.std.specs.Prelude.{ℕ, Bool, ◌≡◌};
ghost use Rattle.begins.specs.Searches.{Gives, turns_at, searched, first_wrong_by};

use std::cmp::Ordering;

// Whether the test holds of the first k of n elements and fails of one more, or there is no more.
#[tactic(auto, unfolding(crate::specs::Searches::turns_at))]
fn turns_at<F: Fn(usize) -> bool>(test: &F, n: usize, k: usize) -> bool
    requires { F.IsAlwaysCallable test.now }
    ensures { (t : ℕ → Bool) → Gives (F.post test.now) t → result ≡ turns_at t n k }
{
    match k.cmp(&n) {
        Ordering::Less => test(k) & !test(k + 1),
        Ordering::Equal => test(k),
        Ordering::Greater => false,
    }
}

// From the front.
fn searched<F: Fn(usize) -> bool>(test: &F, n: usize) -> usize
    requires { F.IsAlwaysCallable test.now }
    ensures { (t : ℕ → Bool) → Gives (F.post test.now) t → result ≡ searched t 0 n }
{
    for k in 0..n {
        if !test(k + 1) {
            return k;
        }
    }
    n
}

// The index of the first of n elements that no list of the set has after the ones before it, or n.
// The guess is tried first, to save the search.
#[tactic(auto, unfolding(crate::specs::Searches::first_wrong_by))]
pub fn first_wrong<F: Fn(usize) -> bool>(test: F, n: usize, guess: usize) -> usize
    requires { F.IsAlwaysCallable test }
    ensures { (t : ℕ → Bool) → Gives (F.post test) t → result ≡ first_wrong_by t n guess }
{
    if turns_at(&test, n, guess) {
        guess
    } else {
        searched(&test, n)
    }
}
