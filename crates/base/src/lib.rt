// Laws that several crates cite, and one number.

#![tactic(auto)]

// A short text is kept as a number: its bytes are the digits at this base, the first the lowest (specs/Pack.antt).
// Numbers, not texts, in every crate with names: contracts (`NumberSpells`, `Means`) are of them; no heap (N1, S5).
pub const RADIX: u64 = 128;
