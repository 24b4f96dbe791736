// Masks and selectors of the forms with 2 and 4: the number of each one's name (its bytes in base 128, the first the lowest), and back.
#![tactic(auto, unfolding(crate::specs::Masks::digits_in, crate::specs::Masks::digits_named))]

ghost use Rattle.std.specs.Prelude.{◌≡◌, cond, ◌+◌, ◌*◌, ◌^◌, ◌≤◌, ◌<◌};
ghost use Rattle.base.specs.Pack.{radix, pack, NumberSpells};
ghost use Rattle.rules.specs.Numbers.{lanes};
ghost use Rattle.rules.specs.Names.{lane_letter, mask_name, digits_name};
ghost use Rattle.masks.specs.Masks.{lane_digit, mask_of, digits_in, digits_named};

use record::{Digits, LaneWidth, Mask};

// The bytes `b` and `h`, with which names begin.
const LETTER_B: u64 = 98;

const LETTER_H: u64 = 104;

// ---- masks

// A digit before others, if its lane is named.
fn digit_if(named: bool, b: u8, x: u64) -> u64
    requires { x < 2 ^ 56 }
    ensures { (result ≡ cond named (b + radix * x) x) × (result ≤ b + radix * x) }
{
    if named {
        (b as u64) + base::RADIX * x
    } else {
        x
    }
}

// The letter that a mask's name begins with.
fn letter(w: LaneWidth) -> u64
    ensures { (result ≡ pack (lane_letter w)) × (result < radix) }
{
    match w {
        LaneWidth::Half => LETTER_H,
        LaneWidth::Byte => LETTER_B,
    }
}

// The number of a mask's name.
// A number, not a text: see base::RADIX.
pub fn mask_number(w: LaneWidth, m: Mask) -> u64
    ensures { NumberSpells 5 result (mask_name w m) }
{
    let x = digit_if(m.lane0, b'0', 0);
    let x = digit_if(m.lane1, b'1', x);
    let x = digit_if(m.lane2, b'2', x);
    let x = digit_if(m.lane3, b'3', x);
    letter(w) + base::RADIX * x
}

// The number of lanes as a digit; each digit of a mask is below it.
fn digit_limit(w: LaneWidth) -> u8
    ensures { result ≡ lane_digit (lanes w) }
{
    match w {
        LaneWidth::Half => b'2',
        LaneWidth::Byte => b'4',
    }
}

// The mask of a name: the width's letter, then one or more digits, each below the number of lanes and each lower than the one before.
pub fn mask_of(w: LaneWidth, x: u64) -> Option<Mask>
    ensures { result ≡ mask_of w x }
{
    let mut rest = x / base::RADIX;
    if x % base::RADIX != letter(w) || rest == 0 {
        return None;
    }
    // the digit before, at first the number of lanes; and the lanes named so far
    let mut last = digit_limit(w);
    let mut mask = Mask {
        lane0: false,
        lane1: false,
        lane2: false,
        lane3: false,
    };
    while rest != 0 {
        let digit = (rest % base::RADIX) as u8;
        if digit < b'0' || last <= digit {
            return None;
        }
        mask = Mask {
            lane0: (digit == b'0') | mask.lane0,
            lane1: (digit == b'1') | mask.lane1,
            lane2: (digit == b'2') | mask.lane2,
            lane3: (digit == b'3') | mask.lane3,
        };
        last = digit;
        rest /= base::RADIX;
    }
    Some(mask)
}

// ---- selectors

// The number of a selector's name. The first digit is the highest lane's.
pub fn digits_number(w: LaneWidth, s: Digits) -> u64
    ensures { NumberSpells 5 result (digits_name w s) }
{
    let d0 = text::digit(s.lane0 as u64) as u64;
    let d1 = text::digit(s.lane1 as u64) as u64;
    let d2 = text::digit(s.lane2 as u64) as u64;
    let d3 = text::digit(s.lane3 as u64) as u64;
    let low = d1 + base::RADIX * d0;
    match w {
        LaneWidth::Half => LETTER_H + base::RADIX * low,
        LaneWidth::Byte => {
            LETTER_B + base::RADIX * (d3 + base::RADIX * (d2 + base::RADIX * low))
        }
    }
}

// What a digit stands for: the low bits of its byte, 0-3 of a half's and 0-7 of a byte's. The first digit is the highest lane's.
fn digits_in(w: LaneWidth, x: u64) -> Digits
    ensures { result ≡ digits_in w x }
{
    let x1 = x / base::RADIX;
    let x2 = x1 / base::RADIX;
    let x3 = x2 / base::RADIX;
    let x4 = x3 / base::RADIX;
    match w {
        LaneWidth::Half => Digits {
            lane0: (x2 % 4) as u8,
            lane1: (x1 % 4) as u8,
            lane2: 0,
            lane3: 0,
        },
        LaneWidth::Byte => Digits {
            lane0: (x4 % 8) as u8,
            lane1: (x3 % 8) as u8,
            lane2: (x2 % 8) as u8,
            lane3: (x1 % 8) as u8,
        },
    }
}

// The name is a selector's exactly when what its digits stand for has this very name.
pub fn digits_of(w: LaneWidth, x: u64) -> Option<Digits>
    ensures { result ≡ digits_named w x }
{
    let s = digits_in(w, x);
    (digits_number(w, s) == x).then_some(s)
}
