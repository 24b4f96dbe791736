// Where a line goes wrong: the first byte with which it begins as no line of the right shape does. The bytes are read one by one; what is
// known of them is what a line may go on with.
#![tactic(auto)]

ghost use Rattle.std.specs.Prelude.{◌≡◌};
ghost use Rattle.viable.specs.States.{ends, follow, digits, register, in_head, in_list, step, shape_place_of};

// What a register is: a guard's, the first of an operand, or one that ends its operand.
#[derive(Clone, Copy, PartialEq, Eq)]
enum Role {
    Guard,
    First,
    Last,
}

// How much of a register is read: nothing, `%`, `%r`, its file, one digit, two, all.
#[derive(Clone, Copy, PartialEq, Eq)]
enum Read {
    Nothing,
    Sign,
    Wide,
    File,
    One,
    Two,
    Whole,
}

// What is read so far. Of an operand that has ended, blanks behind it among them, this is `Register(Last, Whole)`.
// Not Option with None for Wrong: `step`, under law `shape_place_right`, has Wrong as one of its states.
#[derive(Clone, Copy, PartialEq, Eq)]
enum State {
    // What no line begins with.
    Wrong,
    // Blanks, or nothing.
    Start,
    // `@`.
    Guard,
    // A guard and blanks.
    Blanks,
    // Names and a `.`.
    Dot,
    // Names, the last perhaps unfinished.
    Name,
    // The head or a comma, and blanks behind it.
    Operand,
    // `_` as the first place of a pair.
    Nothing,
    // The `|` of a pair.
    Bar,
    // A register and `.`.
    Part,
    // A selector, perhaps unfinished.
    Selector,
    // The semicolon, and blanks behind it.
    End,
    Register(Role, Read),
}

// After an operand.
#[tactic(auto, unfolding(crate::specs::States::ends))]
fn ends(b: u8) -> State
    ensures { result ≡ ends b }
{
    match b {
        b' ' | b'\t' => State::Register(Role::Last, Read::Whole),
        b',' => State::Operand,
        b';' => State::End,
        _ => State::Wrong,
    }
}

// After a register.
#[tactic(auto, unfolding(crate::specs::States::follow))]
fn follow(k: Role, b: u8) -> State
    ensures { result ≡ follow k b }
{
    match (k, b) {
        (Role::Guard, b' ' | b'\t') => State::Blanks,
        (Role::Guard, _) => State::Wrong,
        (Role::First, b'|') => State::Bar,
        (Role::First, b'.') => State::Part,
        (Role::First | Role::Last, _) => ends(b),
    }
}

// The first digit of a number.
#[tactic(auto, unfolding(crate::specs::States::digits))]
fn digits(k: Role, b: u8) -> State
    ensures { result ≡ digits k b }
{
    match b {
        b'0' => State::Register(k, Read::Whole),
        b'1'..=b'9' => State::Register(k, Read::One),
        _ => State::Wrong,
    }
}

// Inside a register.
#[tactic(auto, unfolding(crate::specs::States::register))]
fn register(k: Role, d: Read, b: u8) -> State
    ensures { result ≡ register k d b }
{
    match (d, b) {
        (Read::Nothing, b'%') => State::Register(k, Read::Sign),
        (Read::Sign, b'p') => State::Register(k, Read::File),
        (Read::Sign, b'r') => State::Register(k, Read::Wide),
        (Read::Wide, b'd' | b's') => State::Register(k, Read::File),
        (Read::Wide | Read::File, _) => digits(k, b),
        (Read::One, b'0'..=b'9') => State::Register(k, Read::Two),
        (Read::Two, b'0'..=b'9') => State::Register(k, Read::Whole),
        (Read::One | Read::Two | Read::Whole, _) => follow(k, b),
        (Read::Nothing | Read::Sign, _) => State::Wrong,
    }
}

// After a byte of a name.
#[tactic(auto, unfolding(crate::specs::States::named))]
fn in_head(b: u8) -> State
    ensures { result ≡ in_head b }
{
    match b {
        b'a'..=b'z' | b'0'..=b'9' => State::Name,
        b'.' => State::Dot,
        b' ' | b'\t' => State::Operand,
        _ => State::Wrong,
    }
}

// Where an operand begins.
fn in_list(b: u8) -> State
    ensures { result ≡ in_list b }
{
    match b {
        b' ' | b'\t' => State::Operand,
        b'!' => State::Register(Role::Last, Read::Nothing),
        b'_' => State::Nothing,
        _ => register(Role::First, Read::Nothing, b),
    }
}

// What is read with one byte more.
#[tactic(auto, unfolding(crate::specs::States::step, crate::specs::States::named))]
fn step(s: State, b: u8) -> State
    ensures { result ≡ step s b }
{
    match (s, b) {
        (State::Start, b' ' | b'\t') => State::Start,
        (State::Start, b'@') => State::Guard,
        (State::Guard, b'!') => State::Register(Role::Guard, Read::Nothing),
        (State::Guard, _) => register(Role::Guard, Read::Nothing, b),
        (State::Blanks, b' ' | b'\t') => State::Blanks,
        (State::Start | State::Blanks | State::Dot, b'a'..=b'z' | b'0'..=b'9') => State::Name,
        (State::Name, _) => in_head(b),
        (State::Operand, _) => in_list(b),
        (State::Nothing, b'|') => State::Bar,
        (State::Bar, b'_') => State::Register(Role::Last, Read::Whole),
        (State::Bar, _) => register(Role::Last, Read::Nothing, b),
        (State::Part | State::Selector, b'a'..=b'z' | b'0'..=b'9') => State::Selector,
        (State::Selector, _) => ends(b),
        (State::End, b' ' | b'\t') => State::End,
        (State::Register(k, d), _) => register(k, d, b),
        _ => State::Wrong,
    }
}

// The first byte with which the line begins as no line of the right shape, however long, does, or the line's length if it is only unfinished.
pub fn shape_place(line: &[u8]) -> usize
    ensures { result ≡ shape_place_of line.now }
{
    let mut s = State::Start;
    for (i, b) in line.iter().enumerate() {
        s = step(s, *b);
        if s == State::Wrong {
            return i;
        }
    }
    line.len()
}
