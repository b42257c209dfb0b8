// The line of 17 numbers, read from bytes. Each function equals its definition in specs/.
ghost use Rattle.std.specs.Prelude.{◌≡◌, ◌<◌};
ghost use Rattle.text.specs.Line.{byte_at, digits_at, with_minus, some_digits, number_at, separator, line_of};

// What is read from an index on, the value of some digits or a number, and the index after it. The text is read by index, not by an iterator over
// it: the definitions speak by index (`digits_at`, `number_at`, `line_from`), and these are their functions.
#[derive(Clone, Copy)]
struct Read<T> {
    value: T,
    next: usize,
}

// The byte at an index, 0 past the end.
fn byte_at(t: &[u8], i: usize) -> u8
    ensures { result ≡ byte_at t.now i }
{
    t.get(i).copied().unwrap_or(0)
}

// The digits from an index on, seven at most.
fn digits_at(t: &[u8], from: usize) -> Read<usize>
    ensures value { result ≡ digits_at 7 0 t.now from }
    ensures value_bound { result.value < 10000000 }
{
    let mut value = 0;
    let mut next = from;
    for _ in 0..7usize {
        let b = byte_at(t, next);
        if !b.is_ascii_digit() {
            break;
        }
        value = 10 * value + (b - b'0') as usize;
        next += 1;
    }
    Read { value, next }
}

// A number of at most seven digits with its sign, a flag as in the definition `with_minus`.
fn with_minus(minus: bool, value: usize) -> i64
    requires { value < 10000000 }
    ensures { result ≡ with_minus minus value }
{
    if minus {
        return -(value as i64);
    }
    value as i64
}

// The number that digits from an index on are, if there are any.
fn some_digits(minus: bool, from: usize, d: Read<usize>) -> Option<Read<i64>>
    requires { d.value < 10000000 }
    ensures { result ≡ some_digits minus from d }
{
    if d.next == from {
        return None;
    }
    Some(Read {
        value: with_minus(minus, d.value),
        next: d.next,
    })
}

// The number from an index on.
fn number_at(t: &[u8], i: usize) -> Option<Read<i64>>
    ensures { result ≡ number_at t.now i }
{
    let minus = byte_at(t, i) == b'-';
    let from = i + usize::from(minus);
    some_digits(minus, from, digits_at(t, from))
}

// What stands after a number that `left` others follow.
fn separator(left: usize) -> u8
    ensures { result ≡ separator left }
{
    if left == 0 {
        return b'\n';
    }
    b' '
}

// A line's numbers, in its order.
pub fn parse(input: &[u8]) -> Option<[i64; 17]>
    ensures { result ≡ line_of input.now }
{
    let mut numbers = [0; 17];
    let mut at = 0;
    // By place: behind `iter_mut` a proof knows no numbers.
    for k in 0..17 {
        let number = number_at(input, at)?;
        if byte_at(input, number.next) != separator(16 - k) {
            return None;
        }
        numbers[k] = number.value;
        at = number.next + 1;
    }
    if at != input.len() {
        return None;
    }
    Some(numbers)
}
