// Whole numbers, as every other room needs them: the floor of a division by a power of two, one
// digit, the low digits, whether a number fits a width, and a number without its sign.
//
// A number is an i64 in two's complement. Its digits go on for ever: above the highest they repeat
// the sign. So each function here has an answer at every depth and every width, however large, and
// none asks anything of its caller. The definitions are in specs/Numbers.antt, the laws that the
// rooms above use in proofs/.
#![tactic(auto)]

ghost use Rattle.std.specs.Prelude.{◌≡◌, ◌-◌, nat_abs};
ghost use Rattle.integers.specs.Numbers.{floor_by, cleared, digit, digits_below, low_digits, any_below, fits_width};

// x / 2^d, rounded toward minus infinity.
pub fn floor_by(x: i64, d: u64) -> i64
    ensures { result ≡ floor_by x d }
{
    if d < 64 { x >> d } else { x >> 63 }
}

// x with its lowest digit cleared.
pub fn cleared(x: i64) -> i64
    ensures { result ≡ cleared x }
{
    (x >> 1) << 1
}

// Digit i of x; above the highest it is the sign.
pub fn digit(x: i64, i: u64) -> u8
    ensures { result ≡ digit x i }
{
    (floor_by(x, i) & 1) as u8
}

// The low d digits of x, read as two's complement.
pub fn low_digits(x: i64, d: u64) -> i64
    ensures { result ≡ low_digits x d }
{
    if d == 0 {
        return 0;
    }
    if 63 < d {
        return x;
    }
    let s = 64 - d;
    (x << s) >> s
}

// 1 if any digit of x below digit k is 1, and else 0.
pub fn any_below(x: i64, k: u64) -> u8
    ensures { result ≡ any_below x k }
{
    u8::from(low_digits(x, k) != 0)
}

// The low 8 digits of x, as a byte.
pub fn low_byte(x: i64) -> u8
    ensures { result ≡ digits_below x 8 }
{
    (x & 255) as u8
}

// Does x fit n digits? The digits from n - 1 up are then all the sign.
pub fn fits_width(x: i64, n: u32) -> bool
    ensures { result ≡ fits_width x n }
{
    let y = floor_by(x, u64::from(n.saturating_sub(1)));
    (y == 0) | (y == -1)
}

// x without its sign.
pub fn absolute(x: i64) -> u64
    ensures { result ≡ nat_abs x }
{
    x.unsigned_abs()
}
