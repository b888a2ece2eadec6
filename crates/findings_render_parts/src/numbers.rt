// Numbers as they are printed: decimal, right-aligned, hexadecimal.
ghost use Rattle.std.specs.Prelude.{◌≡◌, false, ◌<◌, ◌≤◌, ◌-◌, ◌/◌, ◌%◌, ◌^◌};
ghost use Rattle.findings_render_parts.specs.Laid.{Laid};
ghost use Rattle.findings_render_parts.specs.Printed.{digit, base, most, digits, tens_up_to, digit_count, number, aligned, hex_count};

use crate::laying::{put_byte, put_run};

// The powers of ten that 64 bits hold, and as many of sixteen as a character's number wants.
const TENS: [usize; 20] = [
    1,
    10,
    100,
    1000,
    10000,
    100000,
    1000000,
    10000000,
    100000000,
    1000000000,
    10000000000,
    100000000000,
    1000000000000,
    10000000000000,
    100000000000000,
    1000000000000000,
    10000000000000000,
    100000000000000000,
    1000000000000000000,
    10000000000000000000,
];

const SIXTEENS: [usize; 6] = [1, 16, 256, 4096, 65536, 1048576];

const MOST_DIGITS: usize = 20;

const GUTTER: usize = 5;

// A digit, by its value.
pub fn digit_byte(d: usize) -> u8
    requires { d < 16 }
    ensures { result ≡ digit d }
{
    if d < 10 {
        (48 + d) as u8
    } else {
        (55 + d) as u8
    }
}

fn ten_to(w: usize) -> usize
    requires { w < 20 }
    ensures { (result ≡ 10 ^ w) × (1 ≤ result) }
{
    TENS[w]
}

fn sixteen_to(w: usize) -> usize
    requires { w < 6 }
    ensures { (result ≡ 16 ^ w) × (1 ≤ result) }
{
    SIXTEENS[w]
}

// The digit of n that has w digits behind it.
fn digit_at(hex: bool, w: usize, n: usize) -> u8
    requires { w < most hex }
    ensures { result ≡ digit ((n / base hex ^ w) % base hex) }
{
    if hex {
        return digit_byte(n / sixteen_to(w) % 16);
    }
    digit_byte(n / ten_to(w) % 10)
}

// The last w digits of n.
pub fn put_digits(out: &mut [u8], at: usize, quoted: bool, hex: bool, w: usize, n: usize) -> usize
    requires { w ≤ most hex }
    ensures { Laid quoted (digits hex w n) at out.old result out.new }
{
    let mut next = at;
    for k in 0..w {
        next = put_byte(out, next, quoted, digit_at(hex, w - 1 - k, n));
    }
    next
}

// How many decimal digits a number has.
fn digit_count(n: usize) -> usize
    ensures { (result ≡ digit_count n) × (result ≤ 20) }
{
    let mut count: usize = 1;
    for k in 1..MOST_DIGITS {
        if ten_to(k) <= n {
            count += 1;
        }
    }
    count
}

// A number in decimal digits.
pub fn put_number(out: &mut [u8], at: usize, quoted: bool, n: usize) -> usize
    ensures { Laid quoted (number n) at out.old result out.new }
{
    put_digits(out, at, quoted, false, digit_count(n), n)
}

// How many blanks stand before so many digits in the gutter.
fn padding(count: usize) -> usize
    ensures { result ≡ 5 - count }
{
    GUTTER.saturating_sub(count)
}

// A number right-aligned in the gutter.
pub fn put_aligned(out: &mut [u8], at: usize, n: usize) -> usize
    ensures { Laid false (aligned n) at out.old result out.new }
{
    let next = put_run(out, at, false, b' ', padding(digit_count(n)));
    put_number(out, next, false, n)
}

// How many hexadecimal digits a character's number is written with.
pub fn hex_count(c: u32) -> usize
    ensures { (result ≡ hex_count c) × (result ≤ 6) }
{
    if c < 0x10000 {
        4
    } else if c < 0x100000 {
        5
    } else {
        6
    }
}
