// Numbers in a text, digit by digit.

// The number n with a digit after it; the largest number where not every digit would fit.
pub fn with_digit(n: usize, byte: u8) -> usize {
    let Some(digit) = byte.checked_sub(b'0') else {
        return n;
    };
    if n <= (usize::MAX - 9) / 10 {
        n * 10 + usize::from(digit % 10)
    } else {
        usize::MAX
    }
}
