// A line: a word, then numbers, each after a space.
use printing::with_digit;
use std::alloc::{AllocError, Global};

// The word, which ends before the first space.
pub fn word_of(line: &[u8]) -> &[u8] {
    line.split(|&byte| byte == b' ').next().unwrap_or(line)
}

// The number that a text begins with, if it begins with a digit.
fn number(text: &[u8]) -> Option<usize> {
    let digits = text.iter().copied().take_while(u8::is_ascii_digit);
    digits.fold(None, |n, digit| Some(with_digit(n.unwrap_or(0), digit)))
}

// The numbers. What follows the digits up to the next space is none of them.
pub fn numbers_of(alloc: Global, line: &[u8]) -> Result<Vec<usize>, AllocError> {
    line.split(|&byte| byte == b' ')
        .skip(1)
        .filter_map(number)
        .collect(alloc)
}

// The text behind the first number and one byte more.
pub fn text_of(line: &[u8]) -> Option<&[u8]> {
    let space = line
        .windows(2)
        .position(|pair| matches!(pair, [b' ', b'0'..=b'9']))?;
    let (_, text) = line.split_at_checked(space + 1)?;
    let end = text.iter().position(|byte| !byte.is_ascii_digit())?;
    text.get(end + 1..)
}
