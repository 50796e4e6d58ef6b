// The columns: which of them are blank, and a number in one.
ghost use Rattle.std.specs.Prelude.{◌≡◌, ◌^◌, ◌<◌, length};
ghost use Rattle.record.specs.Decimal.{decimal, column_step, read_column, value_of};
ghost use Rattle.record.specs.Sector.{is_blank};

use super::Column;

// Is column i, where t growths were made, one of the counts after N[t]? N[k] is column 3 + k.
#[tactic(auto, unfolding(crate::specs::Sector::is_blank))]
pub fn is_blank(t: usize, i: usize) -> bool
    ensures { result ≡ is_blank t i }
{
    (3..11).contains(&i) && t < i - 3
}

// Fills a lent part with a number: decimal, right-justified with spaces, no leading zeros.
pub fn put_number(page: &mut [u8], n: usize)
    ensures { page.new ≡ decimal (length page.old) n }
{
    let width = page.len();
    if width == 0 {
        return;
    }
    let last = width - 1;
    page[last] = b'0' + (n % 10) as u8;
    let mut rest = n / 10;
    for i in (0..last).rev() {
        page[i] = if rest == 0 {
            b' '
        } else {
            b'0' + (rest % 10) as u8
        };
        rest /= 10;
    }
}

// What is found with one byte more.
#[tactic(auto, unfolding(crate::specs::Decimal::column_step, crate::specs::Decimal::is_digit))]
fn column_step(c: Column, b: u8) -> Column
    requires { value_of c < 10 ^ 10 }
    ensures { result ≡ column_step c b }
{
    match (c, b) {
        (Column::Blank, b' ') => Column::Blank,
        (Column::Blank, b'0'..=b'9') => Column::Number((b - b'0') as usize),
        (Column::Number(n), b'0'..=b'9') if n != 0 => Column::Number(n * 10 + (b - b'0') as usize),
        _ => Column::NotANumber,
    }
}

// What ten bytes hold.
pub fn read_column(column: &[u8]) -> Column
    ensures { result ≡ read_column column.now }
{
    if column.len() != 10 {
        return Column::NotANumber;
    }
    let mut found = Column::Blank;
    for b in column {
        found = column_step(found, *b);
    }
    found
}
