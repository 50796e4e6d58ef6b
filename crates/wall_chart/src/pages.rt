// Pages filled with a chart.
ghost use Rattle.std.specs.Prelude.{◌≡◌, true, ◌+◌, ◌*◌, ◌≤◌, length};
ghost use Rattle.std.proofs.lemmas.List.Edits.{sets};
ghost use Rattle.base.specs.Below.{joined};
ghost use Rattle.base.specs.Refusals.{refusal, checked};
ghost use Rattle.layout.specs.Limits.{most_disks, most_rows};
ghost use Rattle.volume.specs.Sound.{sound};
ghost use Rattle.wall_chart.specs.Chart.{line_bytes, row_line, chart};
ghost use Rattle.wall_chart.specs.Pages.{chart_table, charted, record_charted};

use super::lines::{put_heading_line, put_row_line, text_bytes};
use base::Refusal;
use volume::Volume;

// The bytes of a chart: a line for each row, and the first one.
fn chart_bytes(rows: usize, disks: usize) -> usize
    requires { (rows ≤ most_rows) × (disks ≤ most_disks) }
    ensures { result ≡ (rows + 1) * line_bytes disks }
{
    let text = text_bytes(disks);
    let width = text + 1;
    rows * width + width
}

// Puts the lines of all rows into a page, behind the first line.
fn put_rows(page: &mut [u8], v: Volume, disks: usize)
    requires limits { (v.rows ≤ most_rows) × (disks ≤ most_disks) }
    requires room { (v.rows + 1) * line_bytes disks ≤ length page.old }
    ensures { page.new ≡ sets page.old (line_bytes disks) (joined (row_line v disks) v.rows) }
{
    let width = text_bytes(disks) + 1;
    let rows = v.rows;
    for b in 0..rows {
        let at = width + b * width;
        put_row_line(&mut page[at..at + width], v, disks, b);
    }
}

// Puts the chart at the start of a page, and gives its length.
fn put_lines(page: &mut [u8], v: Volume) -> usize
    requires sound_state { sound v ≡ true }
    requires room { length (chart v) ≤ length page.old }
    ensures value { result ≡ length (chart v) }
    ensures page_after { page.new ≡ sets page.old 0 (chart v) }
{
    let disks = v.disk_count();
    let width = text_bytes(disks) + 1;
    put_heading_line(&mut page[..width], disks);
    put_rows(page, v, disks);
    chart_bytes(v.rows, disks)
}

// The tests of the state and of a page of so many bytes.
fn check_chart(v: &Volume, len: usize) -> Result<(), Refusal>
    ensures { result ≡ checked (refusal (chart_table v.now len)) }
{
    if !v.is_sound() {
        return Err(Refusal::NotSound);
    }
    if len < chart_bytes(v.rows, v.disk_count()) {
        return Err(Refusal::PageTooShort);
    }
    Ok(())
}

// Puts the chart of a state at the start of a lent page, leaves the rest of the page as it was, and gives the chart's
// length.
pub fn put_chart(page: &mut [u8], v: Volume) -> Result<usize, Refusal>
    ensures value { result ≡ (charted v page.old).answer }
    ensures page_after { page.new ≡ (charted v page.old).page }
{
    check_chart(&v, page.len())?;
    Ok(put_lines(page, v))
}

// The same for the state of a record sector, of which only the first 512 bytes are read.
pub fn put_chart_of_record(page: &mut [u8], sector: &[u8]) -> Result<usize, Refusal>
    ensures value { result ≡ (record_charted sector.now page.old).answer }
    ensures page_after { page.new ≡ (record_charted sector.now page.old).page }
{
    let reply = Volume::from_sector(sector);
    reply.answer?;
    put_chart(page, reply.state)
}
