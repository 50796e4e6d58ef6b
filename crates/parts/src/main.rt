// Runs what no call reaches on cases, the blocks and windows of one growth, columns and records of every length and with every byte
// changed, and writes a line for each. What it must write is in the file stdout. The cases of calls are in the crate `script`.
// The lines are printed as they stand, but for a letter after `@`: that is a question, listed in the file question.rt. It is asked
// with the text before the line's first question and the numbers in it, and the answer is printed.
#![tactic(auto)]

mod cases;
mod changes;
mod columns;
mod question;
mod records;
mod windows;

use cases::show_case;
use records::worked;
use std::io;
use std::io::{BufWriter, Write};

const CASES: &str =
    "1. One growth: each block a head, body or tail that moves, one that stays, or added
m 3, n 2, s 5: @L
m 4, n 2, s 6: @L
m 2, n 2, s 4: @L
m 1, n 3, s 3: @L
m 1, n 15, s 16: @L
m 15, n 1, s 16: @L
m 3, n 2, s 7: @L
m 3, n 2, s 13: @L
m 3, n 2, s 1: @L
m 2, n 4, s 10: @L
m 3, n 5, s 8: @L
m 3, n 3, s 7: @L
m 5, n 2, s 8: @L
m 1, n 1, s 3: @L
2. The windows of a growth: document 01's, from 1 disk to 16, from 15 to 16, and none
3 to 5 disks, 5 rows: @W
3 to 5 disks, 6 rows: @W
1 to 16 disks, 16 rows: @W
1 to 16 disks, 16 rows, window 0: @M
15 to 16 disks, 16 rows: @W
15 to 16 disks, 16 rows, window 0: @M
3 disks, 5 rows: @W
3. A last window that is cut off, as to 2 rows, to 3, and to the only row
3 to 5 disks, 7 rows: @W
3 to 5 disks, 7 rows, window 0: @M
3 to 5 disks, 7 rows, window 1: @M
3 to 5 disks, 13 rows: @W
3 to 5 disks, 13 rows, window 2: @M
3 to 5 disks, 1 row: @W
3 to 5 disks, 1 row, window 0: @M
2 to 6 disks, 8 rows: @W
2 to 6 disks, 8 rows, window 0: @M
2 to 6 disks, 8 rows, window 1: @M
3 to 8 disks, 12 rows, window 1: @M
3 to 6 disks, 7 rows, window 1: @M
5 to 7 disks, 9 rows, window 1: @M
4. Seven growths, the largest volume, and the most marks in a window
1 to 2 to 3 to 4 to 5 to 6 to 7 to 8 disks, 8 rows: @W
1 to 2 to 3 to 4 to 5 to 6 to 7 to 8 disks, 8 rows, window 0: @M
1 to 2 to 4 to 8 to 12 to 14 to 15 to 16 disks, 1000000 rows: @W
1 to 2 to 4 to 8 to 12 to 14 to 15 to 16 disks, 1000000 rows, window 62499: @M
8 to 16 disks, 1000000 rows: @W
8 to 16 disks, 1000000 rows, window 62499: @M
8 to 16 disks, 1000000 rows, window 62500: @M
5. Columns: written and read back; then a blank one, damaged ones and ones of another length
column of 0: [@C
column of 9: [@C
column of 10: [@C
column of 512: [@C
column of 9999999999: [@C
[          @T
[0000000512@T
[        07@T
[        00@T
[       +12@T
[        -1@T
[      5 12@T
[512       @T
[       5/2@T
[       5:2@T
[       0x9@T
[      512@T
[        512@T
6. The worked record of document 01: from 3 disks to 5, 512-byte blocks, 5 rows, blocks 0 and 3 recorded
@P
read back: refusal @B
one byte changed: accepted @Y, refused @Z
one of bytes 50 to 109 changed: accepted @Y, refused @Z
one of bytes 194 to 510 changed: accepted @Y, refused @Z
byte 511 changed: accepted @Y, refused @Z
511 bytes, refusal @Q
513 bytes, refusal @Q
";

fn main(rt: HostRuntime) -> io::Result<()> {
    let alloc = rt.alloc();
    let page = worked();
    let mut out = BufWriter::new(alloc, io::writer(&rt))?;
    for line in CASES.lines() {
        show_case(&mut out, alloc, &page, line)?;
    }
    out.flush()
}
