// What leaves the run as it is.
use super::answers::{show_address, show_holder, show_offset};
use super::charts::chart;
use super::commands::Question;
use super::lookups::{addresses, moves};
use super::pieces::{read, reads};
use super::run::Run;
use super::views::{view, view_of_lengths};
use std::io;
use std::io::Write;

pub fn ask(out: &mut impl Write, run: &Run, question: Question) -> io::Result<()> {
    let state = run.state;
    let table = run.table;
    let medium = run.lent();
    match question {
        Question::Read { block, size } => read(out, size, |piece| state.read(medium, block, piece)),
        Question::ClientRead {
            client,
            block,
            size,
        } => read(out, size, |piece| {
            clients::client_read(table, client, state, medium, block, piece)
        }),
        Question::Reads { first, end } => reads(out, state, medium, first, end),
        Question::View { block, disks } => view(out, state, medium, block, disks),
        Question::ViewOfLengths {
            block,
            disks,
            first,
            second,
        } => { view_of_lengths(out, state, medium, block, disks, first, second) }
        Question::Chart { len } => chart(out, len, |page| wall_chart::put_chart(page, state)),
        Question::ChartOfRecord { len } => chart(out, len, |page| {
            wall_chart::put_chart_of_record(page, medium)
        }),
        Question::Address(block) => show_address(out, state.address(block).answer),
        Question::Holder(spot) => show_holder(out, state.holder(spot).answer),
        Question::Addresses { end } => addresses(out, state, end),
        Question::Moves { end } => moves(out, state, end),
        Question::TableMove { disks, added, mark } => {
            show_offset(out, move_table::offset(disks, added, mark))
        }
    }
}
