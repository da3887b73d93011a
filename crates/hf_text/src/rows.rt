//! The rows of a file, said by the page.

ghost use Rattle.std.specs.Prelude.{◌≡◌, ◌≤◌, length};
ghost use Rattle.hf_desk.specs.Calls.{Says};
ghost use Rattle.hf_desk.specs.Pages.{BySay, Gives};
ghost use Rattle.hf_text.specs.Texts.{indent as indent_of, row_text, rows_text};

use crate::text::{push_number, push_type};
use arrayvec::ArrayString;
use hf_box::BoxRow;
use hf_desk::{Desk, Page, Say, WriteFault};
use itoa::Buffer;

/// No row has more bytes.
const ROW: usize = 64;

/// What stands before a row of this depth.
fn indent(depth: u8) -> &'static str
    ensures text { result.now ≡ indent_of depth }
    ensures short { length result.now ≤ 2 }
{
    if depth == 0 { "" } else { "  " }
}

/// A row as it is printed.
fn text_of_row(row: &BoxRow) -> ArrayString<ROW>
    ensures { result.bytes ≡ row_text row.now }
{
    let mut text = ArrayString::new();
    text.push_str(indent(row.depth));
    text.push_str(Buffer::new().format(row.at));
    push_type(&mut text, row.kind);
    push_number(&mut text, row.size);
    text.push('\n');
    text
}

/// Gives a row to a page.
fn give_row<D: Desk>(row: &BoxRow, page: &mut Page<Say>, desk: &mut D) -> Result<(), WriteFault>
    ensures { Gives BySay (D.outside desk.old) page.old (row_text row.now) result (D.outside desk.new) page.new }
{
    let text = text_of_row(row);
    page.give(text.as_str().as_bytes(), desk)
}

/// Says a line for each row: two spaces where the box stands in another, then its place, its type
/// and its whole size. It takes no memory.
pub fn say_rows<D: Desk>(rows: &[BoxRow], desk: &mut D) -> Result<(), WriteFault>
    ensures { Says (D.outside desk.old) (rows_text rows.now) result (D.outside desk.new) }
{
    let mut page = Page::new();
    for row in rows {
        give_row(row, &mut page, desk)?;
    }
    page.end(desk)
}
