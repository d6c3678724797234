//! The lines of a block.
ghost use Rattle.std.specs.Prelude.{◌≡◌, ◌<◌, ◌≤◌, ◌+◌, ◌++◌, ◌∷◌, [], OnOk, length, string_bytes};
ghost use Rattle.std.specs.Fmt.{decimal};
ghost use Rattle.sqlx_script_made.specs.Made.{line_in};

use crate::block::Block;
use arrayvec::ArrayString;
use sqlx_lines::push_number;
use std::alloc::AllocError;

/// Lines of the script, which lie in the value itself until they are put behind its text together.
pub type Page = ArrayString<4096>;

// The most that a line takes, with its newline.
const LINE: usize = 128;

// Puts a blank and a number behind what the page holds.
#[inline(always)]
fn push_word(page: &mut Page, n: u32)
    requires room { length page.old.bytes + 21 ≤ 4096 }
    ensures bytes { page.new.bytes ≡ page.old.bytes ++ 32 ∷ decimal n }
    ensures short { length page.new.bytes ≤ length page.old.bytes + 21 }
{
    page.push_str(" ");
    push_number(page, u64::from(n));
}

// The front of each line: its first word, its number and its client.
#[inline(always)]
fn push_front(page: &mut Page, word: &str, number: u32, client: u32)
    requires short { length word.now ≤ 8 }
    requires room { length page.old.bytes + 50 ≤ 4096 }
    ensures bytes { page.new.bytes ≡ page.old.bytes ++ word.now ++ 32 ∷ decimal number ++ 32 ∷ decimal client }
    ensures short { length page.new.bytes ≤ length page.old.bytes + 50 }
{
    page.push_str(word);
    push_word(page, number);
    push_word(page, client);
}

// Puts the line at this place of a block behind what the page holds.
fn push_words(page: &mut Page, number: u32, block: Block, place: u32)
    requires place { place < 7 }
    requires room { length page.old.bytes + 128 ≤ 4096 }
    ensures { page.new.bytes ≡ page.old.bytes ++ line_in number block place }
{
    let client = block.client();
    match place {
        0 => {
            push_front(page, "ask", number, client);
            page.push_str("\n");
        }
        1 => {
            push_front(page, "poll", number, client);
            push_word(page, block.ticket);
            page.push_str(" ++++\n");
        }
        2 => {
            push_front(page, "begin", number, client);
            push_word(page, block.connection);
            page.push_str(" +\n");
        }
        3 => {
            push_front(page, "put", number, client);
            push_word(page, block.connection);
            push_word(page, block.key());
            push_word(page, block.drawn);
            page.push_str(" +\n");
        }
        4 => {
            push_front(page, block.end_word(), number, client);
            push_word(page, block.connection);
            page.push_str(" +\n");
        }
        5 => {
            push_front(page, "get", number, client);
            push_word(page, block.connection);
            push_word(page, block.key());
            page.push_str(" +\n");
        }
        _ => {
            push_front(page, "give", number, client);
            push_word(page, block.connection);
            page.push_str(" ");
            page.push_str(block.give_word());
            page.push_str(" 0\n");
        }
    }
}

/// Puts what the page holds behind the text, and empties it.
pub fn push_page(text: &mut String, page: &mut Page) -> Result<(), AllocError>
    ensures text { OnOk result (string_bytes text.new ≡ string_bytes text.old ++ page.old.bytes) }
    ensures empty { OnOk result (page.new.bytes ≡ []) }
{
    text.push_str(page.as_str())?;
    page.clear();
    Ok(())
}

// Makes room for a line on the page: where it hasn't, what it holds goes behind the text.
fn make_room(text: &mut String, page: &mut Page) -> Result<(), AllocError>
    ensures text { OnOk result (string_bytes text.new ++ page.new.bytes ≡ string_bytes text.old ++ page.old.bytes) }
    ensures room { OnOk result (length page.new.bytes + 128 ≤ 4096) }
{
    if page.remaining_capacity() >= LINE {
        return Ok(());
    }
    push_page(text, page)
}

/// Puts the line at this place of a block behind a text and a page of it, the place being from 0 to 6 and `number` the line's number.
pub fn push_line(
    text: &mut String,
    page: &mut Page,
    number: u32,
    block: Block,
    place: u32,
) -> Result<(), AllocError>
    requires { place < 7 }
    ensures { OnOk result (string_bytes text.new ++ page.new.bytes ≡ (string_bytes text.old ++ page.old.bytes) ++ line_in number block place) }
{
    make_room(text, page)?;
    push_words(page, number, block, place);
    Ok(())
}
