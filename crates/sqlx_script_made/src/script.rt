//! The made script.
ghost use Rattle.std.specs.Prelude.{◌≡◌, ◌<◌, ◌≤◌, ◌^◌, IfOk, string_bytes};
ghost use Rattle.sqlx_script_made.specs.Made.{made_text};

use crate::block::Block;
use crate::lines::{Page, push_line, push_page};
use std::alloc::{AllocError, Global};

/// The script of so many lines, its first line among them, for this seed.
pub fn made_script(alloc: Global, lines: u32, seed: u32) -> Result<String, AllocError>
    requires some { 1 ≤ lines }
    requires few { lines ≤ 10000 }
    ensures { IfOk result (λ text. string_bytes text ≡ made_text lines seed) }
{
    let mut text = String::from_str(alloc, "pool 1 0 1000 - - +---\n")?;
    let mut page = Page::new();
    let mut block = Block::first(seed);
    for line in 2..lines + 1 {
        let place = (line - 2) % 7;
        push_line(&mut text, &mut page, line, block, place)?;
        if place == 6 {
            block = block.next();
        }
    }
    push_page(&mut text, &mut page)?;
    Ok(text)
}
