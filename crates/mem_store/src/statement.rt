//! The statements that the database holds, and how it reads their texts.
ghost use Rattle.std.specs.Prelude.{◌≡◌, nat_lt, slice_index};
ghost use Rattle.mem_store.specs.Statements as reading;

use sqlx_savepoints::LevelText;

/// Writes a key: two arguments, the key and its value.
pub const PUT: &str =
    "INSERT INTO kv(k, v) VALUES (?, ?) ON CONFLICT(k) DO UPDATE SET v = excluded.v";

/// Deletes a key: one argument.
pub const DELETE: &str = "DELETE FROM kv WHERE k = ?";

/// Reads a key: one argument.
pub const GET: &str = "SELECT v FROM kv WHERE k = ?";

/// Reads all keys and their values, in the order of the keys.
pub const SELECT_ALL: &str = "SELECT k, v FROM kv ORDER BY k";

/// Reads the number 1, and no key.
pub const SELECT_ONE: &str = "SELECT 1";

/// A statement of the database.
#[derive(Clone, Copy)]
pub enum Statement {
    /// Writes a key.
    Put,
    /// Deletes a key.
    Delete,
    /// Reads a key.
    Get,
    /// Reads all keys and their values.
    SelectAll,
    /// Reads the number 1.
    SelectOne,
    /// Begins or ends a level.
    Level(LevelText),
}

/// The statement of a text, none where the database holds no such text.
pub fn statement_of(text: &str) -> Option<Statement>
    ensures { result ≡ reading.read_statement text.now }
{
    if text == PUT {
        return Some(Statement::Put);
    }
    if text == DELETE {
        return Some(Statement::Delete);
    }
    if text == GET {
        return Some(Statement::Get);
    }
    if text == SELECT_ALL {
        return Some(Statement::SelectAll);
    }
    if text == SELECT_ONE {
        return Some(Statement::SelectOne);
    }
    match level_of(text) {
        Some(level) => Some(Statement::Level(level)),
        None => None,
    }
}

fn level_of(text: &str) -> Option<LevelText>
    ensures { result ≡ reading.read_level text.now }
{
    if text == "BEGIN" {
        return Some(LevelText::Begin);
    }
    if text == "BEGIN IMMEDIATE" {
        return Some(LevelText::BeginImmediate);
    }
    if text == "COMMIT" {
        return Some(LevelText::Commit);
    }
    if text == "ROLLBACK" {
        return Some(LevelText::Rollback);
    }
    named(text)
}

fn named(text: &str) -> Option<LevelText>
    ensures { result ≡ reading.read_named text.now }
{
    if let Some(number) = number_behind("SAVEPOINT _sqlx_savepoint_", text) {
        return Some(LevelText::Savepoint(number));
    }
    if let Some(number) = number_behind("RELEASE SAVEPOINT _sqlx_savepoint_", text) {
        return Some(LevelText::Release(number));
    }
    match number_behind("ROLLBACK TO SAVEPOINT _sqlx_savepoint_", text) {
        Some(number) => Some(LevelText::RollbackTo(number)),
        None => None,
    }
}

/// The number that stands behind these words.
fn number_behind(words: &str, text: &str) -> Option<u64>
    ensures { result ≡ reading.named_behind words.now text.now }
{
    match text.strip_prefix(words) {
        Some(digits) => number_of(digits),
        None => None,
    }
}

/// A number from 1 on, in decimal and without a sign or a leading zero.
fn number_of(digits: &str) -> Option<u64>
    ensures { result ≡ reading.savepoint_number digits.now }
{
    if !begins_above_zero(digits) {
        return None;
    }
    match digits.parse() {
        Ok(number) => Some(number),
        Err(_) => None,
    }
}

/// Whether the first character stands above 0.
fn begins_above_zero(digits: &str) -> bool
    ensures { result ≡ nat_lt 48 (slice_index digits.now 0) }
{
    match digits.as_bytes().first() {
        Some(first) => *first > b'0',
        None => false,
    }
}
