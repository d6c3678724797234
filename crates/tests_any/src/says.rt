//! The lines that a test tells, a bar behind each word, and what stops a test. Where memory is wanted a word is missing.

use sqlx_text::{Error, Fault, OutOfMemory};
use std::alloc::Global;
use std::fmt::{Debug, Display};
use std::process::Abort;

/// A value, as `Display` writes it.
pub fn tell<T: Display>(line: &mut String, value: &T) {
    drop(write!(line, "{value}|"));
}

/// A value, as `Debug` writes it.
pub fn show<T: Debug>(line: &mut String, value: &T) {
    drop(write!(line, "{value:?}|"));
}

/// A value that is let go, as `Debug` writes it.
pub fn shown<T: Debug + Drop>(line: &mut String, value: T) {
    show(line, &value);
    drop(value);
}

/// A text.
pub fn text(line: &mut String, told: Result<String, OutOfMemory>) {
    match told {
        Ok(text) => {
            tell(line, &text);
            drop(text);
        }
        Err(OutOfMemory) => {}
    }
}

/// The text of an error.
pub fn refused(line: &mut String, error: Error) {
    tell(line, &error);
    drop(error);
}

/// The text of a fault.
pub fn faulted(line: &mut String, fault: Fault) {
    tell(line, &fault);
    drop(fault);
}

/// The value of an answer, or the text of its error.
pub fn answered<T: Debug + Drop>(line: &mut String, answer: Result<T, Error>) {
    match answer {
        Ok(value) => shown(line, value),
        Err(error) => refused(line, error),
    }
}

/// A value that is given but where memory is wanted.
pub fn given<T: Debug + Drop>(line: &mut String, answer: Result<T, OutOfMemory>) {
    match answer {
        Ok(value) => shown(line, value),
        Err(OutOfMemory) => {}
    }
}

/// `()`, or the text of a fault.
pub fn taken(line: &mut String, answer: Result<(), Fault>) {
    match answer {
        Ok(()) => show(line, &()),
        Err(fault) => faulted(line, fault),
    }
}

/// The end of the line.
pub fn end(line: &mut String) {
    drop(line.push('\n'));
}

/// A line and its end.
pub fn ended(lines: &mut String, line: String) {
    drop(lines.push_str(&line));
    drop(line);
    end(lines);
}

/// Stops the test where the line isn't the wanted one.
pub fn says<R: Abort>(rt: &R, line: String, want: &str) {
    assert_eq!(rt; line.as_str(), want);
}

/// The line of an answer, or one of its error.
pub fn line_of(alloc: Global, answer: Result<String, Error>) -> String {
    match answer {
        Ok(line) => line,
        Err(error) => {
            let mut line = String::new(alloc);
            refused(&mut line, error);
            line
        }
    }
}
