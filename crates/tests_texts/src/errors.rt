//! What errors and refusals of a database tell, and which error a fault becomes.

use sqlx_text::*;
use std::alloc::AllocError;
use std::test::*;

/// A refusal of the kind, with a code and a table, that may pass.
pub fn refusal(kind: ErrorKind) -> DatabaseFault {
    DatabaseFault {
        message: UStr::from_static("busy"),
        code: Some(UStr::from_static("5")),
        kind,
        transient: true,
        constraint: None,
        table: Some(UStr::from_static("t")),
    }
}

fn crosses_threads<T: Send + Sync + Drop>(value: T) {
    drop(value);
}

#[test]
fn tells_a_refusal(rt: HostRuntime) -> Result<(), Fail> {
    let fault = refusal(ErrorKind::Other);
    let told = (
        fault.message(),
        fault.code(),
        fault.table(),
        fault.constraint(),
        fault.is_transient_in_connect_phase(),
    );
    assert_eq!(rt; told, ("busy", Some("5"), Some("t"), None, true));
    Ok(())
}

#[test]
fn tells_the_kind_of_a_refusal(rt: HostRuntime) -> Result<(), Fail> {
    for want in &[
        (ErrorKind::UniqueViolation, true, false, false),
        (ErrorKind::ForeignKeyViolation, false, true, false),
        (ErrorKind::NotNullViolation, false, false, false),
        (ErrorKind::CheckViolation, false, false, true),
        (ErrorKind::ExclusionViolation, false, false, false),
        (ErrorKind::Other, false, false, false),
    ] {
        let fault = refusal(want.0);
        let told = (
            fault.kind(),
            fault.is_unique_violation(),
            fault.is_foreign_key_violation(),
            fault.is_check_violation(),
        );
        drop(fault);
        assert_eq!(rt; told, *want);
    }
    Ok(())
}

// The kind of the refusal that an error has, lent and given out.
fn kinds_of(error: Error) -> (Option<ErrorKind>, Option<ErrorKind>) {
    let seen = error.as_database_error().map(|fault| fault.kind());
    let given = error.into_database_error();
    let kind = given.as_ref().map(|fault| fault.kind());
    drop(given);
    (seen, kind)
}

#[test]
fn gives_the_refusal_of_an_error(rt: HostRuntime) -> Result<(), Fail> {
    crosses_threads(Error::from(refusal(ErrorKind::Other)));
    let kind = Some(ErrorKind::Other);
    assert_eq!(rt;
        kinds_of(Error::database(refusal(ErrorKind::Other))),
        (kind, kind)
    );
    assert_eq!(rt; kinds_of(Error::NotHeld), (None, None));
    Ok(())
}

// What `?` makes of a fault.
fn passed_on<T: Drop>(fault: T) -> Result<(), Error>
where
    Error: From<T>,
{
    Err(fault)?;
    Ok(())
}

fn number_of(answer: Result<(), Error>) -> u8 {
    let number = match &answer {
        Ok(()) => 0,
        Err(error) => error.number(),
    };
    drop(answer);
    number
}

// What a fault becomes, each in turn, and the number of the error, 0 where there is none.
fn answer_at(at: u8) -> (Result<(), Error>, u8) {
    match at {
        0 => (Err(Error::config(Fault::OutOfRange)), 1),
        1 => (Err(Error::encode(Fault::OutOfRange)), 11),
        2 => (Err(Error::decode(Fault::OutOfRange)), 12),
        3 => (Err(Error::config(Fault::OutOfMemory)), 18),
        4 => (Err(Error::encode(Fault::OutOfMemory)), 18),
        5 => (Err(Error::decode(Fault::OutOfMemory)), 18),
        6 => (Err(Error::protocol(UStr::from_static("x"))), 5),
        7 => (passed_on(refusal(ErrorKind::Other)), 3),
        8 => (passed_on(IoFault::Other), 4),
        9 => (passed_on(Fault::UnexpectedNull), 11),
        10 => (passed_on(Fault::OutOfMemory), 18),
        11 => (passed_on(OutOfMemory), 18),
        12 => (passed_on(AllocError), 18),
        _ => (Ok(()), 0),
    }
}

#[test]
fn wraps_each_fault_but_want_of_memory(rt: HostRuntime) -> Result<(), Fail> {
    for at in 0..14 {
        let (answer, number) = answer_at(at);
        assert_eq!(rt; number_of(answer), number);
    }
    Ok(())
}
