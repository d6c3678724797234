//! Statements by their texts on two links of one store.
use mem_store::{
    Act, Answer, DELETE, MemStore, PUT, Runs, SELECT_ONE, StoreSession, statement_of,
    with_arguments,
};
use sqlx_text::{Error, OutOfMemory};
use std::alloc::Global;
use std::process::Abort;
use std::test::Fail;

// A text with its arguments, its answer in a word, and what is seen of a key behind it.
struct Step {
    text: &'static str,
    arguments: &'static [i64],
    word: &'static str,
    key: i64,
    seen: Option<i64>,
}

// Does what the text says, unless that is refused.
fn run(session: &mut StoreSession, text: &str, arguments: &[i64]) -> Result<(), Error> {
    done(session, with_arguments(statement_of(text), arguments))
}

fn done(session: &mut StoreSession, act: Option<Act>) -> Result<(), Error> {
    match session.admitted(act) {
        Ok(act) => match session.run(act) {
            Ok(()) => Ok(()),
            Err(error) => Err(Error::from(error)),
        },
        Err(refusal) => {
            session.refuse();
            Err(refusal.error())
        }
    }
}

// Whether the answer is this word: "done", the message of the database's refusal, or "another error".
fn is_told(answer: Result<(), Error>, word: &str) -> bool {
    let told = match &answer {
        Ok(()) => word == "done",
        Err(Error::Database(fault)) => fault.message.as_str() == word,
        Err(_) => word == "another error",
    };
    drop(answer);
    told
}

// Stops the test where a step is answered by another word, or leaves another value.
fn takes<R: Abort>(rt: &R, session: &mut StoreSession, steps: &[Step]) {
    for step in steps {
        let answer = run(session, step.text, step.arguments);
        assert!(rt; is_told(answer, step.word), "{}", step.text);
        assert_eq!(rt; session.seen(step.key), step.seen, "{}", step.text);
    }
}

// A session of a new store, whose first statement meets the answer.
fn opened(alloc: Global, answer: Answer) -> Result<StoreSession, OutOfMemory> {
    let mut store = MemStore::new(alloc);
    match store.connect(alloc) {
        Ok(link) => Ok(store.session(link, answer)),
        Err(error) => {
            drop(store);
            Err(error)
        }
    }
}

// The value at key 1 in a session's store, and what was run there.
fn left(session: StoreSession) -> (Option<i64>, Runs) {
    let (store, link) = session.into_parts();
    drop(link);
    let left = (store.get(1), store.runs());
    drop(store);
    left
}

const LEVELS: &[Step] = &[
    Step {
        text: "BEGIN",
        arguments: &[],
        word: "done",
        key: 1,
        seen: None,
    },
    Step {
        text: PUT,
        arguments: &[1, 5],
        word: "done",
        key: 1,
        seen: Some(5),
    },
    Step {
        text: "SAVEPOINT _sqlx_savepoint_1",
        arguments: &[],
        word: "done",
        key: 1,
        seen: Some(5),
    },
    Step {
        text: PUT,
        arguments: &[1, 6],
        word: "done",
        key: 1,
        seen: Some(6),
    },
    Step {
        text: "ROLLBACK TO SAVEPOINT _sqlx_savepoint_1",
        arguments: &[],
        word: "done",
        key: 1,
        seen: Some(5),
    },
    Step {
        text: DELETE,
        arguments: &[2],
        word: "done",
        key: 1,
        seen: Some(5),
    },
    Step {
        text: SELECT_ONE,
        arguments: &[],
        word: "done",
        key: 1,
        seen: Some(5),
    },
    Step {
        text: "COMMIT",
        arguments: &[],
        word: "done",
        key: 1,
        seen: Some(5),
    },
    Step {
        text: "BEGIN IMMEDIATE",
        arguments: &[],
        word: "done",
        key: 1,
        seen: Some(5),
    },
];

const LEVELS_RUN: Runs = Runs {
    begun: 3,
    ended: 2,
    writes: 3,
    reads: 1,
};

#[test]
fn a_level_within_a_level(rt: HostRuntime) -> Result<(), Fail> {
    let mut session = opened(rt.alloc(), Answer::Accept)?;
    takes(&rt, &mut session, LEVELS);
    assert_eq!(rt; left(session), (Some(5), LEVELS_RUN));
    Ok(())
}

// A store with a link in a level, and another link.
fn one_in_level(alloc: Global, answer: Answer) -> Result<StoreSession, Error> {
    let mut session = opened(alloc, Answer::Accept)?;
    let begun = run(&mut session, "BEGIN", &[]);
    let (store, first) = session.into_parts();
    drop(first);
    beside(alloc, begun, store, answer)
}

fn beside(
    alloc: Global,
    begun: Result<(), Error>,
    store: MemStore,
    answer: Answer,
) -> Result<StoreSession, Error> {
    let mut store = store;
    if let Err(error) = begun {
        drop(store);
        return Err(error);
    }
    match store.connect(alloc) {
        Ok(link) => Ok(store.session(link, answer)),
        Err(error) => {
            drop(store);
            Err(Error::from(error))
        }
    }
}

const WRITES: &[Step] = &[
    Step {
        text: PUT,
        arguments: &[2, 7],
        word: "refused",
        key: 2,
        seen: None,
    },
    Step {
        text: PUT,
        arguments: &[2, 7],
        word: "busy",
        key: 2,
        seen: None,
    },
    Step {
        text: PUT,
        arguments: &[2, 7],
        word: "busy",
        key: 2,
        seen: None,
    },
];

#[test]
fn a_write_beside_an_open_level(rt: HostRuntime) -> Result<(), Fail> {
    let mut session = one_in_level(rt.alloc(), Answer::Refuse)?;
    takes(&rt, &mut session, WRITES);
    drop(session);
    Ok(())
}

const TWICE: &[Step] = &[
    Step {
        text: PUT,
        arguments: &[2, 7],
        word: "another error",
        key: 2,
        seen: None,
    },
    Step {
        text: PUT,
        arguments: &[2, 7],
        word: "done",
        key: 2,
        seen: Some(7),
    },
];

#[test]
fn what_is_handed_in_meets_one_statement(rt: HostRuntime) -> Result<(), Fail> {
    let mut session = opened(rt.alloc(), Answer::Io)?;
    takes(&rt, &mut session, TWICE);
    drop(session);
    Ok(())
}
