//! A file: what was written is there when it is opened again.
use sqlite_driver::SqliteFiles;
use std::fs;
use std::test::Fail;
use tests_kv::Act;
use tests_kv::opened::answers_by;
use tests_kv::shown::told;

// A committed row, and one that isn't committed when the file is closed.
const WRITES: &[Act] = &[
    Act::Run("CREATE TABLE kv(k INTEGER PRIMARY KEY, v INTEGER NOT NULL)"),
    Act::Put(1, 5),
    Act::Run("BEGIN"),
    Act::Put(2, 6),
];

const READS: &[Act] = &[Act::Get(1), Act::Get(2)];

#[test]
fn a_file_is_opened_again(rt: HostRuntime) -> Result<(), Fail> {
    let mut files = SqliteFiles::new(rt);
    for (acts, want) in [(WRITES, "0|1|0|1|"), (READS, "Some(5)|None|")] {
        let answered = answers_by(rt.alloc(), &mut files, "sqlite:written.db", acts);
        let line = told(rt.alloc(), answered)?;
        assert_eq!(rt; line.as_str(), want);
    }
    for name in ["written.db", "written.db-wal"] {
        let _ = fs::remove_file(&rt, name);
    }
    Ok(())
}
