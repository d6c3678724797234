//! Databases by their names and schemes, and which driver is found for a URL.

use crate::says::*;
use sqlx_any::*;
use std::alloc::Global;
use std::test::*;
use tests_backend::StubBackend;
use tests_database::Toy;
use url::Url;

// The place of the driver for a URL, of three drivers, and whether the URL has the scheme `mem`.
fn found(alloc: Global, url: &Url) -> String {
    let mut line = String::new(alloc);
    let list = [
        AnyDriver::without_migrate::<Toy>(),
        AnyDriver {
            name: "SQLite",
            url_schemes: &["sqlite", "disk"],
        },
        AnyDriver {
            name: "Disk",
            url_schemes: &["disk"],
        },
    ];
    answered(&mut line, find_driver(alloc, &list, url));
    drop(list);
    answered(&mut line, expect_scheme(alloc, url, "mem"));
    line
}

const FOUND: &str = "0|()|\n\
    0|error with configuration: no driver found for URL scheme \"toy\"|\n\
    1|error with configuration: no driver found for URL scheme \"sqlite\"|\n\
    1|error with configuration: no driver found for URL scheme \"disk\"|\n\
    error with configuration: no driver found for URL scheme \"pg\"|\
    error with configuration: no driver found for URL scheme \"pg\"|\n";

#[test]
fn finds_drivers(rt: HostRuntime) -> Result<(), Fail> {
    let alloc = rt.alloc();
    let mut lines = String::new(alloc);
    for url in &["mem:x", "toy:x", "sqlite:x", "disk:x", "pg:x"] {
        let options = AnyConnectOptions::parse(alloc, url)?;
        ended(&mut lines, found(alloc, &options.database_url));
        drop(options);
    }
    says(&rt, lines, FOUND);
    Ok(())
}

// A database's name, that of its driver, and its schemes.
fn named<DB: Database>(alloc: Global) -> String {
    let driver = AnyDriver::without_migrate::<DB>();
    told_names(alloc, DB::name(), driver, DB::url_schemes())
}

fn told_names(alloc: Global, name: &str, driver: AnyDriver, schemes: &[&str]) -> String {
    let mut line = String::new(alloc);
    tell(&mut line, &name);
    tell(&mut line, &driver.name);
    drop(driver);
    show(&mut line, &schemes);
    line
}

fn named_any<B: AnyConnectionBackend>(alloc: Global) -> String {
    named::<Any<B>>(alloc)
}

#[test]
fn databases_have_names(rt: HostRuntime) {
    let alloc = rt.alloc();
    says(&rt, named::<Toy>(alloc), "Toy|Toy|[\"toy\", \"mem\"]|");
    says(&rt, named_any::<StubBackend>(alloc), "Any|Any|[]|");
}
