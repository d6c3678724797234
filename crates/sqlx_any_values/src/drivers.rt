//! Which driver of a list has the scheme of a URL.
ghost use Rattle.std.specs.Prelude.{◌≡◌, ◌⊎◌, IfErr};
ghost use Rattle.sqlx_traits.specs.Faults.{OpenCause};
ghost use Rattle.sqlx_traits.specs.Reads.{Answers};
ghost use Rattle.sqlx_any_values.specs.Drivers.{driver_of, found_driver, no_driver, of_scheme};

use crate::AnyDriver;
use sqlx_text::{Error, Fault, UStr};
use std::alloc::Global;
use url::Url;

/// The place of the first driver that has the scheme of the URL, and `Configuration` exactly where none has it.
pub fn find_driver(alloc: Global, list: &[AnyDriver], url: &Url) -> Result<usize, Error>
    ensures { Answers (λ at. at) Error.OutOfMemory (found_driver url.now.scheme (driver_of url.now.scheme list.now)) result }
{
    let scheme = url.scheme();
    match place_of(list, scheme) {
        Some(at) => Ok(at),
        None => Err(no_driver(alloc, scheme)),
    }
}

/// Nothing where the URL has the scheme, and else `Configuration`, as where no driver has it.
pub fn expect_scheme(alloc: Global, url: &Url, scheme: &str) -> Result<(), Error>
    ensures found { Answers (λ found. found) Error.OutOfMemory (of_scheme scheme.now url.now.scheme) result }
    ensures cause { IfErr result OpenCause }
{
    let own = url.scheme();
    if own == scheme {
        Ok(())
    } else {
        Err(no_driver(alloc, own))
    }
}

// The error of a scheme that no driver has.
fn no_driver(alloc: Global, scheme: &str) -> Error
    ensures told { (result ≡ no_driver scheme.now) ⊎ (result ≡ Error.OutOfMemory) }
    ensures cause { OpenCause result }
{
    match format!(in alloc; "no driver found for URL scheme \"{scheme}\"") {
        Ok(text) => Error::Configuration(Fault::Text(UStr::from_string(text))),
        Err(_) => Error::OutOfMemory,
    }
}

// The place of the first driver that has the scheme.
fn place_of(list: &[AnyDriver], scheme: &str) -> Option<usize>
    ensures { result ≡ driver_of scheme.now list.now }
{
    list.iter().position(|driver| driver.has_scheme(scheme))
}
