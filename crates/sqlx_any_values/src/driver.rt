//! A driver, as a program lists it.
ghost use Rattle.std.specs.Prelude.{◌≡◌};

use sqlx_traits::Database;

/// A driver: its name, and the schemes of the URLs that it reads.
#[derive(Debug, Drop)]
pub struct AnyDriver {
    pub name: &'static str,
    pub url_schemes: &'static [&'static str],
}

impl AnyDriver {
    ghost use Rattle.sqlx_any_values.specs.Drivers.{has_scheme, schemes_of};

    /// The driver of a database.
    pub fn without_migrate<DB: Database>() -> AnyDriver
        ensures name { result.name.now ≡ DB.called }
        ensures schemes { schemes_of result ≡ DB.schemes }
    {
        AnyDriver {
            name: DB::name(),
            url_schemes: DB::url_schemes(),
        }
    }

    /// Whether it reads URLs of the scheme.
    pub(crate) fn has_scheme(&self, scheme: &str) -> bool
        ensures { result ≡ has_scheme scheme.now self.now }
    {
        self.url_schemes.iter().any(|own| scheme == *own)
    }
}
