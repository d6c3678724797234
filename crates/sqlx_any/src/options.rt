//! Options by which a connection of a backend is opened.
ghost use Rattle.std.specs.Prelude.{◌≡◌, Err, IfErr, IfOk, MatchResult, Ok};
ghost use Rattle.sqlx_traits.specs.Faults.{OpenCause};

use crate::{Any, AnyConnection, AnyOpen};
use log::LevelFilter;
use sqlx_text::{Error, LogSettings, OutOfMemory};
use sqlx_traits::{Connect, ConnectOptions};
use std::alloc::Global;
use url::Url;

/// The URL of a database, and which statements are logged.
#[derive(Drop)]
pub struct AnyConnectOptions {
    pub database_url: Url,
    pub log_settings: LogSettings,
}

impl ConnectOptions for AnyConnectOptions {
    ghost use Rattle.std.specs.Prelude.{Ok, refl};
    ghost use Rattle.sqlx_text.specs.declared.error.Error.TheVariants.{OutOfMemory};
    ghost use Rattle.sqlx_traits.specs.Reads.{Answers};
    ghost use Rattle.sqlx_any.specs.Settings.{with_default_log};

    ghost reads = { λ url r. Answers (λ options. options) OutOfMemory (Ok (with_default_log url)) r };

    ghost written = { λ options. options.database_url };

    ghost logging = { λ options. options.log_settings };

    ghost with_logging = { λ options settings. record options { log_settings = settings } };

    ghost logs_as_set = { λ _ _. refl };

    ghost keeps_last = { λ _ _ _. refl };

    fn from_url(_alloc: Global, url: &Url) -> Result<Self, Error> {
        Ok(AnyConnectOptions {
            database_url: url.clone()?,
            log_settings: LogSettings::default(),
        })
    }

    fn to_url_lossy(&self, _alloc: Global) -> Result<Url, Error>
        ensures ok { IfOk result (λ url. url ≡ self.now.database_url) }
        ensures memory { IfErr result (λ e. e ≡ Error.OutOfMemory) }
    {
        Ok(self.database_url.clone()?)
    }

    fn log_statements(self, level: LevelFilter) -> Self {
        let mut options = self;
        options.log_settings.log_statements(level);
        options
    }

    fn log_slow_statements(self, level: LevelFilter, duration: u64) -> Self {
        let mut options = self;
        options.log_settings.log_slow_statements(level, duration);
        options
    }

    fn try_clone(&self, _alloc: Global) -> Result<Self, OutOfMemory> {
        Ok(AnyConnectOptions {
            database_url: self.database_url.clone()?,
            log_settings: self.log_settings,
        })
    }
}

impl<B: AnyOpen> Connect<Any<B>> for AnyConnectOptions {
    fn connect(&self, alloc: Global) -> Result<AnyConnection<B>, Error>
        ensures depth { IfOk result (λ conn. B.levels conn.backend ≡ 0) }
        ensures cause { IfErr result OpenCause }
        ensures opened { MatchResult result (λ conn. B.opens self.now (Ok conn.backend)) (λ e. B.opens self.now (Err e)) }
    {
        match B::from_options(alloc, self) {
            Ok(backend) => Ok(AnyConnection::new(backend)),
            Err(error) => Err(error),
        }
    }
}
