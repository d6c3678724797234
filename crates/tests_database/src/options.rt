//! Options by which a connection is opened.

use crate::{Toy, ToyConnection};
use log::LevelFilter;
use sqlx_text::{Error, LogSettings, OutOfMemory};
use sqlx_traits::{Connect, ConnectOptions};
use std::alloc::Global;
use url::Url;

/// Options: a URL, whose path tells the steps that the connection hands out, and what is logged.
#[derive(Drop)]
pub struct ToyConnectOptions {
    pub url: Url,
    pub settings: LogSettings,
}

impl ConnectOptions for ToyConnectOptions {
    ghost use Rattle.std.specs.Prelude.{Ok, refl};
    ghost use Rattle.log.specs.declared.level.LevelFilter.TheVariants.{Debug, Warn};
    ghost use Rattle.sqlx_text.specs.declared.error.Error.TheVariants.{OutOfMemory};
    ghost use Rattle.sqlx_traits.specs.Reads.{Answers};

    ghost reads = { λ parts r. Answers (λ options. options.url) OutOfMemory (Ok parts) r };

    ghost written = { λ options. options.url };

    ghost logging = { λ options. options.settings };

    ghost with_logging = { λ options settings. record options { settings = settings } };

    ghost logs_as_set = { λ _ _. refl };

    ghost keeps_last = { λ _ _ _. refl };

    fn from_url(_alloc: Global, url: &Url) -> Result<Self, Error> {
        Ok(ToyConnectOptions {
            url: url.clone()?,
            settings: LogSettings::default(),
        })
    }

    fn to_url_lossy(&self, _alloc: Global) -> Result<Url, Error> {
        Ok(self.url.clone()?)
    }

    fn log_statements(self, level: LevelFilter) -> Self {
        let mut options = self;
        options.settings.log_statements(level);
        options
    }

    fn log_slow_statements(self, level: LevelFilter, duration: u64) -> Self {
        let mut options = self;
        options.settings.log_slow_statements(level, duration);
        options
    }

    fn try_clone(&self, _alloc: Global) -> Result<Self, OutOfMemory> {
        Ok(ToyConnectOptions {
            url: self.url.clone()?,
            settings: self.settings,
        })
    }
}

impl Connect<Toy> for ToyConnectOptions {
    fn connect(&self, alloc: Global) -> Result<ToyConnection, Error> {
        Ok(ToyConnection::new(alloc, self.url.path())?)
    }
}
