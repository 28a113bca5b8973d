//! What every text of a session is read with.

ghost use Rattle.std.specs.Prelude.{◌≡◌, ◌↔◌, IsTrue, IfOk, List, ℕ};
ghost use Rattle.cl_base.specs.declared.config.Define.{Define};

use crate::duplicate::Duplicate;
use crate::list::List;
use crate::memory::Mem;
use crate::name::Name;
use crate::path::Path;
use crate::text::Text;
use std::alloc::Global;
use std::marker::Model;
use std::sync::Arc;

/// A macro that is defined before a text begins: its name, and its replacement list as text.
#[derive(Drop, PartialEq, Eq)]
pub struct Define {
    pub name: Name,
    pub text: Text,
}

/// What a config says: the folders in which headers are looked for, in order, and the macros that are defined, in order.
#[derive(Drop, PartialEq, Eq)]
pub struct Settings {
    pub includes: List<Path>,
    pub defines: List<Define>,
}

/// The settings of a session. Copies share them: `duplicate` costs one count, however many there are.
#[derive(Drop)]
pub struct Config {
    settings: Arc<Settings, Global>,
}

impl Model for Config {
    ghost use Rattle.cl_base.specs.declared.config.Settings.{Settings};
    ghost use Rattle.cl_base.specs.contracts.config.Settings.{the_row as settings_row};

    ghost Value = { Settings };

    ghost coded = { settings_row.coded };

    ghost view = { λ it. it.settings.value };
}

impl Config {
    /// A config of these folders and these macros.
    pub fn new(alloc: Global, includes: List<Path>, defines: List<Define>) -> Mem<Config>
        ensures { IfOk result (λ config. config ≡ record { includes = includes; defines = defines }) }
    {
        let settings = Arc::new(alloc, Settings { includes, defines })?;
        Ok(Config { settings })
    }

    /// The folders in which headers are looked for, in order.
    pub fn includes(&self) -> &List<Path>
        ensures { result.now ≡ self.now.includes }
    {
        &self.settings.includes
    }

    /// The macros that are defined before a text begins, in order.
    pub fn defines(&self) -> &List<Define>
        ensures { result.now ≡ self.now.defines }
    {
        &self.settings.defines
    }

    /// Whether the settings are the same. It takes no memory, and time linear in what the settings say.
    pub fn same(&self, other: &Config) -> bool
        ensures { IsTrue result ↔ (self.now ≡ other.now) }
    {
        *self.settings == *other.settings
    }
}

impl Duplicate for Config {
    fn duplicate(&self, _alloc: Global) -> Mem<Config> {
        let settings = self.settings.clone()?;
        Ok(Config { settings })
    }
}
